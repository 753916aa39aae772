//! The digest of long items, beside the kit's digest alone.
use crate::tables::print_table;
use crate::timing::{Row, Work};
use qtc_base::Bytes;
use qtc_ops::{ItemFn, ItemOp, MapOp, OpFn};
use sha2::{Digest, Sha256};
use std::alloc::{AllocError, Global};
use std::io;
use std::rt::Clock;
use std::sync::Wait;
use std::thread::Threads;

/// How many items are digested.
const ITEMS: u32 = 63;

/// The bytes of each item.
const SIZE: usize = 1_048_576;

/// How the items are digested.
#[derive(Drop)]
enum Means {
    /// By the kit's digest alone.
    Alone,
    /// By the map of jobs.
    Map,
}

/// Digests of one item, as often as there are items.
#[derive(Drop)]
struct Digests<'a> {
    alloc: Global,
    item: &'a Bytes,
    means: Means,
}

impl Work for Digests<'_> {
    fn run<R: Wait + Threads + Sync>(&self, _rt: &R) -> io::Result<u64> {
        match self.means {
            Means::Alone => Ok(digest_alone(self.item)),
            Means::Map => digest_by_map(self.alloc, self.item),
        }
    }
}

/// The sum of the digests' first bytes.
fn digest_alone(item: &Bytes) -> u64 {
    let mut sum = 0u64;
    for _ in 0..ITEMS {
        let digest = Sha256::digest(item.as_slice());
        sum = sum.wrapping_add(u64::from(digest[0]));
    }
    sum
}

/// The number of bytes of all values.
fn digest_by_map(alloc: Global, item: &Bytes) -> io::Result<u64> {
    let mut function = OpFn::new(alloc, ItemOp::Map(MapOp::Digest));
    let mut bytes = 0u64;
    for index in 0..ITEMS {
        let value = function
            .apply(index, item.as_slice())
            .map_err(|_| AllocError)?;
        bytes = bytes.wrapping_add(value.map_or(0, |value| value.len() as u64));
    }
    Ok(bytes)
}

/// Measures both over items of 1 MiB, and prints a table of them.
pub fn print_digests<R: Clock + Print + Wait + Threads + Sync>(
    rt: &R,
    alloc: Global,
) -> io::Result<()> {
    let mut item = Bytes::new(alloc);
    let sixteen = b"0123456789abcdef";
    for _ in 0..SIZE / 16 {
        item.append(sixteen).map_err(|_| AllocError)?;
    }
    let digests = |means| Digests {
        alloc,
        item: &item,
        means,
    };
    let rows = [
        Row::new("the kit's sha2 alone", digests(Means::Alone)),
        Row::beside(0, "map digest", digests(Means::Map)),
    ];
    print_table(rt, alloc, "items of 1 MiB", u64::from(ITEMS), &rows)
}
