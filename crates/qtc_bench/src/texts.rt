//! The lines that operations are measured over.
ghost use Rattle.std.specs.Prelude.{◌≡◌, ◌+◌, ◌*◌, ◌%◌, ◌^◌, ◌<◌};

use qtc_base::{Bytes, Items, decimal};
use std::alloc::{AllocError, Global};
use std::io;

/// The number of lines of a text.
pub const LINES: u32 = 1_000_000;

/// Pseudo-random numbers below 2^31, by a linear congruential generator.
#[derive(Drop)]
pub struct Numbers {
    last: u64,
    ghost in_range: { last < 2 ^ 31 },
}

impl Numbers {
    pub fn starting_at_one() -> Numbers
        ensures { result.last ≡ 1 }
    {
        Numbers { last: 1 }
    }

    /// The number after the last one.
    pub fn advance(&mut self) -> u64
        ensures step { result ≡ (1103515245 * self.old.last + 12345) % 2 ^ 31 }
        ensures kept { self.new.last ≡ result }
    {
        self.last = (1_103_515_245 * self.last + 12_345) % 2_147_483_648;
        self.last
    }
}

/// Appends the next numbers, parted by spaces.
fn append_line(numbers: &mut Numbers, fields: u32, line: &mut Bytes) -> io::Result<()> {
    for field in 0..fields {
        if field > 0 {
            line.append(b" ").map_err(|_| AllocError)?;
        }
        decimal(u128::from(numbers.advance()), line).map_err(|_| AllocError)?;
    }
    Ok(())
}

/// A text of `LINES` lines with so many numbers each. An Err is want of memory, since so few lines pass no other
/// limit of a list.
pub fn lines(alloc: Global, fields: u32) -> io::Result<Items> {
    let mut numbers = Numbers::starting_at_one();
    let mut items = Items::new(alloc);
    let mut line = Bytes::new(alloc);
    for _ in 0..LINES {
        line.truncate(0);
        append_line(&mut numbers, fields, &mut line)?;
        items.push(line.as_slice()).map_err(|_| AllocError)?;
    }
    Ok(items)
}
