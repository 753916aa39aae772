//! `qtc_bench` measures calls of the libraries, as its argument asks.
#![tactic(auto)]

use claims::print_claims;
use digests::print_digests;
use future_waits::{Waiting, print_future_wait};
use futures::print_futures;
use in_place::print_in_place;
use locks::print_locks;
use operations::print_operations;
use pools::{print_pool_wait, print_pools};
use std::alloc::Global;
use std::process::ExitCode;
use std::rt::Clock;
use std::sync::Wait;
use std::thread::Threads;
use std::{env, io};
use stores::{Order, print_filled, print_stores};
use tasks::print_tasks;
use waits::{print_bell_wait, print_lock_wait};

mod callers;
mod claims;
mod digests;
mod future_waits;
mod futures;
mod in_place;
mod locks;
mod operations;
mod pools;
mod stores;
mod tables;
mod tasks;
mod texts;
mod timing;
mod waits;

/// What can be asked for.
const USAGE: &str = "\
usage: qtc_bench ops    the operations of jobs over 1000000 lines, ns an item
       qtc_bench digest the digest of items of 1 MiB beside the kit's alone, ns an item
       qtc_bench lock   a lock that is known by its key beside std's, ns for a take and a put
       qtc_bench store  a store of results, ns for an add and a get
       qtc_bench fill ascending|descending|shuffled    1000000 batches in a store
       qtc_bench claim  claims of 16 indexes beside a bare word, ns for a claim
       qtc_bench future a shared future beside std's lock round its core, ns for a call
       qtc_bench inplace 1000000 members mapped and filtered in place by 1, 2 and 4 functions, ns a member
       qtc_bench pool   tasks through a pool beside std's queue under its lock, ns a task
       qtc_bench task   values through a task beside add_result alone, 1000 tasks beside a pool, ns a value and a task
       qtc_bench wait lock|bell|resume|pause|finish|result|pool    who waits for a second, ms
";

/// Waits in the way of that name: whether there is one.
fn wait_by<R: Wait + Threads + Sync + Clock + Print>(
    rt: &R,
    alloc: Global,
    name: &str,
) -> io::Result<bool> {
    match name {
        "lock" => print_lock_wait(rt, alloc)?,
        "bell" => print_bell_wait(rt, alloc)?,
        "resume" => print_future_wait(rt, alloc, Waiting::Resume)?,
        "pause" => print_future_wait(rt, alloc, Waiting::Pause)?,
        "finish" => print_future_wait(rt, alloc, Waiting::Finish)?,
        "result" => print_future_wait(rt, alloc, Waiting::Result)?,
        "pool" => print_pool_wait(rt, alloc)?,
        _ => return Ok(false),
    }
    Ok(true)
}

/// Fills a store in the order of that name: whether there is one.
fn fill_by<R: Print>(rt: &R, alloc: Global, name: &str) -> io::Result<bool> {
    match name {
        "ascending" => print_filled(rt, alloc, Order::Ascending)?,
        "descending" => print_filled(rt, alloc, Order::Descending)?,
        "shuffled" => print_filled(rt, alloc, Order::Shuffled)?,
        _ => return Ok(false),
    }
    Ok(true)
}

/// Measures the calls of that name: whether there are any.
fn measure<R: Wait + Threads + Sync + Clock + Print>(
    rt: &R,
    alloc: Global,
    name: &str,
) -> io::Result<bool> {
    match name {
        "ops" => print_operations(rt, alloc)?,
        "digest" => print_digests(rt, alloc)?,
        "lock" => print_locks(rt, alloc)?,
        "store" => print_stores(rt, alloc)?,
        "claim" => print_claims(rt, alloc)?,
        "future" => print_futures(rt, alloc)?,
        "inplace" => print_in_place(rt, alloc)?,
        "pool" => print_pools(rt, alloc)?,
        "task" => print_tasks(rt, alloc)?,
        _ => return Ok(false),
    }
    Ok(true)
}

fn main(rt: HostRuntime) -> io::Result<ExitCode> {
    let alloc = rt.alloc();
    let mut words = env::args(&rt)?.skip(1);
    let Some(word) = words.next() else {
        print!(rt; "{USAGE}")?;
        return Ok(ExitCode::SUCCESS);
    };
    let second = words.next();
    let name = second.as_ref().map(|word| word.as_str());
    let is_known = match (word.as_str(), name) {
        ("fill", Some(name)) => fill_by(&rt, alloc, name)?,
        ("wait", Some(name)) => wait_by(&rt, alloc, name)?,
        (name, None) => measure(&rt, alloc, name)?,
        _ => false,
    };
    if is_known {
        return Ok(ExitCode::SUCCESS);
    }
    eprint!(rt; "{USAGE}")?;
    Ok(ExitCode::from(2))
}
