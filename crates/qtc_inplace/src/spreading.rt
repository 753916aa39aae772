//! Lists of which several functions take something at once, each of a run of chunks.
ghost use Rattle.std.specs.Prelude.{◌≡◌, ◌+◌, ◌<◌, length};
ghost use Rattle.std.specs.Thread.{IsSend, IsSync};
ghost use Rattle.qtc_inplace.specs.Inside.{Appended, BothTaken, IsReady, JoinsBoth, TakesTogether};

use crate::InPlaceFault;
use crate::plan::run_end;
use crate::taking::take_in_turn;
use crate::takings::Taking;
use qtc_base::Bytes;
use qtc_ops::ItemFn;
use std::alloc::Global;
use std::thread::{Threads, join_mut};

/// What two runs come to, of which the second is right behind the first.
fn appended<X: Drop>(
    front: Result<Vec<X>, InPlaceFault>,
    back: Result<Vec<X>, InPlaceFault>,
) -> Result<Vec<X>, InPlaceFault>
    ensures joins { JoinsBoth front back result }
    ensures items { Appended (λ taken. taken.items) front back result }
{
    match (front, back) {
        (Ok(mut whole), Ok(mut more)) => match whole.append(&mut more) {
            Ok(()) => Ok(whole),
            Err(_) => Err(InPlaceFault::Memory),
        },
        (Err(InPlaceFault::Memory), _) | (_, Err(InPlaceFault::Memory)) => {
            Err(InPlaceFault::Memory)
        }
        (Err(InPlaceFault::Bad(index)), _) | (Ok(_), Err(InPlaceFault::Bad(index))) => {
            Err(InPlaceFault::Bad(index))
        }
    }
}

/// Calls as many functions as there are on a list, each on a run of its chunks, all at once, and gives what is taken of
/// the members, in order.
#[cycle(spread)]
pub(crate) fn take_together<R: Threads + Sync, F: ItemFn, X: Send + Drop, T: Taking<X>>(
    alloc: Global,
    rt: &R,
    size: usize,
    first: u32,
    list: &[Bytes],
    functions: &mut [F],
) -> Result<Vec<X>, InPlaceFault>
    requires { IsReady F.value size first list.now functions.old }
    ensures { TakesTogether F.value F.called T.taken (λ made. made.items) first list.now
        functions.old functions.new result }
{
    if functions.len() == 1 {
        return take_in_turn::<F, X, T>(alloc, first, list, &mut functions[0]);
    }
    let few = functions.len() / 2;
    let at = run_end(list.len(), size, few, functions.len());
    let (front, back) = list.split_at(at);
    let (low, high) = functions.split_at_mut(few);
    take_both::<R, F, X, T>(
        alloc,
        rt,
        size,
        first,
        front,
        low,
        first + at as u32,
        back,
        high,
    )
}

/// Works on two runs at once, each by functions of its own.
#[cycle(spread)]
fn take_both<R: Threads + Sync, F: ItemFn, X: Send + Drop, T: Taking<X>>(
    alloc: Global,
    rt: &R,
    size: usize,
    first: u32,
    front: &[Bytes],
    low: &mut [F],
    second: u32,
    back: &[Bytes],
    high: &mut [F],
) -> Result<Vec<X>, InPlaceFault>
    requires front { IsReady F.value size first front.now low.old }
    requires back { IsReady F.value size second back.now high.old }
    ensures { BothTaken F.value F.called T.taken (λ made. made.items) first front.now low.old low.new
        second back.now high.old high.new result }
{
    // The borrow checker doesn't cover two closures that share a number beside a list.
    let back_size = size;
    let mut take_front = || -> Result<Vec<X>, InPlaceFault>
        requires { IsSync R.row × IsSend F.row × IsSend X.row × IsSend T.row
            × IsReady F.value size first front.now low.now }
        ensures { TakesTogether F.value F.called T.taken (λ made. made.items) first front.entry.now
            low.entry.now low.exit.now result }
    { take_together::<R, F, X, T>(alloc, rt, size, first, front, low) };
    let mut take_back = || -> Result<Vec<X>, InPlaceFault>
        requires { IsSync R.row × IsSend F.row × IsSend X.row × IsSend T.row
            × IsReady F.value back_size second back.now high.now }
        ensures { TakesTogether F.value F.called T.taken (λ made. made.items) second back.entry.now
            high.entry.now high.exit.now result }
    { take_together::<R, F, X, T>(alloc, rt, back_size, second, back, high) };
    let (a, b) = join_mut(rt, &mut take_front, &mut take_back);
    appended(a, b)
}
