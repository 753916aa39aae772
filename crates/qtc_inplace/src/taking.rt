//! Runs of members, of which something is taken.
ghost use Rattle.std.specs.Prelude.{◌≡◌, ◌+◌, ◌<◌, ◌^◌, IfOk, length};
ghost use Rattle.qtc_inplace.specs.Inside.{CallsInTurn, CallsOne, taken_of, TakesOne, TellsBadFrom};

use crate::InPlaceFault;
use crate::takings::Taking;
use qtc_base::Bytes;
use qtc_ops::{ItemFault, ItemFn};
use std::alloc::Global;

/// Calls the function on a member, and appends what is taken of it.
fn take_one<F: ItemFn, X: Drop, T: Taking<X>>(
    function: &mut F,
    index: u32,
    member: &Bytes,
    taken: &mut Vec<X>,
) -> Result<(), InPlaceFault>
    ensures takes { TakesOne T.taken (F.value function.old member.now) index member.now
        taken.old.items taken.new.items result }
    ensures calls { CallsOne (F.called function.old) index (F.called function.new) result }
    ensures value_stays { F.value function.new ≡ F.value function.old }
{
    let text = match function.apply(index, member.as_slice()) {
        Ok(text) => text,
        Err(ItemFault::Bad) => return Err(InPlaceFault::Bad(index)),
        Err(ItemFault::Memory) => return Err(InPlaceFault::Memory),
    };
    match T::take(member, text) {
        Ok(Some(it)) => match taken.push(it) {
            Ok(()) => Ok(()),
            Err(_) => Err(InPlaceFault::Memory),
        },
        Ok(None) => Ok(()),
        Err(_) => Err(InPlaceFault::Memory),
    }
}

/// Calls the function on members by ascending index up to the first bad one, and gives what is taken of them.
pub(crate) fn take_in_turn<F: ItemFn, X: Drop, T: Taking<X>>(
    alloc: Global,
    first: u32,
    members: &[Bytes],
    function: &mut F,
) -> Result<Vec<X>, InPlaceFault>
    requires { first + length members.now < 2 ^ 32 }
    ensures taken { IfOk result (λ taken. taken.items ≡ taken_of T.taken (F.value function.old) members.now) }
    ensures tells { TellsBadFrom first (F.value function.old) members.now result }
    ensures calls { CallsInTurn first (length members.now) (F.called function.old) (F.called function.new) result }
    ensures value_stays { F.value function.new ≡ F.value function.old }
{
    let mut taken = Vec::new(alloc);
    for (offset, member) in members.iter().enumerate() {
        let index = first + offset as u32;
        match take_one::<F, X, T>(function, index, member, &mut taken) {
            Ok(()) => {}
            Err(fault) => return Err(fault),
        }
    }
    Ok(taken)
}
