ghost use Rattle.std.specs.Prelude.{◌≡◌, IfOk, length};
ghost use Rattle.qtc_kernel.specs.EngineParts.{desks_with};

use qtc_active::Badge;
use qtc_base::{Bytes, NoMemory};
use qtc_claim::Seat;
use qtc_ops::ItemFn;
use qtc_shared::Pass;
use std::alloc::Global;
use std::marker::Model;

/// What a worker of an engine has to itself: its seat at the counter, its pass of the future, its badge at the count of
/// workers that are in, its function. One worker has it at a time.
///
/// What holds of each desk of an engine, whatever its worker does, is `IsDesk`.
#[derive(Drop)]
pub struct Desk<F> {
    pub(crate) seat: Seat,
    pub(crate) pass: Pass<Bytes>,
    pub(crate) badge: Badge,
    pub(crate) function: F,
    pub(crate) next_size: usize,
    pub(crate) wants_memory: bool,
}

impl<F> Model for Desk<F> {
    ghost use Rattle.qtc_kernel.specs.EngineParts.{DeskState};

    ghost Value = { DeskState F };

    ghost use Rattle.qtc_kernel.specs.Desks.{desk_state};

    ghost view = { desk_state };
}

/// A desk of each seat, pass, badge and function that stand beside each other, in their order.
pub(crate) fn desks_of<F: Drop>(
    alloc: Global,
    mut seats: Vec<Seat>,
    mut passes: Vec<Pass<Bytes>>,
    mut badges: Vec<Badge>,
    mut functions: Vec<F>,
) -> Result<Vec<Desk<F>>, NoMemory>
    requires seats { length seats.items ≡ length functions.items }
    requires passes { length passes.items ≡ length functions.items }
    requires badges { length badges.items ≡ length functions.items }
    ensures { IfOk result (λ desks. desks.items ≡ desks_with seats.items passes.items badges.items functions.items) }
{
    let mut desks = Vec::with_capacity(alloc, functions.len())?;
    while functions.len() > 0 {
        desks.push_reserved(Desk {
            seat: seats.remove(0),
            pass: passes.remove(0),
            badge: badges.remove(0),
            function: functions.remove(0),
            next_size: 0,
            wants_memory: false,
        });
    }
    Ok(desks)
}
