//! A worker's place at a counter.
ghost use Rattle.std.specs.Prelude.{◌≡◌, ◌∷◌, [], Contains};
ghost use Rattle.qtc_claim.specs.Claims.{added, after_settle};

use crate::rule::View;
use crate::{Counter, Receipt};
use atomic_table as table;
use std::marker::Model;

/// A worker's place at a counter: its number, and what it claimed. One worker has it at a time.
///
/// Contracts see which counter it is of, and the worker: its number, how often it loaded the counter, the counter as
/// it last loaded or made it (`seen`), the ranges of all its additions, unclipped and in order (`claims`), and those of
/// them of whose piece it got the receipt (`settled`).
#[derive(Drop)]
pub struct Seat {
    pub(crate) seat: table::Seat<(), View>,
    pub(crate) claimed: u64,
    pub(crate) blank: u64,
}

impl Model for Seat {
    ghost use Rattle.qtc_claim.specs.Counter.{SeatState};

    ghost Value = { SeatState };

    ghost use Rattle.qtc_claim.specs.Inside.{seat_state, IsSeat};

    ghost view = { seat_state };

    ghost invariant = { IsSeat };
}

impl Seat {
    /// The sum of all sizes that it added.
    pub fn claimed(&self) -> u64
        ensures { result ≡ added self.now.worker.claims }
    {
        self.claimed
    }

    /// Takes the receipt of a piece in, which was claimed by this worker. It makes two loads, on which nothing rests.
    pub fn settle(&mut self, counter: &Counter, receipt: Receipt)
        requires of { self.old.of ≡ counter.now }
        requires receipt { receipt.of ≡ counter.now }
        requires claimed { Contains self.old.worker.claims receipt.addition }
        ensures { self.new ≡ record self.old { worker = after_settle (receipt.addition ∷ []) self.old.worker } }
    {
        let Receipt { seat } = receipt;
        counter.settle(&mut self.seat, seat);
    }
}
