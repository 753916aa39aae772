//! What stands behind the lock of a shared future.
ghost use Rattle.std.specs.Prelude.{◌≡◌, ◌+◌, ◌<◌, ◌≤◌, MatchOption};
ghost use Rattle.std.specs.Borrow.{ftrue};
ghost use Rattle.atomic_table.specs.Seated.{TableId, table_id_coded};
ghost use Rattle.qtc_shared.specs.Parts.{Terms};
ghost use Rattle.qtc_base.specs.Limits.{most_passes};

use crate::rule::View;
use atomic_table::Seat;
use qtc_base::Value;
use qtc_future::FutureCore;
use qtc_lock::{Keyed, Names};
use std::marker::{Brand, Model};

/// How many passes are ever made of one future.
pub const MOST_PASSES: u32 = 65_536;

/// How many passes were made. The next pass has that number.
#[derive(Clone, Copy)]
pub struct Made {
    pub count: u32,
    ghost few: { count ≤ most_passes },
}

impl Made {
    /// The number of a new pass: None exactly where all were made.
    pub fn next(&mut self) -> Option<u32>
        ensures { MatchOption result
            ((self.old.count ≡ most_passes) × (self.new ≡ self.old))
            (λ number. (number ≡ self.old.count) × (number < most_passes) × (self.new.count ≡ number + 1)) }
    {
        let number = self.count;
        if number == MOST_PASSES {
            return None;
        }
        self.count = number + 1;
        Some(number)
    }
}

/// The core with the book's seat, and how many passes were made. The core is in a box, so that a hold moves a pointer.
#[derive(Drop)]
pub struct Guarded<V> {
    pub core: Box<FutureCore<V>>,
    pub made: Made,
    pub seat: Seat<(), View<V>>,
}

/// Which future a book is of. No value of it is made.
pub struct FutureKey {
    pub ghost table: { TableId } by { table_id_coded },
    pub ghost terms: { Terms },
}

impl Model for FutureKey {
    ghost also_owns = { λ _. ftrue };
}

impl Names<FutureKey> for Brand {
    ghost use Rattle.std.specs.Prelude.{false};
    ghost use Rattle.qtc_lock.specs.Lock.{no_table};
    ghost use Rattle.qtc_shared.specs.Rule.{no_terms};

    ghost key = { record { table = no_table; terms = no_terms } };

    ghost named = { false };
}

impl<V: Value> Keyed for Guarded<V> {
    ghost use Rattle.qtc_shared.specs.Inside.{fits_key};

    type Key = FutureKey;

    ghost fits = { fits_key };
}
