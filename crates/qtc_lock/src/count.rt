//! A number that threads change in single steps and sleep on, of which nothing is claimed.
ghost use Rattle.std.specs.Prelude.{◌≡◌};

use atomic_table::{Play, Table, TableRule};
use std::alloc::Global;
use std::sync::Wait;

/// A rule that says nothing, and steps that tell nothing.
pub struct Free;

impl TableRule<(), (), ()> for Free {
    ghost holds = { λ _ _. Unit {0} };

    ghost first = { λ _. tt };
}

impl Play<(), ()> for Free {
    ghost then = { λ _ _ _ _. Unit {0} };
}

/// A number in a table of its own, which is 0 at first and begins again at 0 after 2^64 - 1.
#[derive(Drop)]
pub struct Count {
    table: Table<(), (), (), Free, Global>,
    ghost sized: { table.shared.table_id.words ≡ 1 },
}

impl Count {
    pub(crate) fn new(alloc: Global) -> Option<Count> {
        let (table, _seat) = Table::of_words(alloc, &[0], &()).ok()?;
        Some(Count { table })
    }

    pub(crate) fn get(&self) -> u64 {
        self.table.shared.peek(0)
    }

    // Each step has a seat of its own, since threads share the count by reference.
    pub(crate) fn raise(&self) {
        let (_, mut seat) = self.table.shared.load_new_seat::<Free>(0);
        self.table.shared.fetch_add::<Free>(&mut seat, 0, 1);
    }

    pub(crate) fn lower(&self) {
        let (_, mut seat) = self.table.shared.load_new_seat::<Free>(0);
        self.table.shared.fetch_sub::<Free>(&mut seat, 0, 1);
    }

    /// Sleeps where the low 32 bits of the number are those given, until a wake or for no reason.
    pub(crate) fn park<R: Wait>(&self, rt: &R, low: u32) {
        self.table.shared.park(rt, 0, low);
    }

    pub(crate) fn wake_all(&self) {
        self.table.shared.wake_all(0);
    }
}
