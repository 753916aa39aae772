//! The count: one word, which each worker raises as it enters and lowers as it leaves.
ghost use Rattle.std.specs.Prelude.{◌≡◌, ◌≤◌, ◌<◌, ◌++◌, ◌∷◌, [], true, false, IfOk, All, length, count_by};
ghost use Rattle.qtc_active.specs.Count.{IsNew};

use crate::Badge;
use crate::rule::{Begin, Enter, Gather, Law, Leave, Look, LookWithAll, Make, View};
use atomic_table as table;
use qtc_base::NoMemory;
use std::alloc::Global;
use std::marker::Model;

/// How many workers are in, which they share by reference.
#[derive(Drop)]
pub struct ActiveCount {
    table: table::Table<(), View, u32, Law, Global>,
}

impl Model for ActiveCount {
    ghost use Rattle.qtc_active.specs.Count.{CountId};

    ghost Value = { CountId };

    ghost use Rattle.qtc_active.specs.Inside.{count_id, IsCount};

    ghost view = { count_id };

    ghost invariant = { IsCount };
}

impl ActiveCount {
    /// A count at 0, and a badge for each of the workers, all out.
    pub fn new(alloc: Global, workers: u32) -> Result<(ActiveCount, Vec<Badge>), NoMemory>
        ensures { IfOk result (λ made. IsNew workers made.0 made.1.items) }
    {
        let mut badges = Vec::with_capacity(alloc, workers as usize)?;
        let (table, mut maker) = table::Table::of_words(alloc, &[0], &workers)?;
        for _made in 0..workers {
            let seat = table.shared.split_seat::<Make>(&mut maker);
            badges.push_reserved(Badge { seat });
        }
        Ok((ActiveCount { table }, badges))
    }

    /// The worker is in from here on, by one addition to the word.
    pub fn enter(&self, badge: &mut Badge)
        requires of { badge.old.of ≡ self.now }
        requires out { badge.old.is_in ≡ false }
        ensures { badge.new ≡ record badge.old { is_in = true } }
    {
        self.table.shared.fetch_add::<Enter>(&mut badge.seat, 0, 1);
    }

    /// The worker is out from here on, by one subtraction from the word.
    pub fn leave(&self, badge: &mut Badge)
        requires of { badge.old.of ≡ self.now }
        requires inside { badge.old.is_in ≡ true }
        ensures { badge.new ≡ record badge.old { is_in = false } }
    {
        self.table.shared.fetch_sub::<Leave>(&mut badge.seat, 0, 1);
    }

    /// How many workers are in, by one load. It counts the worker of this badge where that is in, and leaves it out
    /// where it is out.
    pub fn count(&self, badge: &mut Badge) -> u32
        requires { badge.old.of ≡ self.now }
        ensures load { badge.new ≡ record badge.old { seen = badge.old.seen ++ result ∷ [] } }
        ensures most { result ≤ self.now.workers }
        ensures inside { badge.old.is_in ≡ true → 1 ≤ result }
        ensures out { badge.old.is_in ≡ false → result < self.now.workers }
    {
        self.table.shared.load::<Look>(&mut badge.seat, 0) as u32
    }

    /// How many workers are in, for who has badges of this count and gives them back: with the badges of all workers,
    /// just as many as these say.
    pub fn count_all(&self, mut badges: Vec<Badge>) -> u32
        requires { All (λ badge. badge.of ≡ self.now) badges.items }
        ensures least { count_by (λ badge. badge.is_in) badges.items ≤ result }
        ensures most { result ≤ self.now.workers }
        ensures all { length badges.items ≡ self.now.workers → result ≡ count_by (λ badge. badge.is_in) badges.items }
    {
        let (_, mut gatherer) = self.table.shared.load_new_seat::<Begin>(0);
        while let Some(badge) = badges.pop() {
            let Badge { seat } = badge;
            self.table.shared.join_seat::<Gather>(&mut gatherer, seat);
        }
        self.table.shared.load::<LookWithAll>(&mut gatherer, 0) as u32
    }
}
