//! The flag word of a shared future, and what passes and the book do at it.
ghost use Rattle.std.specs.Prelude.{ℕ, ◌≡◌, ◌<◌, ◌≤◌, ◌+◌, [], ◌∷◌, All, Some, MatchOption, IfNone, IfSome, IfOk, length, slice_get, vec_capacity};
ghost use Rattle.qtc_events.specs.Flags.{flags_in};
ghost use Rattle.qtc_shared.specs.Journals.{Follows, IsOfFirst, Shows, calls_by};
ghost use Rattle.qtc_shared.specs.Parts.{future_at};
ghost use Rattle.qtc_base.specs.Limits.{most_passes};
ghost use Rattle.qtc_shared.specs.Passes.{Meets, IsLook, pass_at};
ghost use Rattle.qtc_shared.specs.Inside.{IsPassSeat, IsBookOf, IsLentSeat, state_of, pass_at_seat, number_in, journal_of};
ghost use Rattle.qtc_shared.specs.Rule.{learned, with_child};

use crate::Pass;
use crate::guarded::{Guarded, Made};
use crate::rule::{Enter, FutureRule, HandBack, Lend, Look, Make, Meet, Names, Opening, View};
use atomic_table::{Seat, Table};
use qtc_base::NoMemory;
use qtc_events::Flags;
use qtc_future::FutureCore;
use std::alloc::Global;
use std::marker::{Brand, Model};
use std::sync::Wait;

/// One word, which shows the flags, and the rule that ties it to the journal.
#[derive(Drop)]
pub struct FlagWord<V> {
    pub table: Table<(), View<V>, Opening<V>, FutureRule, Global>,
}

impl<V> Model for FlagWord<V> {
    ghost use Rattle.qtc_shared.specs.Passes.{FutureId};

    ghost Value = { FutureId };

    ghost use Rattle.qtc_shared.specs.Inside.{word_state, IsWord};

    ghost view = { word_state };

    ghost invariant = { IsWord };
}

/// A book while a pass is lent to it: the pass's seat has the book's part too. `word` is the flag word as it was found.
#[derive(Drop)]
pub struct Lent<V> {
    pub core: Box<FutureCore<V>>,
    pub made: Made,
    pub word: u64,
}

impl<V> FlagWord<V> {
    /// A pass looks at the flags.
    pub fn look(&self, seat: &mut Seat<(), View<V>>) -> Flags
        requires { IsPassSeat self.now (pass_at_seat seat.old) seat.old }
        ensures seat { IsPassSeat self.now (pass_at_seat seat.new) seat.new }
        ensures look { IsLook (state_of self.now (pass_at_seat seat.old))
            (state_of self.now (pass_at_seat seat.new)) (flags_in result.bits) }
    {
        let word = self.table.shared.load::<Look>(seat, 0);
        Flags { bits: word as u32 }
    }

    /// Wakes all who wait for the word to change.
    pub fn wake_all(&self) {
        self.table.shared.wake_all(0);
    }

    /// Waits while the word shows these flags. It may return for no reason.
    pub fn park<R: Wait>(&self, rt: &R, flags: Flags) {
        self.table.shared.park(rt, 0, flags.bits);
    }

    /// Lends a pass to the book, which shows it the journal.
    pub fn lend(&self, book: Guarded<V>, seat: &mut Seat<(), View<V>>) -> Lent<V>
        requires book { IsBookOf self.now book }
        requires pass { IsPassSeat self.now (pass_at_seat seat.old) seat.old }
        ensures core { result.core ≡ book.core }
        ensures made { result.made ≡ book.made }
        ensures seat { IsLentSeat self.now (pass_at_seat seat.old) book.made.count book.core.value.calls seat.new }
        ensures met { Meets (state_of self.now (pass_at_seat seat.old)) book.core.value.calls }
        ensures number { number_in seat.old < book.made.count }
        ensures fresh { calls_by book.made.count book.core.value.calls ≡ [] }
    {
        let Guarded {
            core,
            made,
            seat: book,
        } = book;
        self.table.shared.join_seat::<Lend>(seat, book);
        let word = self.table.shared.load::<Meet>(seat, 0);
        Lent { core, made, word }
    }

    /// The word comes to show the flags of the core again, whose journal may have got a call of the pass that is
    /// lent; then the pass and the book are two again. Says also whether the word changed.
    pub fn enter(&self, lent: Lent<V>, seat: &mut Seat<(), View<V>>) -> (Guarded<V>, bool)
        requires seat { IsLentSeat self.now (pass_at_seat seat.old) lent.made.count (journal_of seat.old) seat.old }
        requires core { lent.core.value ≡ future_at self.now.terms lent.core.value.calls }
        requires call { Follows self.now.terms (number_in seat.old) (journal_of seat.old) lent.core.value.calls }
        ensures book { IsBookOf self.now result.0 }
        ensures core { result.0.core ≡ lent.core }
        ensures seat { IsPassSeat self.now (learned lent.core.value.calls (pass_at_seat seat.old)) seat.new }
    {
        let word = lent.core.flags().bits as u64;
        let changed = word != lent.word;
        self.store::<Brand>(&lent.core, lent.made, word, seat);
        (self.hand_back(lent, seat), changed)
    }

    // Stores the flags of the core.
    fn store<N: Names<V>>(
        &self,
        core: &FutureCore<V>,
        made: Made,
        word: u64,
        seat: &mut Seat<(), View<V>>,
    )
        requires journal { N.journal ≡ core.now.calls }
        requires seat { IsLentSeat self.now (pass_at_seat seat.old) made.count (journal_of seat.old) seat.old }
        requires core { core.now ≡ future_at self.now.terms core.now.calls }
        requires call { Follows self.now.terms (number_in seat.old) (journal_of seat.old) core.now.calls }
        requires word { Shows core.now.calls word }
        ensures { IsLentSeat self.now (pass_at_seat seat.old) made.count core.now.calls seat.new }
    {
        // What a core has is legal.
        let _legal = core.journal();
        self.table.shared.store::<Enter<N>>(seat, 0, word);
    }

    /// The pass that is lent and the book are two again, where the core is as it was.
    pub fn hand_back(&self, lent: Lent<V>, seat: &mut Seat<(), View<V>>) -> Guarded<V>
        requires seat { IsLentSeat self.now (pass_at_seat seat.old) lent.made.count lent.core.value.calls seat.old }
        requires core { lent.core.value ≡ future_at self.now.terms lent.core.value.calls }
        ensures book { IsBookOf self.now result }
        ensures core { result.core ≡ lent.core }
        ensures made { result.made ≡ lent.made }
        ensures seat { IsPassSeat self.now (learned lent.core.value.calls (pass_at_seat seat.old)) seat.new }
    {
        let Lent {
            core,
            made,
            word: _,
        } = lent;
        let seat = self.table.shared.split_seat::<HandBack>(seat);
        Guarded { core, made, seat }
    }

    /// Shows a pass the journal.
    pub fn show(&self, book: Guarded<V>, seat: &mut Seat<(), View<V>>) -> Guarded<V>
        requires book { IsBookOf self.now book }
        requires pass { IsPassSeat self.now (pass_at_seat seat.old) seat.old }
        ensures book { IsBookOf self.now result }
        ensures core { result.core ≡ book.core }
        ensures made { result.made ≡ book.made }
        ensures seat { IsPassSeat self.now (learned book.core.value.calls (pass_at_seat seat.old)) seat.new }
        ensures met { Meets (state_of self.now (pass_at_seat seat.old)) book.core.value.calls }
        ensures number { number_in seat.old < book.made.count }
        ensures fresh { calls_by book.made.count book.core.value.calls ≡ [] }
    {
        let lent = self.lend(book, seat);
        self.hand_back(lent, seat)
    }

    /// Makes the next pass, which knows the journal: a child of the pass that is lent. None exactly where all were
    /// made.
    pub fn make(&self, made: &mut Made, seat: &mut Seat<(), View<V>>) -> Option<Pass<V>>
        requires { IsLentSeat self.now (pass_at_seat seat.old) made.old.count (journal_of seat.old) seat.old }
        ensures none { IfNone result ((made.old.count ≡ most_passes) × (made.new ≡ made.old)) }
        ensures still { IfNone result (seat.new ≡ seat.old) }
        ensures pass { IfSome result (λ pass. (pass ≡ pass_at self.now made.old.count (journal_of seat.old))
            × (made.new.count ≡ made.old.count + 1)) }
        ensures seat { IfSome result (λ _. IsLentSeat self.now (with_child (pass_at_seat seat.old)) made.new.count
            (journal_of seat.old) seat.new) }
    {
        let number = made.next()?;
        let seat = self.table.shared.split_seat::<Make>(seat);
        Some(Pass { seat, number })
    }

    /// Makes one of the first passes, which is the child of none. None exactly where all were made.
    fn make_first(&self, book: &mut Guarded<V>) -> Option<Pass<V>>
        requires { IsBookOf self.now book.old }
        ensures book { IsBookOf self.now book.new }
        ensures core { book.new.core ≡ book.old.core }
        ensures pass { MatchOption result ((book.old.made.count ≡ most_passes) × (book.new.made ≡ book.old.made))
            (λ pass. (pass ≡ pass_at self.now book.old.made.count book.old.core.value.calls)
            × (book.new.made.count ≡ book.old.made.count + 1)) }
    {
        let number = book.made.next()?;
        let seat = self.table.shared.split_seat::<Make>(&mut book.seat);
        Some(Pass { seat, number })
    }

    /// Makes passes until there are so many.
    pub fn hand_out(&self, book: Guarded<V>, handed: &mut Vec<Pass<V>>, passes: u32) -> Guarded<V>
        requires book { IsBookOf self.now book }
        requires passes { (1 ≤ passes) × (passes ≤ most_passes) }
        requires one { book.made.count ≡ 1 }
        requires first { handed.old.items ≡ pass_at self.now 0 book.core.value.calls ∷ [] }
        requires room { passes ≤ vec_capacity handed.old }
        ensures book { IsBookOf self.now result }
        ensures core { result.core ≡ book.core }
        ensures count { length handed.new.items ≡ passes }
        ensures each { (number : ℕ) → number < passes
            → slice_get handed.new.items number ≡ Some (pass_at self.now number book.core.value.calls) }
    {
        let mut book = book;
        for _made in 1..passes {
            let pass = self.make_first(&mut book).unwrap();
            handed.push_reserved(pass);
        }
        book
    }

    /// A word that shows the flags of the core, with the first pass and the book, in which the core is.
    pub fn open(
        alloc: Global,
        core: FutureCore<V>,
        makers: u32,
    ) -> Result<(FlagWord<V>, Pass<V>, Guarded<V>), NoMemory>
    where
        V: Drop,
        requires makers { 0 < makers }
        requires callers { All IsOfFirst core.calls }
        ensures terms { IfOk result (λ made. made.0.terms
            ≡ record { filter = core.filter; thresholds = core.thresholds; makers = makers }) }
        ensures pass { IfOk result (λ made. made.1 ≡ pass_at made.0 0 core.calls) }
        ensures book { IfOk result (λ made. IsBookOf made.0 made.2) }
        ensures core { IfOk result (λ made. made.2.core.value ≡ core) }
        ensures one { IfOk result (λ made. made.2.made.count ≡ 1) }
    {
        // What a core has is legal.
        let _legal = core.journal();
        let word = core.flags().bits as u64;
        let opening = Opening { core, makers };
        let (table, mut seat) = Table::of_words(alloc, &[word], &opening)?;
        let Opening { core, makers: _ } = opening;
        let core = Box::new(alloc, core)?;
        let book = table.shared.split_seat::<HandBack>(&mut seat);
        let book = Guarded {
            core,
            made: Made { count: 1 },
            seat: book,
        };
        Ok((FlagWord { table }, Pass { seat, number: 0 }, book))
    }
}
