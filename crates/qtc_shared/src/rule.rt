//! The rule of a shared future's table, and the steps on it.
ghost use Rattle.std.specs.Prelude.{List};
ghost use Rattle.std.specs.Borrow.{ftrue};
ghost use Rattle.qtc_future.specs.Future.{Logged};
ghost use Rattle.qtc_shared.specs.Parts.{Terms, PassPart, BookPart};

use atomic_table::{Join, Play, Split, TableRule};
use qtc_future::FutureCore;
use std::marker::{Brand, Model, PhantomData};

/// What the table is told when it is made: the core whose journal it begins with, and how many passes may report.
#[derive(Drop)]
pub struct Opening<V> {
    pub core: FutureCore<V>,
    pub makers: u32,
}

/// What a seat at the table knows. No value of it is made.
///
/// One shape serves all: a seat is the passes and the books that its view has.
pub struct View<V> {
    marker: PhantomData<V>,
    pub ghost terms: { Terms },
    pub ghost passes: { List (PassPart V) },
    pub ghost books: { List (BookPart V) },
}

impl<V> Model for View<V> {
    ghost also_owns = { λ _. ftrue };
}

pub struct FutureRule;

impl<V> TableRule<(), View<V>, Opening<V>> for FutureRule {
    ghost use Rattle.qtc_shared.specs.Rule.{IsKept, first_view};

    ghost holds = { IsKept };

    ghost first = { first_view };
}

/// A pass loads the flags.
pub struct Look;

impl<V> Play<(), View<V>> for Look {
    ghost use Rattle.std.specs.Prelude.{◌≡◌, []};
    ghost use Rattle.qtc_shared.specs.Rule.{Looks};

    ghost then = { λ _ before found after. (after.1 ≡ []) × Looks before.0 found after.0 };
}

/// The book loads the flags, with the pass that is lent to it.
pub struct Meet;

impl<V> Play<(), View<V>> for Meet {
    ghost use Rattle.std.specs.Prelude.{◌≡◌, []};
    ghost use Rattle.qtc_shared.specs.Rule.{Meets};

    ghost then = { λ _ before found after. (after.1 ≡ []) × Meets before.0 found after.0 };
}

/// Names a journal, at a call in which the table comes to it.
pub trait Names<V> {
    ghost journal: { List (Logged V) };
}

impl<V> Names<V> for Brand {
    ghost use Rattle.std.specs.Prelude.{[]};

    ghost journal = { [] };
}

/// The book stores the flags of the journal that `N` names, with the pass that is lent to it.
pub struct Enter<N> {
    marker: PhantomData<N>,
}

impl<V, N: Names<V>> Play<(), View<V>> for Enter<N> {
    ghost use Rattle.std.specs.Prelude.{◌≡◌, []};
    ghost use Rattle.qtc_shared.specs.Rule.{Enters};

    ghost then = { λ _ before _ after. (after.1 ≡ []) × Enters N.journal before.0 after.0 };
}

/// A pass and the book become one seat.
pub struct Lend;

impl<V> Join<View<V>> for Lend {
    ghost use Rattle.qtc_shared.specs.Rule.{lent, nothing, no_terms};

    ghost both = { lent };

    ghost spent = { nothing no_terms };
}

/// The pass and the book become two seats again.
pub struct HandBack;

impl<V> Split<View<V>> for HandBack {
    ghost use Rattle.qtc_shared.specs.Rule.{pass_only, book_only};

    ghost left = { pass_only };

    ghost right = { book_only };
}

/// The book makes a pass.
pub struct Make;

impl<V> Split<View<V>> for Make {
    ghost use Rattle.qtc_shared.specs.Rule.{counted_on, made_from};

    ghost left = { counted_on };

    ghost right = { made_from };
}
