//! The rule of a line, and the steps on it.
ghost use Rattle.std.specs.Prelude.{ℕ, Bool, List};
ghost use Rattle.std.specs.Borrow.{ftrue};
ghost use Rattle.qtc_inbox.specs.declared.entry.Cell.{Cell};
ghost use Rattle.qtc_inbox.specs.Parts.{LineKey, Numbered};

use crate::entry::Entry;
use crossbeam_queue::protocol::{Join, Lesson, Outcome, Protocol, Split};
use std::marker::{Brand, Model, PhantomData};

/// What a place at a line knows. No value of it is made.
///
/// One shape serves all: how many parts of the whole it has, what it put and what it took.
pub struct View<V> {
    marker: PhantomData<V>,
    pub ghost key: { LineKey V },
    pub ghost parts: { ℕ },
    pub ghost put: { List (Numbered V) },
    pub ghost taken: { List (Numbered V) },
}

impl<V> Model for View<V> {
    ghost also_owns = { λ _. ftrue };
}

pub struct Law;

impl<V> Protocol<Entry<V>, View<V>> for Law {
    ghost use Rattle.qtc_inbox.specs.Rule.{IsKept, first_view};

    ghost holds = { IsKept };

    ghost first = { first_view };
}

/// An entry goes to the back.
pub struct Put;

impl<V> Outcome<Entry<V>, View<V>> for Put {
    ghost use Rattle.qtc_inbox.specs.Rule.{Puts};

    ghost then = { Puts };
}

impl<V> Lesson<Entry<V>, View<V>> for Put {
    ghost use Rattle.qtc_inbox.specs.Rule.{Knows};

    ghost fact = { Knows };
}

/// The front entry is taken.
pub struct Take;

impl<V> Outcome<Entry<V>, View<V>> for Take {
    ghost use Rattle.qtc_inbox.specs.Rule.{Takes};

    ghost then = { Takes };
}

impl<V> Lesson<Entry<V>, View<V>> for Take {
    ghost use Rattle.qtc_inbox.specs.Rule.{Knows};

    ghost fact = { Knows };
}

/// Names the key of a line, at the call that makes it.
pub trait NamesKey<V> {
    ghost key: { LineKey V };
}

impl<V> NamesKey<V> for Brand {
    ghost use Rattle.qtc_inbox.specs.Rule.{no_key};

    ghost key = { no_key };
}

/// The first place comes to have every part of a line with the key that `N` names, of which nothing was put yet.
pub struct Open<N> {
    marker: PhantomData<N>,
}

impl<V, N: NamesKey<V>> Split<View<V>> for Open<N> {
    ghost use Rattle.qtc_inbox.specs.Rule.{opened, spent_view};

    ghost left = { λ _. opened N.key };

    ghost right = { λ _. spent_view };
}

/// One part goes to a new place.
pub struct Part;

impl<V> Split<View<V>> for Part {
    ghost use Rattle.qtc_inbox.specs.Rule.{one_part_less, one_part};

    ghost left = { one_part_less };

    ghost right = { one_part };
}

/// A place takes another in.
pub struct Absorb;

impl<V> Join<View<V>> for Absorb {
    ghost use Rattle.qtc_inbox.specs.Rule.{absorbed, spent_view};

    ghost both = { absorbed };

    ghost spent = { spent_view };
}

/// Names the table of a line at the call that makes it: for each index a value, none, or bad. Contracts alone see it.
pub trait Table<V> {
    ghost cells: { List (Cell V) };

    /// That the maker picked the table. `Brand` doesn't say it, so a maker that picks none gets no line.
    ghost named: { Bool };
}

impl<V> Table<V> for Brand {
    ghost use Rattle.std.specs.Prelude.{[], false};

    ghost cells = { [] };

    ghost named = { false };
}
