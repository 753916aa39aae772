//! The rule of a count's table, and the steps on it.
ghost use Rattle.std.specs.Prelude.{ℕ, Bool, List};
ghost use Rattle.std.specs.Borrow.{ftrue};

use atomic_table::{Join, Play, Split, TableRule};
use std::marker::Model;

/// What a seat at the table knows. No value of it is made.
///
/// One shape serves all: a badge's view has one badge, the maker's those that it has still to make, and a gatherer's
/// those that it took in.
pub struct View {
    pub ghost workers: { ℕ },
    pub ghost unmade: { ℕ },
    pub ghost are_in: { List Bool },
    pub ghost seen: { List ℕ },
}

impl Model for View {
    ghost also_owns = { λ _. ftrue };
}

pub struct Law;

impl TableRule<(), View, u32> for Law {
    ghost use Rattle.qtc_active.specs.Rule.{IsKept, first_view};

    ghost holds = { IsKept };

    ghost first = { first_view };
}

/// A worker gets in.
pub struct Enter;

impl Play<(), View> for Enter {
    ghost use Rattle.qtc_active.specs.Rule.{Enters};

    ghost then = { λ _. Enters };
}

/// A worker gets out.
pub struct Leave;

impl Play<(), View> for Leave {
    ghost use Rattle.qtc_active.specs.Rule.{Leaves};

    ghost then = { λ _. Leaves };
}

/// A worker loads the word.
pub struct Look;

impl Play<(), View> for Look {
    ghost use Rattle.qtc_active.specs.Rule.{Looks};

    ghost then = { λ _. Looks };
}

/// A gatherer comes, with no badge so far.
pub struct Begin;

impl Play<(), View> for Begin {
    ghost use Rattle.qtc_active.specs.Rule.{Begins};

    ghost then = { λ _. Begins };
}

/// A gatherer loads the word.
pub struct LookWithAll;

impl Play<(), View> for LookWithAll {
    ghost use Rattle.qtc_active.specs.Rule.{LooksWithAll};

    ghost then = { λ _. LooksWithAll };
}

/// The maker makes a badge.
pub struct Make;

impl Split<View> for Make {
    ghost use Rattle.qtc_active.specs.Rule.{left_to_make, made};

    ghost left = { left_to_make };

    ghost right = { made };
}

/// A gatherer takes a badge in.
pub struct Gather;

impl Join<View> for Gather {
    ghost use Rattle.qtc_active.specs.Rule.{gathered, spent_view};

    ghost both = { gathered };

    ghost spent = { spent_view };
}
