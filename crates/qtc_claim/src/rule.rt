//! The rule of a counter's table, and the steps on it.
ghost use Rattle.std.specs.Prelude.{ℕ, List};
ghost use Rattle.std.specs.Borrow.{ftrue};
ghost use Rattle.qtc_claim.specs.Claims.{Addition, Book, Loan, Worker, addition_at};
ghost use Rattle.std.specs.Prelude.{Bool, false, []};

use atomic_table::{Join, Play, Split, TableRule};
use std::marker::{Brand, Model, PhantomData};

/// What the table is told when it is made: how many indexes there are, and for how many workers.
#[derive(Clone, Copy)]
pub struct Limits {
    pub n: u32,
    pub workers: u32,
}

/// What a seat at the table knows. No value of it is made.
///
/// One shape serves workers, pieces, receipts, tokens and the tally: what a seat is shows in what its view has.
pub struct View {
    pub ghost n: { ℕ },
    pub ghost most: { ℕ },
    pub ghost next: { ℕ },
    pub ghost unmade: { ℕ },
    pub ghost workers: { List Worker },
    pub ghost held: { List Addition },
    pub ghost receipts: { List Addition },
    pub ghost tokens: { List Loan },
    pub ghost books: { List Book },
}

impl Model for View {
    ghost also_owns = { λ _. ftrue };
}

pub struct Law;

impl TableRule<(), View, Limits> for Law {
    ghost use Rattle.qtc_claim.specs.Rule.{IsKept, first_view};

    ghost holds = { IsKept };

    ghost first = { first_view };
}

/// A worker loads the counter.
pub struct Look;

impl Play<(), View> for Look {
    ghost use Rattle.qtc_claim.specs.Rule.{Looks};
    ghost use Rattle.std.specs.Prelude.{◌≡◌, []};

    ghost then = { λ _ before found after. (after.1 ≡ []) × Looks before.0 found after.0 };
}

/// A worker adds to the counter.
pub struct Add;

impl Play<(), View> for Add {
    ghost use Rattle.qtc_claim.specs.Rule.{Grows};
    ghost use Rattle.std.specs.Prelude.{◌≡◌, []};

    ghost then = { λ step before found after. (after.1 ≡ []) × Grows step.first before.0 found after.0 };
}

/// The tally loads the counter.
pub struct Read;

impl Play<(), View> for Read {
    ghost use Rattle.qtc_claim.specs.Rule.{Reads};
    ghost use Rattle.std.specs.Prelude.{◌≡◌, []};

    ghost then = { λ _ before found after. (after.1 ≡ []) × Reads before.0 found after.0 };
}

/// The tally gives a new worker the next number.
pub struct Make;

impl Split<View> for Make {
    ghost use Rattle.qtc_claim.specs.Rule.{left_to_make, made};

    ghost left = { left_to_make };

    ghost right = { made };
}

/// A worker gives the range in hand away, as a piece.
pub struct Cut;

impl Split<View> for Cut {
    ghost use Rattle.qtc_claim.specs.Rule.{empty_handed, cut};

    ghost left = { empty_handed };

    ghost right = { cut };
}

/// The tally takes in a piece, a worker with none in hand, or a receipt that it keeps.
pub struct Gather;

impl Join<View> for Gather {
    ghost use Rattle.qtc_claim.specs.Rule.{gathered, spent_view};

    ghost both = { gathered };

    ghost spent = { spent_view };
}

/// The tally gives the receipt of what it gathered last.
pub struct Mark;

impl Split<View> for Mark {
    ghost use Rattle.qtc_claim.specs.Rule.{last_marked, last_receipt};

    ghost left = { last_marked };

    ghost right = { last_receipt };
}

/// The tally gives a receipt back that it kept.
pub struct Release;

impl Split<View> for Release {
    ghost use Rattle.qtc_claim.specs.Rule.{receipts_of, without_receipts};

    ghost left = { without_receipts };

    ghost right = { receipts_of };
}

/// A worker takes a receipt in.
pub struct Settle;

impl Join<View> for Settle {
    ghost use Rattle.qtc_claim.specs.Rule.{settling, spent_view};

    ghost both = { settling };

    ghost spent = { spent_view };
}

/// Names what a token is lent for, at the call that lends it.
pub trait Lends {
    ghost loan: { Loan };

    /// That the caller picked it. `Brand` says no, and `Tally::take_token` requires it.
    ghost named: { Bool };
}

impl Lends for Brand {
    ghost loan = { record { note = []; due = addition_at 0 0 } };

    ghost named = { false };
}

/// The tally lends its token, for what `N` names.
pub struct Lend<N> {
    marker: PhantomData<N>,
}

impl<N: Lends> Split<View> for Lend<N> {
    ghost use Rattle.qtc_claim.specs.Rule.{lending, token_for};

    ghost left = { lending N.loan };

    ghost right = { token_for N.loan };
}

/// The token comes home.
pub struct Home;

impl Join<View> for Home {
    ghost use Rattle.qtc_claim.specs.Rule.{back_home, spent_view};

    ghost both = { back_home };

    ghost spent = { spent_view };
}
