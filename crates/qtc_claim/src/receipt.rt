//! What the tally gives for a piece.
use crate::rule::View;
use atomic_table as table;
use std::marker::Model;

/// That one piece was gathered. There is one receipt of each, which the worker that claimed the piece settles.
///
/// Contracts see which counter it is of, and the addition that gave the piece.
#[derive(Drop)]
pub struct Receipt {
    pub(crate) seat: table::Seat<(), View>,
}

impl Model for Receipt {
    ghost use Rattle.qtc_claim.specs.Counter.{ReceiptState};

    ghost Value = { ReceiptState };

    ghost use Rattle.qtc_claim.specs.Inside.{receipt_state, IsReceipt};

    ghost view = { receipt_state };

    ghost invariant = { IsReceipt };
}
