//! What a claim gives.
ghost use Rattle.std.specs.Prelude.{◌≡◌};
ghost use Rattle.qtc_claim.specs.Claims.{clipped};

use crate::rule::View;
use atomic_table as table;
use qtc_base::Range;
use std::marker::Model;

/// A range of indexes that one claim gave, and no other gives. A tally gathers it.
///
/// Contracts see which counter it is of, and the addition that gave it.
#[derive(Drop)]
pub struct Piece {
    pub(crate) seat: table::Seat<(), View>,
    pub(crate) range: Range,
    pub(crate) size: u32,
}

impl Model for Piece {
    ghost use Rattle.qtc_claim.specs.Counter.{PieceState};

    ghost Value = { PieceState };

    ghost use Rattle.qtc_claim.specs.Inside.{piece_state, IsPiece};

    ghost view = { piece_state };

    ghost invariant = { IsPiece };
}

impl Piece {
    /// The indexes to work on: those of the addition that are below n.
    pub fn range(&self) -> Range
        ensures { (result.begin, result.end) ≡ clipped self.now.of.n self.now.addition }
    {
        self.range
    }
}
