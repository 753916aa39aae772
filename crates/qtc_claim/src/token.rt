//! What goes with what one worker at a time may have.
use crate::rule::View;
use atomic_table as table;
use std::marker::Model;

/// The one token of a counter. It goes with a value that one worker at a time may have.
///
/// Contracts see which counter it is of, and what it is lent for: a list of texts, its note, and the addition of a piece
/// that is due with it.
#[derive(Drop)]
pub struct Token {
    pub(crate) seat: table::Seat<(), View>,
}

impl Model for Token {
    ghost use Rattle.qtc_claim.specs.Counter.{TokenState};

    ghost Value = { TokenState };

    ghost use Rattle.qtc_claim.specs.Inside.{token_state, IsToken};

    ghost view = { token_state };

    ghost invariant = { IsToken };
}
