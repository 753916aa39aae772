//! Where pieces and seats come back.
ghost use Rattle.std.specs.Prelude.{◌≡◌, ◌∷◌, [], ◌++◌, true, Some, None, IfSome, IfNone, IsSome};
ghost use Rattle.qtc_claim.specs.Claims.{Addition};
ghost use Rattle.qtc_claim.specs.Counter.{IsGathered};

use crate::rule::{Lends, View};
use crate::{Counter, Piece, Receipt, Seat, Token};
use atomic_table as table;
use std::marker::Model;

/// What was gathered of a counter: pieces, and at last the seats. It stands behind a lock of the layer above.
///
/// Contracts see which counter it is of, the gathered pieces' additions and the gathered workers, both in order, the
/// receipts that it keeps, and what the token is lent for, while it is out.
#[derive(Drop)]
pub struct Tally {
    pub(crate) seat: table::Seat<(), View>,
    pub(crate) gathered: u64,
    pub(crate) blank: u64,
    pub(crate) seats: u32,
    pub(crate) is_lent: bool,
}

impl Model for Tally {
    ghost use Rattle.qtc_claim.specs.Counter.{TallyState};

    ghost Value = { TallyState };

    ghost use Rattle.qtc_claim.specs.Inside.{tally_state, IsTally};

    ghost view = { tally_state };

    ghost invariant = { IsTally };
}

impl Tally {
    /// Takes a piece in, and gives its receipt, which may be dropped. No two pieces of a counter have an index in common.
    pub fn gather(&mut self, counter: &Counter, piece: Piece) -> Receipt
        requires of { self.old.of ≡ counter.now }
        requires piece { piece.of ≡ counter.now }
        ensures pieces { self.new ≡ record self.old { pieces = self.old.pieces ++ piece.addition ∷ [] } }
        ensures receipt { result ≡ record { of = counter.now; addition = piece.addition } }
        ensures apart { IsGathered counter.now self.new }
    {
        let Piece {
            seat,
            range: _,
            size,
        } = piece;
        counter.join(&mut self.seat, seat);
        self.gathered += size as u64;
        Receipt {
            seat: counter.mark(&mut self.seat),
        }
    }

    /// Takes a worker's seat in, at the end of its work. What the gathered workers claimed meets nowhere.
    pub fn gather_seat(&mut self, counter: &Counter, seat: Seat)
        requires of { self.old.of ≡ counter.now }
        requires seat { seat.of ≡ counter.now }
        ensures workers { self.new ≡ record self.old { workers = self.old.workers ++ seat.worker ∷ [] } }
        ensures apart { IsGathered counter.now self.new }
    {
        let Seat {
            seat,
            claimed: _,
            blank,
        } = seat;
        counter.join(&mut self.seat, seat);
        self.blank += blank;
        self.seats += 1;
    }

    /// Keeps a receipt, until `release` gives it back. What `Counter::end` tells of receipts is of those that it keeps.
    pub fn keep(&mut self, counter: &Counter, receipt: Receipt)
        requires of { self.old.of ≡ counter.now }
        requires receipt { receipt.of ≡ counter.now }
        ensures { self.new ≡ record self.old { kept = self.old.kept ++ receipt.addition ∷ [] } }
    {
        let Receipt { seat } = receipt;
        counter.join(&mut self.seat, seat);
    }

    /// Gives back the one receipt that it keeps.
    pub fn release(&mut self, counter: &Counter) -> Receipt
        requires of { self.old.of ≡ counter.now }
        requires one { (addition : Addition) × (self.old.kept ≡ addition ∷ []) }
        ensures kept { self.new ≡ record self.old { kept = [] } }
        ensures receipt { (result.of ≡ counter.now) × (result.addition ∷ [] ≡ self.old.kept) }
    {
        Receipt {
            seat: counter.release(&mut self.seat),
        }
    }

    /// Lends the token, for what `N` names. None where it is out.
    pub fn take_token<N: Lends>(&mut self, counter: &Counter) -> Option<Token>
        requires of { self.old.of ≡ counter.now }
        requires named { N.named ≡ true }
        ensures lent { IfSome result (λ token. (self.old.lent ≡ None)
            × (token ≡ record { of = counter.now; loan = N.loan })
            × (self.new ≡ record self.old { lent = Some N.loan })) }
        ensures none { IfNone result (IsSome self.old.lent × (self.new ≡ self.old)) }
    {
        if self.is_lent {
            return None;
        }
        self.is_lent = true;
        Some(Token {
            seat: counter.lend::<N>(&mut self.seat),
        })
    }

    /// Takes the token back. It was out, for what it says.
    pub fn put_token(&mut self, counter: &Counter, token: Token)
        requires of { self.old.of ≡ counter.now }
        requires token { token.of ≡ counter.now }
        ensures lent { self.old.lent ≡ Some token.loan }
        ensures home { self.new ≡ record self.old { lent = None } }
    {
        let Token { seat } = token;
        counter.bring_home(&mut self.seat, seat);
        self.is_lent = false;
    }
}
