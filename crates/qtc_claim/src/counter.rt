//! The counter: one word, to which workers add.
ghost use Rattle.std.specs.Prelude.{ℕ, ◌≡◌, ◌≤◌, ◌<◌, ◌↔◌, ◌∷◌, [], Some, None, map, All, Contains, IfOk, IfSome, IfNone, IsTrue};
ghost use Rattle.qtc_base.specs.Ranges.{Tiles};
ghost use Rattle.qtc_claim.specs.Claims.{IsWithinLimits, Loan, after_load, after_settle, addition_at, clipped};
ghost use Rattle.qtc_base.specs.Limits.{most_block};
ghost use Rattle.qtc_claim.specs.Rule.{IsUnmarked, back_home, gathered, last_marked, last_receipt, lending, receipt_view, receipts_of, tallies, token_for, token_view, without_receipts};
ghost use Rattle.qtc_claim.specs.Counter.{IsNew, ClaimsPiece, ClaimsNone, Sees, HasAll, IsEnd, IsSettled, KnowsClaims};
ghost use Rattle.qtc_claim.specs.Inside.{IsWorker, worker_of, receipted_of, HasLoaded, HasAdded, of_seat, tally_of, lent_in, loan_of, HasRead, HasSettled};

use crate::rule::{
    Add, Cut, Gather, Home, Law, Lend, Lends, Limits, Look, Make, Mark, Read, Release, Settle, View,
};
use crate::{Piece, Seat, Tally};
use atomic_table as table;
use qtc_base::{NoMemory, Range};
use std::alloc::Global;
use std::marker::Model;

/// A counter of indexes, which workers share by reference and claim ranges from.
#[derive(Drop)]
pub struct Counter {
    pub(crate) table: table::Table<(), View, Limits, Law, Global>,
    pub(crate) limits: Limits,
}

impl Model for Counter {
    ghost use Rattle.qtc_claim.specs.Counter.{CounterId};

    ghost Value = { CounterId };

    ghost use Rattle.qtc_claim.specs.Inside.{counter_id, IsCounter};

    ghost view = { counter_id };

    ghost invariant = { IsCounter };
}

impl Counter {
    /// A counter over the indexes below `n` at 0, a seat for each of the workers, and the tally.
    pub fn new(alloc: Global, n: u32, workers: u32) -> Result<(Counter, Vec<Seat>, Tally), NoMemory>
        requires { IsWithinLimits n workers }
        ensures { IfOk result (λ made. IsNew n workers made.0 made.1.items made.2) }
    {
        let limits = Limits { n, workers };
        let mut seats = Vec::with_capacity(alloc, workers as usize)?;
        let (table, mut tally) = table::Table::of_words(alloc, &[0], &limits)?;
        for _made in 0..workers {
            let seat = table.shared.split_seat::<Make>(&mut tally);
            seats.push_reserved(Seat {
                seat,
                claimed: 0,
                blank: 0,
            });
        }
        let tally = Tally {
            seat: tally,
            gathered: 0,
            blank: 0,
            seats: 0,
            is_lent: false,
        };
        Ok((Counter { table, limits }, seats, tally))
    }

    /// A range of indexes that nobody else gets: of the next `size` ones those below `n`. None where there are none:
    /// exactly where its one load gave `n` or more, or its addition began there.
    ///
    /// It makes one load, at most one addition, and where it gives a piece one load more, whose answer nothing rests
    /// on. It takes no memory, and waits for nobody.
    pub fn claim(&self, seat: &mut Seat, size: u32) -> Option<Piece>
        requires of { seat.old.of ≡ self.now }
        requires size { (1 ≤ size) × (size ≤ most_block) }
        ensures of { seat.new.of ≡ self.now }
        ensures piece { IfSome result (ClaimsPiece self.now size seat.old.worker seat.new.worker) }
        ensures none { IfNone result (ClaimsNone self.now.n size seat.old.worker seat.new.worker) }
        ensures sees { Sees self.now seat.old.worker seat.new.worker }
    {
        let n = self.limits.n as u64;
        if self.look(&mut seat.seat) >= n {
            return None;
        }
        let begin = self.add(&mut seat.seat, size as u64);
        seat.claimed += size as u64;
        if begin >= n {
            seat.blank += size as u64;
            return None;
        }
        Some(self.cut(&mut seat.seat, begin, size))
    }

    /// Whether an index is left, by one load.
    pub fn is_open(&self, seat: &mut Seat) -> bool
        requires { seat.old.of ≡ self.now }
        ensures of { seat.new.of ≡ self.now }
        ensures load { seat.new.worker ≡ after_load seat.new.worker.seen seat.old.worker }
        ensures left { IsTrue result ↔ (seat.new.worker.seen < self.now.n) }
        ensures sees { Sees self.now seat.old.worker seat.new.worker }
    {
        self.look(&mut seat.seat) < self.limits.n as u64
    }

    /// Whether all is claimed and gathered, by one load: true exactly where all seats are gathered, the sizes added
    /// for the gathered pieces and those of the additions that gave none meet the counter, and it is at or past `n`.
    /// So it is where all seats are gathered, each settled what it claimed with a piece, and one saw `n` or more; then
    /// the tally keeps no receipt.
    pub fn end(&self, tally: &mut Tally) -> bool
        requires { tally.old.of ≡ self.now }
        ensures same { tally.new ≡ tally.old }
        ensures end { IsTrue result ↔ IsEnd tally.old }
        ensures tiles { IsTrue result → Tiles (map (clipped self.now.n) tally.old.pieces) self.now.n }
        ensures claims { HasAll tally.old → KnowsClaims tally.old }
        ensures settled { IsSettled tally.old → IsTrue result }
        ensures kept { IsSettled tally.old → tally.old.kept ≡ [] }
    {
        let count = self.read(&mut tally.seat);
        tally.seats == self.limits.workers
            && tally.gathered + tally.blank == count
            && count >= self.limits.n as u64
    }

    // Loads the counter, for a worker.
    fn look(&self, seat: &mut table::Seat<(), View>) -> u64
        requires { IsWorker self.now (worker_of seat.old.me.0) [] seat.old }
        ensures { HasLoaded self.now result seat.old seat.new }
    {
        self.table.shared.load::<Look>(seat, 0)
    }

    // Adds to the counter, for a worker that saw less than `n`.
    fn add(&self, seat: &mut table::Seat<(), View>, size: u64) -> u64
        requires worker { IsWorker self.now (worker_of seat.old.me.0) [] seat.old }
        requires size { size ≤ most_block }
        requires left { (worker_of seat.old.me.0).seen < self.now.n }
        ensures { HasAdded self.now (addition_at result size) seat.old seat.new }
    {
        self.table.shared.fetch_add::<Add>(seat, 0, size)
    }

    // Gives the range in hand away, as a piece.
    fn cut(&self, seat: &mut table::Seat<(), View>, begin: u64, size: u32) -> Piece
        requires worker { IsWorker self.now (worker_of seat.old.me.0) (addition_at begin size ∷ []) seat.old }
        requires below { begin < self.now.n }
        requires size { size ≤ most_block }
        ensures worker { IsWorker self.now (worker_of seat.old.me.0) [] seat.new }
        ensures piece { result ≡ record { of = self.now; addition = addition_at begin size } }
    {
        let piece = self.table.shared.split_seat::<Cut>(seat);
        let end = (begin + size as u64).min(self.limits.n as u64);
        Piece {
            seat: piece,
            range: Range {
                begin: begin as u32,
                end: end as u32,
            },
            size,
        }
    }

    // Loads the counter, for the tally.
    pub(crate) fn read(&self, seat: &mut table::Seat<(), View>) -> u64
        requires of { of_seat seat.old ≡ self.now }
        requires slots { seat.old.me.1 ≡ [] }
        ensures same { (seat.new.table_id ≡ seat.old.table_id) × (seat.new.me ≡ seat.old.me) }
        ensures read { HasRead self.now result (tally_of self.now seat.old) }
        ensures settled { tallies seat.old.me.0 ≡ 1 → HasSettled (tally_of self.now seat.old) }
        ensures books { All (λ book. book.brought ≡ book.awaited) seat.old.me.0.books }
    {
        self.table.shared.load::<Read>(seat, 0)
    }

    // Takes a piece, a worker or a receipt in, for the tally, and tells what it then has.
    pub(crate) fn join(&self, tally: &mut table::Seat<(), View>, other: table::Seat<(), View>)
        requires of { (of_seat tally.old ≡ self.now) × (tally.old.me.1 ≡ []) }
        requires other { (of_seat other ≡ self.now) × (other.me.1 ≡ []) × (other.me.0.unmade ≡ 0) }
        ensures at { tally.new.table_id ≡ tally.old.table_id }
        ensures joined { tally.new.me ≡ (gathered tally.old.me.0 other.me.0, []) }
        ensures read { (count : ℕ) × HasRead self.now count (tally_of self.now tally.new) }
    {
        self.table.shared.join_seat::<Gather>(tally, other);
        self.read(tally);
    }

    // Gives the receipt of what the tally gathered last.
    pub(crate) fn mark(&self, tally: &mut table::Seat<(), View>) -> table::Seat<(), View>
        requires of { (of_seat tally.old ≡ self.now) × (tally.old.me.1 ≡ []) }
        requires unmarked { IsUnmarked tally.old.me.0 }
        ensures at { (tally.new.table_id ≡ tally.old.table_id) × (result.table_id ≡ tally.old.table_id) }
        ensures marked { tally.new.me ≡ (last_marked tally.old.me.0, []) }
        ensures receipt { result.me ≡ (last_receipt tally.old.me.0, []) }
    {
        self.table.shared.split_seat::<Mark>(tally)
    }

    // Gives the receipts back that the tally keeps.
    pub(crate) fn release(&self, tally: &mut table::Seat<(), View>) -> table::Seat<(), View>
        requires of { (of_seat tally.old ≡ self.now) × (tally.old.me.1 ≡ []) }
        ensures at { (tally.new.table_id ≡ tally.old.table_id) × (result.table_id ≡ tally.old.table_id) }
        ensures without { tally.new.me ≡ (without_receipts tally.old.me.0, []) }
        ensures receipts { result.me ≡ (receipts_of tally.old.me.0, []) }
    {
        self.table.shared.split_seat::<Release>(tally)
    }

    // Takes a receipt in, for a worker.
    pub(crate) fn settle(&self, seat: &mut table::Seat<(), View>, receipt: table::Seat<(), View>)
        requires worker { IsWorker self.now (worker_of seat.old.me.0) [] seat.old }
        requires at { of_seat receipt ≡ self.now }
        requires receipt { receipt.me
            ≡ (receipt_view self.now.n self.now.workers (receipted_of receipt.me.0 ∷ []), []) }
        requires claimed { Contains (worker_of seat.old.me.0).claims (receipted_of receipt.me.0) }
        ensures { IsWorker self.now
            (after_settle (receipted_of receipt.me.0 ∷ []) (worker_of seat.old.me.0)) [] seat.new }
    {
        self.table.shared.join_seat::<Settle>(seat, receipt);
    }

    // Lends the token, for the tally.
    pub(crate) fn lend<N: Lends>(&self, tally: &mut table::Seat<(), View>) -> table::Seat<(), View>
        requires of { (of_seat tally.old ≡ self.now) × (tally.old.me.1 ≡ []) }
        requires one { tallies tally.old.me.0 ≡ 1 }
        requires home { lent_in tally.old.me.0.books ≡ None }
        ensures at { (tally.new.table_id ≡ tally.old.table_id) × (result.table_id ≡ tally.old.table_id) }
        ensures lent { tally.new.me ≡ (lending N.loan tally.old.me.0, []) }
        ensures token { result.me ≡ (token_for N.loan tally.old.me.0, []) }
    {
        self.table.shared.split_seat::<Lend<N>>(tally)
    }

    // Takes the token in, for the tally, and tells that it was lent for what it says.
    pub(crate) fn bring_home(&self, tally: &mut table::Seat<(), View>, token: table::Seat<(), View>)
        requires of { (of_seat tally.old ≡ self.now) × (tally.old.me.1 ≡ []) }
        requires one { tallies tally.old.me.0 ≡ 1 }
        requires at { of_seat token ≡ self.now }
        requires token { token.me ≡ (token_view self.now.n self.now.workers (loan_of token.me.0 ∷ []), []) }
        ensures at { tally.new.table_id ≡ tally.old.table_id }
        ensures home { tally.new.me ≡ (back_home tally.old.me.0 token.me.0, []) }
        ensures lent { lent_in tally.old.me.0.books ≡ Some (loan_of token.me.0) }
    {
        self.table.shared.join_seat::<Home>(tally, token);
        self.read(tally);
    }
}
