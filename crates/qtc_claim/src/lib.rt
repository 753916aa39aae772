//! Claimed ranges: workers claim ranges of indexes from one atomic word, and what they bring back tiles 0 to n.
//!
//! - `Counter::new` gives a counter over the indexes below `n`, a seat for each worker, and a tally.
//! - A worker calls `claim` on its own seat until it gives None, works on the indexes of each piece, and keeps a list
//!   of its calls and its pieces. Its loop keeps `AreCalls n seat.worker.claims calls`, and `NoneMissing` of what its
//!   pieces added, and nothing that names another worker.
//! - At the end the tally gathers all pieces and all seats, and `Counter::end` says whether nothing is missing.
//!   `calls_come_together` is the law by which the lists of all workers have each index once.
//!
//! All values belong to the counter that made them, and contracts see which that is (`of`). A piece or a seat may be
//! dropped; what was dropped is never gathered, and `end` is then never true.
#![tactic(auto)]

mod counter;
mod laws;
mod piece;
mod receipt;
mod rule;
mod seat;
mod tally;
mod token;

pub use counter::Counter;
pub use laws::calls_come_together;
pub use piece::Piece;
pub use receipt::Receipt;
pub use rule::Lends;
pub use seat::Seat;
pub use tally::Tally;
pub use token::Token;
