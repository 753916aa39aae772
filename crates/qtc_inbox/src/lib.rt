//! Reports of many workers that go through a queue: pieces of a counter, each with the values that are kept of its
//! range.
//!
//! - `Line::new` gives the queue and one place at it, which has every part of the right to know the whole. `Line::part`
//!   takes a place with one part off another.
//! - `push` puts an entry at the back and `pop` takes the front one, each in one step.
//! - `absorb` takes a place in again. Who has every part knows that what was put was taken or is left, each once.
//!
//! All places belong to the line that made them, and contracts see which that is.
#![tactic(auto)]

mod board;
mod close;
mod ending;
mod entry;
mod inbox;
mod inbox_pass;
mod line;
mod place;
mod posted;
mod posts;
mod reports;
mod rule;

pub use entry::{Cell, Entry};
pub use inbox::Inbox;
pub use inbox_pass::InboxPass;
pub use line::Line;
pub use place::Place;
pub use posted::Posted;
pub use rule::Table;
