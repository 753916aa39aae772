//! The calls of a future, its flags and its events, as one table of calls. A future, a watcher or a log of
//! calls can be built on it without any thread.
#![tactic(auto)]

mod calls;
mod entries;
mod events;
mod flags;
mod journals;
mod laws;
mod thresholds;

pub use calls::Call;
pub use entries::{Entry, Reached};
pub use events::{Event, event_text, replay};
pub use flags::Flags;
pub use journals::{flags_after, flags_of};
pub use laws::{
    ends_are_ends, flags_have_words, flags_stay, journals_end, replay_names_standing,
    start_keeps_suspension, suspension_is_one, thresholds_act, words_are_flags,
};
pub use thresholds::{Thresholds, accounted_after, accounted_of};
