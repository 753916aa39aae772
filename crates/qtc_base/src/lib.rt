//! What every crate of the engine stands on: lists, items and texts, with want of memory as an answer.
#![tactic(auto)]

mod byte_string;
mod decimals;
mod escaping;
mod item_list;
mod laws;
mod limits;
mod line_cut;
mod lists;
mod memory;
mod ranges;
mod values;
mod word_cut;

pub use byte_string::Bytes;
pub use decimals::{decimal, read_decimal};
pub use escaping::escape;
pub use item_list::{Items, PushFault};
pub use laws::{
    decimals_spell_their_number, digits_count_by_place, escapes_are_one_line,
    escapes_are_read_once, lines_are_cut_at_line_feeds, lines_are_the_only_cut,
    words_are_maximal_runs,
};
pub use limits::{MOST_BYTES, MOST_ITEMS, limits_are_as_told};
pub use line_cut::{Lines, line_parts};
pub use lists::List;
pub use memory::NoMemory;
pub use ranges::Range;
pub use values::Value;
pub use word_cut::Words;
