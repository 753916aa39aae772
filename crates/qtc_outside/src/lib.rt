//! The outside as the engine sees it: texts to read, sinks to write to, and a gate before each item.
#![tactic(auto)]

mod fault_plan;
mod file_texts;
mod loading;
mod mem_sink;
mod mem_texts;
mod shelf;
mod std_sink;
mod sure_sink;
mod sure_texts;
mod traits;
mod writing;

pub use file_texts::FileTexts;
pub use loading::{LoadFault, read_text};
pub use mem_sink::MemSink;
pub use mem_texts::MemTexts;
pub use std_sink::StdSink;
pub use sure_sink::SureSink;
pub use sure_texts::SureTexts;
pub use traits::{Failed, Gate, NoGate, Sink, Texts};
pub use writing::{WriteFault, write_all};
