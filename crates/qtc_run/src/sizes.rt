ghost use Rattle.std.specs.Prelude.{◌≡◌, ◌≤◌, ◌==◌, ◌*◌, length, map};
ghost use Rattle.std.specs.List.{count_by};
ghost use Rattle.qtc_base.specs.Limits.{most_sources};
ghost use Rattle.qtc_base.specs.Lines.{lines};
ghost use Rattle.qtc_run.specs.Laws.{tail_count};
ghost use Rattle.qtc_run.specs.Loaded.{HasAll, most_text};
ghost use Rattle.qtc_run.specs.Sources.{items_of, names_of, pieces_of, text_of};
ghost use Rattle.qtc_job_file.specs.Laws.{IsSized};
ghost use Rattle.qtc_run.specs.Sums.{IsSizeOf};

use crate::Loaded;
use qtc_base::Bytes;
use qtc_job_file::Input;

/// How many items there are, and how many bytes they have together.
#[derive(Clone, Copy)]
pub struct Size {
    pub items: u64,
    pub bytes: u64,
}

/// The bytes that are counted at once: so few that one byte holds their count, so that the test of many bytes is one step
/// of the processor.
const BLOCK: usize = 128;

/// How many LF a block has.
fn block_feeds(block: &[u8]) -> u8
    requires { length block.now ≤ 128 }
    ensures { result ≡ count_by (λ byte. byte == 10) block.now }
{
    let mut count = 0;
    for byte in block {
        count += (*byte == b'\n') as u8;
    }
    count
}

/// How many LF a text has.
fn feed_count(text: &[u8]) -> u64
    ensures count { result ≡ count_by (λ byte. byte == 10) text.now }
    ensures few { result ≤ length text.now }
{
    let mut count = 0;
    let mut rest = text;
    while !rest.is_empty() {
        let (block, others) = rest.split_at(BLOCK.min(rest.len()));
        count += u64::from(block_feeds(block));
        rest = others;
    }
    count
}

/// 1 where a last line has no LF.
fn last_count(text: &[u8]) -> u64
    ensures { result ≡ tail_count text.now }
{
    match text {
        [.., last] if *last != b'\n' => 1,
        _ => 0,
    }
}

/// The size of the lines of a text.
fn line_size(text: &[u8]) -> Size
    requires { length text.now ≤ most_text }
    ensures size { IsSizeOf (lines text.now) result }
    ensures small { (result.items ≤ most_text) × (result.bytes ≤ most_text) }
{
    let feeds = feed_count(text);
    Size {
        items: feeds + last_count(text),
        bytes: text.len() as u64 - feeds,
    }
}

/// The size of whole texts.
fn file_size(names: &[Bytes], loaded: &Loaded) -> Size
    requires named { HasAll loaded.now names.now }
    requires few { length names.now ≤ most_sources }
    ensures size { IsSizeOf (map (text_of loaded.now) names.now) result }
    ensures small { (result.items ≤ most_text) × (result.bytes ≤ most_sources * most_text) }
{
    let mut bytes = 0;
    for name in names {
        bytes += loaded.text(name.as_slice()).len() as u64;
    }
    Size {
        items: names.len() as u64,
        bytes,
    }
}

/// The size of the pieces of a text.
fn piece_size(text: &[u8], size: u32) -> Size
    requires some { 1 ≤ size }
    requires short { length text.now ≤ most_text }
    ensures size { IsSizeOf (pieces_of size text.now) result }
    ensures small { (result.items ≤ most_text) × (result.bytes ≤ most_text) }
{
    let size = size as usize;
    Size {
        items: ((text.len() + (size - 1)) / size) as u64,
        bytes: text.len() as u64,
    }
}

/// The size of the items of an input, from the lengths of the texts alone.
pub fn size_of(input: &Input, loaded: &Loaded) -> Size
    requires named { HasAll loaded.now (names_of input.now) }
    requires sized { IsSized input.now }
    ensures size { IsSizeOf (items_of loaded.now input.now) result }
    ensures small { (result.items ≤ most_text) × (result.bytes ≤ most_sources * most_text) }
{
    match input {
        Input::Lines(name) => line_size(loaded.text(name.as_slice())),
        Input::Files(names) => file_size(names.as_slice(), loaded),
        Input::Pieces(size, name) => piece_size(loaded.text(name.as_slice()), *size),
        Input::Job(_) | Input::All(_) | Input::Any(_) => Size { items: 0, bytes: 0 },
    }
}
