ghost use Rattle.std.specs.Prelude.{◌≡◌, ◌≤◌, ◌<◌, ◌+◌, ◌∷◌, List, ℕ, IfOk, drop, length, slice_range};
ghost use Rattle.std.specs.Iterator.{YieldsFirstBy, item_count};
ghost use Rattle.qtc_base.specs.Limits.{most_bytes};
ghost use Rattle.qtc_base.specs.Lines.{lines};
ghost use Rattle.qtc_base.specs.Parts.{AreWithin, parts_of};

use crate::{NoMemory, Range};
use memchr::memchr;
use std::alloc::Global;
use std::marker::Model;

/// The lines of a text, cut at LF, which is left out; a last piece without LF counts where it isn't empty.
/// Contracts see the bytes that are not cut yet.
#[derive(Drop)]
pub struct Lines<'a> {
    rest: &'a [u8],
}

impl<'a> Model for Lines<'a> {
    ghost use Rattle.std.specs.Prelude.{List, ℕ};

    ghost Value = { List ℕ };

    ghost view = { λ s. s.rest.now };
}

impl<'a> Lines<'a> {
    pub fn new(text: &'a [u8]) -> Lines<'a>
        ensures { result ≡ text.now }
    {
        Lines { rest: text }
    }
}

impl<'a> Iterator for Lines<'a> {
    type Item = &'a [u8];

    ghost next_gives = { YieldsFirstBy (λ line. line.now) (λ s. lines s) };

    ghost remaining = { item_count (λ s. lines s) };

    fn next(&mut self) -> Option<&'a [u8]> {
        let text = self.rest;
        if text.is_empty() {
            return None;
        }
        match memchr(b'\n', text) {
            Some(end) => {
                self.rest = &text[end + 1..];
                Some(&text[..end])
            }
            None => {
                self.rest = &[];
                Some(text)
            }
        }
    }
}

/// Where the line ends that begins at `begin`.
fn line_end(text: &[u8], begin: usize) -> usize
    requires { begin < length text.now }
    ensures within { (begin ≤ result) × (result ≤ length text.now) }
    ensures line { lines (drop begin text.now)
        ≡ slice_range text.now begin result ∷ lines (drop (result + 1) text.now) }
{
    match memchr(b'\n', &text[begin..]) {
        Some(len) => begin + len,
        None => text.len(),
    }
}

/// Where the lines of a text lie in it, in order, in a list that is made with room for so many. Err is want of memory.
pub fn line_parts(alloc: Global, text: &[u8], room: usize) -> Result<Vec<Range>, NoMemory>
    requires { length text.now ≤ most_bytes }
    ensures within { IfOk result (λ parts. AreWithin text.now parts.items) }
    ensures lines { IfOk result (λ parts. parts_of text.now parts.items ≡ lines text.now) }
{
    let mut parts = Vec::with_capacity(alloc, room)?;
    let mut begin = 0;
    while begin < text.len() {
        let end = line_end(text, begin);
        parts.push(Range {
            begin: begin as u32,
            end: end as u32,
        })?;
        begin = end + 1;
    }
    Ok(parts)
}

#[cfg(test)]
mod tests {
    use super::*;
    use std::test::Fail;

    #[test]
    fn texts_are_cut_at_line_feeds(rt: HostRuntime) {
        for (text, want) in [
            (b"".as_slice(), [].as_slice()),
            (b"\n", [b"".as_slice()].as_slice()),
            (b"b\na\nc", [b"b".as_slice(), b"a", b"c"].as_slice()),
            (b"x\r\n\ny\n", [b"x\r".as_slice(), b"", b"y"].as_slice()),
        ] {
            let mut lines = Lines::new(text);
            for line in want {
                assert!(rt; lines.next() == Some(*line));
            }
            assert!(rt; lines.next().is_none());
        }
    }

    #[test]
    fn lines_lie_between_line_feeds(rt: HostRuntime) -> Result<(), Fail> {
        for (text, want) in [
            (b"".as_slice(), [].as_slice()),
            (b"\n", [(0, 0)].as_slice()),
            (b"b\na\nc", [(0, 1), (2, 3), (4, 5)].as_slice()),
            (b"x\r\n\ny\n", [(0, 2), (3, 3), (4, 5)].as_slice()),
        ] {
            assert!(rt; text.len() < 10);
            let parts = line_parts(rt.alloc(), text, 1)?;
            assert_eq!(rt; parts.len(), want.len());
            for (part, (begin, end)) in parts.iter().zip(want) {
                assert!(rt; part.begin == *begin && part.end == *end);
            }
        }
        Ok(())
    }
}
