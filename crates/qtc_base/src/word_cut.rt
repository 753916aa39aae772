ghost use Rattle.std.specs.Prelude.{◌≡◌, ℕ, ◌≤◌, ◌<◌, List, ◌∷◌, length, take, drop, false, slice_index};
ghost use Rattle.std.specs.Iterator.{YieldsFirstBy, item_count};
ghost use Rattle.qtc_base.specs.Words.{parts as parts_words, words_by};

use std::marker::Model;

/// The words of a text: the maximal runs of bytes that are none of its gaps. Contracts see the gaps, and the
/// bytes that are not cut yet.
#[derive(Drop)]
pub struct Words<'a> {
    gaps: &'a [u8],
    rest: &'a [u8],
}

impl<'a> Model for Words<'a> {
    ghost use Rattle.qtc_base.specs.Words.{Uncut};

    ghost Value = { Uncut };

    ghost view = { λ s. record { gaps = s.gaps.now; rest = s.rest.now } };
}

impl<'a> Words<'a> {
    /// The words of `text`, parted by the bytes of `gaps`.
    pub fn new(gaps: &'a [u8], text: &'a [u8]) -> Words<'a>
        ensures { result ≡ record { gaps = gaps.now; rest = text.now } }
    {
        Words { gaps, rest: text }
    }
}

/// Whether a byte is one of the gaps.
fn is_gap(gaps: &[u8], byte: u8) -> bool
    ensures { result ≡ parts_words gaps.now byte }
{
    gaps.iter().any(|gap| *gap == byte)
}

/// How many gaps stand at the front of a text.
fn gap_len(gaps: &[u8], text: &[u8]) -> usize
    ensures within { result ≤ length text.now }
    ensures same { words_by gaps.now (drop result text.now) ≡ words_by gaps.now text.now }
    ensures stop { result < length text.now → parts_words gaps.now (slice_index text.now result) ≡ false }
{
    for (place, byte) in text.iter().enumerate() {
        if !is_gap(gaps, *byte) {
            return place;
        }
    }
    text.len()
}

/// How long the word at the front is.
fn word_len(gaps: &[u8], text: &[u8]) -> usize
    requires some { 0 < length text.now }
    requires word { parts_words gaps.now (slice_index text.now 0) ≡ false }
    ensures some { 0 < result }
    ensures within { result ≤ length text.now }
    ensures word { words_by gaps.now text.now ≡ take result text.now ∷ words_by gaps.now (drop result text.now) }
{
    for (place, byte) in text.iter().enumerate() {
        if is_gap(gaps, *byte) {
            return place;
        }
    }
    text.len()
}

impl<'a> Iterator for Words<'a> {
    type Item = &'a [u8];

    ghost use Rattle.qtc_base.specs.Words.{words_left};

    ghost next_gives = { YieldsFirstBy (λ word. word.now) words_left };

    ghost remaining = { item_count words_left };

    fn next(&mut self) -> Option<&'a [u8]> {
        let (_, text) = self.rest.split_at(gap_len(self.gaps, self.rest));
        if text.is_empty() {
            self.rest = text;
            return None;
        }
        let (word, after) = text.split_at(word_len(self.gaps, text));
        self.rest = after;
        Some(word)
    }
}

#[cfg(test)]
mod tests {
    use super::*;

    #[test]
    fn texts_are_cut_at_gaps(rt: HostRuntime) {
        for (text, want) in [
            (b"".as_slice(), [].as_slice()),
            (b" \t ", [].as_slice()),
            (b"a", [b"a".as_slice()].as_slice()),
            (b" ab\tc\r  d", [b"ab".as_slice(), b"c\r", b"d"].as_slice()),
        ] {
            let mut words = Words::new(b" \t", text);
            for word in want {
                assert!(rt; words.next() == Some(*word));
            }
            assert!(rt; words.next().is_none());
            assert!(rt; words.next().is_none());
        }
    }
}
