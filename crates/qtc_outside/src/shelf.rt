ghost use Rattle.std.specs.Prelude.{◌≡◌, ◌≤◌, ◌<◌, ◌↔◌, [], length, take, drop, min, unwrap_or, Some, IsSome, IsTrue};
ghost use Rattle.qtc_outside.specs.Shelf.{text_under, text_at};
ghost use Rattle.qtc_outside.specs.Source.{GivesNext};

use qtc_base::{Bytes, List};

/// Texts in memory, and how far one of them was read.
#[derive(Drop)]
pub struct Shelf {
    pub texts: List<(Bytes, Bytes)>,
    place: usize,
    given: usize,
}

impl Shelf {
    ghost use Rattle.qtc_outside.specs.ShelfLeft.{left_of};

    pub fn new(texts: List<(Bytes, Bytes)>) -> Shelf
        ensures texts { result.texts ≡ texts }
    {
        Shelf {
            texts,
            place: 0,
            given: 0,
        }
    }

    /// The place of the first text with the name, or the number of texts where there is none.
    fn find(&self, name: &[u8]) -> usize
        ensures text { text_at self.now.texts result ≡ unwrap_or (text_under self.now.texts name.now) [] }
        ensures found { result < length self.now.texts ↔ IsSome (text_under self.now.texts name.now) }
    {
        for (place, pair) in self.texts.as_slice().iter().enumerate() {
            if pair.0.as_slice() == name {
                return place;
            }
        }
        self.texts.len()
    }

    /// Goes to the beginning of the first text with the name, or to the empty text where there is none.
    pub fn open(&mut self, name: &[u8]) -> bool
        ensures found { IsTrue result ↔ IsSome (text_under self.old.texts name.now) }
        ensures rest { left_of self.new ≡ unwrap_or (text_under self.old.texts name.now) [] }
        ensures texts { self.new.texts ≡ self.old.texts }
    {
        self.place = self.find(name);
        self.given = 0;
        self.place < self.texts.len()
    }

    /// The whole text that is read.
    fn text(&self) -> &[u8]
        ensures { result.now ≡ text_at self.now.texts self.now.place }
    {
        match self.texts.as_slice().get(self.place) {
            Some(pair) => pair.1.as_slice(),
            None => &[],
        }
    }

    /// Gives at most `most` of the next bytes.
    pub fn give(&mut self, into: &mut [u8], most: usize) -> usize
        requires most { 1 ≤ most }
        requires room { 0 < length into.old }
        ensures within { result ≤ length into.old }
        ensures next { GivesNext (left_of self.old) into.new result (Some (left_of self.new)) }
        ensures gives { result ≡ min (min (length (left_of self.old)) (length into.old)) most }
        ensures texts { self.new.texts ≡ self.old.texts }
    {
        let text = self.text();
        let given = self.given.min(text.len());
        let count = (text.len() - given).min(into.len()).min(most);
        into[..count].copy_from_slice(&text[given..given + count]);
        self.given = given + count;
        count
    }
}
