ghost use Rattle.std.specs.Arc.{arc_value};
ghost use Rattle.std.specs.Prelude.{◌≡◌, ◌≤◌, ◌↔◌, ◌+◌, ◌*◌, [], ◌∷◌, ◌++◌, IfOk, IfSome, None, OnOk, OnErr, IsErrOf, IsTrue, length, slice_get, option_copied, sum_by};
ghost use Rattle.qtc_base.specs.Items.{total_bytes, HasRoom, PassesLimit};
ghost use Rattle.qtc_base.specs.Limits.{most_bytes, most_items};
ghost use Rattle.qtc_base.specs.ItemsInside.{IsOneMore, text_in};
ghost use Rattle.qtc_base.specs.Parts.{AreWithin, part_len, parts_of};

use crate::{Bytes, MOST_BYTES, MOST_ITEMS, NoMemory, Range};
use std::alloc::{AllocError, AllocFailed, Global};
use std::marker::Model;
use std::sync::Arc;

/// Why an item was not taken.
#[derive(Clone, Copy, Debug, PartialEq, Eq)]
pub enum PushFault {
    /// The list would pass `MOST_ITEMS` or `MOST_BYTES`.
    Full,
    /// Want of memory.
    Memory,
}

impl From<AllocError> for PushFault {
    ghost use Rattle.std.specs.Prelude.{◌≡◌};
    ghost use Rattle.qtc_base.specs.declared.item_list.PushFault.TheVariants.{Memory};

    ghost from_gives = { λ _ fault. fault ≡ Memory };

    fn from(_error: AllocError) -> PushFault {
        PushFault::Memory
    }
}

/// The text in which items lie.
fn text_of<'a>(shared: &'a Option<Arc<Bytes>>, own: &'a Vec<u8>) -> &'a [u8]
    ensures { result.now ≡ text_in shared.now own.now.items }
{
    match shared {
        Some(text) => text.as_slice(),
        None => own.as_slice(),
    }
}

/// Copies a shared text into the own one, where there is such. An Err leaves both as they were.
fn take_over(shared: &mut Option<Arc<Bytes>>, own: &mut Vec<u8>) -> Result<(), AllocError>
    requires { IfSome shared.old (λ text. own.old.items ≡ []) }
    ensures ok { OnOk result ((shared.new ≡ None) × (own.new.items ≡ text_in shared.old own.old.items)) }
    ensures err { OnErr result ((shared.new ≡ shared.old) × (own.new.items ≡ own.old.items)) }
{
    if let Some(text) = shared {
        own.extend_from_slice(text.as_slice())?;
    }
    *shared = None;
    Ok(())
}

/// Appends an item to the text, and where it lies to the parts. An Err leaves both as they were.
fn append_item(own: &mut Vec<u8>, parts: &mut Vec<Range>, item: &[u8]) -> Result<(), AllocError>
    requires { length own.old.items + length item.now ≤ 2 * most_bytes }
    ensures own { OnOk result (own.new.items ≡ own.old.items ++ item.now) }
    ensures parts { OnOk result (IsOneMore own.old.items item.now parts.old.items parts.new.items) }
    ensures err { OnErr result ((own.new.items ≡ own.old.items) × (parts.new.items ≡ parts.old.items)) }
{
    let before = own.len();
    own.extend_from_slice(item)?;
    let begin = before as u32;
    let end = own.len() as u32;
    match parts.push(Range { begin, end }) {
        Ok(()) => Ok(()),
        Err(_part) => {
            own.truncate(before);
            Err(AllocError)
        }
    }
}

/// How many bytes the parts have together.
fn total_of(parts: &[Range]) -> usize
    requires { sum_by part_len parts.now ≤ most_bytes }
    ensures { result ≡ sum_by part_len parts.now }
{
    let mut total = 0;
    for part in parts {
        total += (part.end - part.begin) as usize;
    }
    total
}

/// The items of a job. Contracts see a list of byte strings. Items that are pushed lie one after another in a text of the
/// list's own; others are parts of a text that is shared, so that an item costs two numbers beside its bytes.
#[derive(Drop)]
pub struct Items {
    // A shared text, where there is one; the own one is empty then.
    shared: Option<Arc<Bytes>>,
    own: Vec<u8>,
    parts: Vec<Range>,
    // How many bytes the items have together.
    total: usize,
}

impl Model for Items {
    ghost use Rattle.std.specs.Prelude.{List, ℕ};

    ghost Value = { List (List ℕ) };

    ghost use Rattle.qtc_base.specs.ItemsInside.{cut_items, IsCut};

    ghost view = { cut_items };

    ghost invariant = { IsCut };
}

impl Items {
    /// The empty list, which takes no memory yet.
    pub fn new(alloc: Global) -> Items
        ensures { result ≡ [] }
    {
        Items {
            shared: None,
            own: Vec::new(alloc),
            parts: Vec::new(alloc),
            total: 0,
        }
    }

    /// The empty list, with room for so many items and bytes. Err is want of memory.
    pub fn with_capacity(alloc: Global, items: usize, bytes: usize) -> Result<Items, NoMemory>
        ensures { IfOk result (λ list. list ≡ []) }
    {
        let own = Vec::with_capacity(alloc, bytes)?;
        let parts = Vec::with_capacity(alloc, items)?;
        Ok(Items {
            shared: None,
            own,
            parts,
            total: 0,
        })
    }

    /// The parts of a text that others share, in order. No byte is copied.
    pub fn of_parts(alloc: Global, text: Arc<Bytes>, parts: Vec<Range>) -> Items
        requires short { length (arc_value text) ≤ most_bytes }
        requires within { AreWithin (arc_value text) parts.items }
        requires fits { ¬ PassesLimit (parts_of (arc_value text) parts.items) }
        ensures { result ≡ parts_of (arc_value text) parts.items }
    {
        let total = total_of(&parts);
        Items {
            shared: Some(text),
            own: Vec::new(alloc),
            parts,
            total,
        }
    }

    /// Appends a copy of `item`. An Err leaves the list as it was.
    pub fn push(&mut self, item: &[u8]) -> Result<(), PushFault>
        ensures ok { OnOk result (self.new ≡ self.old ++ item.now ∷ []) }
        ensures full { IsErrOf result PushFault.Full ↔ PassesLimit (self.old ++ item.now ∷ []) }
        ensures err { OnErr result (self.new ≡ self.old) }
    {
        if !self.has_room(item.len()) {
            return Err(PushFault::Full);
        }
        take_over(&mut self.shared, &mut self.own)?;
        append_item(&mut self.own, &mut self.parts, item)?;
        self.total += item.len();
        Ok(())
    }

    /// Whether one more item of `len` bytes keeps the limits.
    fn has_room(&self, len: usize) -> bool
        ensures { IsTrue result ↔ HasRoom self.now len }
    {
        self.parts.len() < MOST_ITEMS && len <= MOST_BYTES - self.total
    }

    /// The item at `index`, from 0; None exactly at or past the length.
    pub fn get(&self, index: u32) -> Option<&[u8]>
        ensures { option_copied result ≡ slice_get self.now index }
    {
        let place = index as usize;
        if place >= self.parts.len() {
            return None;
        }
        let part = self.parts[place];
        let text = text_of(&self.shared, &self.own);
        Some(&text[part.begin as usize..part.end as usize])
    }

    /// The number of items.
    pub fn len(&self) -> u32
        ensures { result ≡ length self.now }
    {
        self.parts.len() as u32
    }

    pub fn is_empty(&self) -> bool
        ensures { IsTrue result ↔ (self.now ≡ []) }
    {
        self.parts.is_empty()
    }

    /// The number of bytes that the items have together.
    pub fn bytes(&self) -> u64
        ensures { result ≡ total_bytes self.now }
    {
        self.total as u64
    }
}

#[cfg(test)]
mod tests {
    use super::*;
    use crate::line_parts;
    use std::test::Fail;

    #[test]
    fn items_are_read_back(rt: HostRuntime) -> Result<(), Fail> {
        let mut items = Items::with_capacity(rt.alloc(), 2, 2)?;
        assert!(rt; items.is_empty());
        for item in [b"ab".as_slice(), b"", b"c"] {
            items.push(item)?;
        }
        assert_eq!(rt; items.len(), 3);
        assert_eq!(rt; items.bytes(), 3);
        for (index, want) in [
            (0, Some(b"ab".as_slice())),
            (1, Some(b"")),
            (2, Some(b"c")),
            (3, None),
        ] {
            assert!(rt; items.get(index) == want, "at {index}");
        }
        Ok(())
    }

    // Each line of the text as an item.
    fn lines_of(alloc: Global, text: &Arc<Bytes>) -> Result<Items, NoMemory>
        requires { length (arc_value text.now) ≤ 10 }
    {
        let parts = line_parts(alloc, text.as_slice(), 4)?;
        let shared = Arc::try_clone(text)?;
        Ok(Items::of_parts(alloc, shared, parts))
    }

    #[test]
    fn items_lie_in_a_shared_text_until_one_is_pushed(rt: HostRuntime) -> Result<(), Fail> {
        let text = Arc::new(rt.alloc(), Bytes::from_slice(rt.alloc(), b"ab\n\nc\n")?)?;
        assert!(rt; text.len() <= 10);
        let mut items = lines_of(rt.alloc(), &text)?;
        assert_eq!(rt; (items.len(), items.bytes()), (3, 3));
        items.push(b"de")?;
        assert_eq!(rt; (items.len(), items.bytes()), (4, 5));
        for (index, want) in [(0, b"ab".as_slice()), (1, b""), (2, b"c"), (3, b"de")] {
            assert!(rt; items.get(index) == Some(want), "at {index}");
        }
        assert!(rt; items.get(4).is_none());
        assert!(rt; text.as_slice() == b"ab\n\nc\n".as_slice());
        Ok(())
    }

    #[test]
    fn one_byte_more_than_the_limit_is_full(rt: HostRuntime) -> Result<(), Fail> {
        let mut items = Items::with_capacity(rt.alloc(), 10, 536_870_912)?;
        let mut large = Bytes::with_capacity(rt.alloc(), 67_108_864)?;
        for _ in 0..16_384 {
            large.append(&[b'x'; 4096])?;
        }
        for _ in 0..8 {
            items.push(large.as_slice())?;
        }
        assert_eq!(rt; items.push(b"x"), Err(PushFault::Full));
        assert_eq!(rt; items.push(b""), Ok(()));
        assert_eq!(rt; (items.len(), items.bytes()), (9, 536_870_912));
        Ok(())
    }

    #[test]
    fn one_item_more_than_the_limit_is_full(rt: HostRuntime) -> Result<(), Fail> {
        let mut items = Items::new(rt.alloc());
        for _ in 0..8_388_608 {
            items.push(b"")?;
        }
        assert_eq!(rt; items.push(b""), Err(PushFault::Full));
        assert_eq!(rt; items.len(), 8_388_608);
        Ok(())
    }
}
