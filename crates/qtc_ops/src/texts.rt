ghost use Rattle.std.specs.Prelude.{◌≡◌, ◌++◌, [], Some, None, OnOk, OnErr, unwrap_or};
ghost use Rattle.qtc_ops.specs.Texts.{greater, joined_text};

use qtc_base::{Bytes, NoMemory};
use std::alloc::Global;
use std::cmp::Ordering;
use std::marker::Model;

/// Appends both pieces, or neither.
fn append_pair(bytes: &mut Bytes, first: &[u8], second: &[u8]) -> Result<(), NoMemory>
    ensures ok { OnOk result (bytes.new ≡ bytes.old ++ (first.now ++ second.now)) }
    ensures err { OnErr result (bytes.new ≡ bytes.old) }
{
    let before = bytes.len();
    bytes.append(first)?;
    let appended = bytes.append(second);
    if appended.is_err() {
        bytes.truncate(before);
    }
    appended
}

/// A text, or none yet. Contracts see an optional list of bytes.
#[derive(Drop)]
pub struct TextSoFar {
    alloc: Global,
    text: Option<Bytes>,
}

impl Model for TextSoFar {
    ghost use Rattle.std.specs.Prelude.{List, ℕ, Option};

    ghost Value = { Option (List ℕ) };

    ghost view = { λ s. s.text };
}

impl TextSoFar {
    pub(crate) fn new(alloc: Global) -> TextSoFar
        ensures { result ≡ None }
    {
        TextSoFar { alloc, text: None }
    }

    /// Takes the place of what is there. An Err leaves it.
    fn set(&mut self, value: &[u8]) -> Result<(), NoMemory>
        ensures ok { OnOk result (self.new ≡ Some value.now) }
        ensures err { OnErr result (self.new ≡ self.old) }
    {
        let text = Bytes::from_slice(self.alloc, value)?;
        self.text = Some(text);
        Ok(())
    }

    /// Appends the separator and the value, or sets the first value. An Err leaves it as it was.
    pub(crate) fn join(&mut self, separator: &[u8], value: &[u8]) -> Result<(), NoMemory>
        ensures ok { OnOk result (self.new ≡ Some (joined_text self.old separator.now value.now)) }
        ensures err { OnErr result (self.new ≡ self.old) }
    {
        if let Some(text) = &mut self.text {
            return append_pair(text, separator, value);
        }
        self.set(value)
    }

    /// Takes the value where it is greater by bytes. An Err leaves it as it was.
    pub(crate) fn raise(&mut self, value: &[u8]) -> Result<(), NoMemory>
        ensures ok { OnOk result (self.new ≡ Some (greater self.old value.now)) }
        ensures err { OnErr result (self.new ≡ self.old) }
    {
        if let Some(best) = &self.text {
            if best.as_slice().cmp(&value) != Ordering::Less {
                return Ok(());
            }
        }
        self.set(value)
    }

    /// The text, empty where there is none.
    pub(crate) fn as_slice(&self) -> &[u8]
        ensures { result.now ≡ unwrap_or self.now [] }
    {
        match &self.text {
            Some(text) => text.as_slice(),
            None => &[],
        }
    }
}
