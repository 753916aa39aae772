ghost use Rattle.std.specs.Prelude.{◌≡◌, [], ◌++◌, IfOk, OnOk, OnErr};
ghost use Rattle.qtc_ops.specs.Counts.{count_text, counted, counts_text, separated};

use qtc_base::{Bytes, NoMemory, decimal};
use std::alloc::Global;
use std::collections::BTreeMap;
use std::marker::Model;

/// Appends the `;` that parts the next entry from those before it.
fn append_separator(text: &mut Bytes) -> Result<(), NoMemory>
    ensures { OnOk result (text.new ≡ separated text.old) }
{
    if text.is_empty() {
        return Ok(());
    }
    text.append(b";")
}

/// Appends `VALUE=COUNT`, or at an Err perhaps a front of it.
fn append_count(value: &[u8], count: u128, text: &mut Bytes) -> Result<(), NoMemory>
    ensures { OnOk result (text.new ≡ text.old ++ count_text (value.now, count)) }
{
    text.append(value)?;
    text.append(b"=")?;
    decimal(count, text)
}

/// How often each value came. Contracts see the list of the values with their counts, ascending by bytes.
#[derive(Drop)]
pub struct Counts {
    alloc: Global,
    counts: BTreeMap<Vec<u8>, u128>,
}

impl Model for Counts {
    ghost use Rattle.std.specs.Prelude.{List, ℕ};

    ghost Value = { List (List ℕ × ℕ) };

    ghost use Rattle.qtc_ops.specs.CountsInside.{seen_counts};

    ghost view = { seen_counts };
}

impl Counts {
    pub(crate) fn new(alloc: Global) -> Counts
        ensures { result ≡ [] }
    {
        Counts {
            alloc,
            counts: BTreeMap::new(alloc),
        }
    }

    /// Counts one more of the value, which is searched for once. An Err leaves the counts as they were.
    pub(crate) fn add(&mut self, value: &[u8]) -> Result<(), NoMemory>
        ensures ok { OnOk result (self.new ≡ counted self.old value.now) }
        ensures err { OnErr result (self.new ≡ self.old) }
    {
        let key = Vec::from_slice(self.alloc, value)?;
        let count = self.counts.entry(key)?.or_insert(0);
        *count = count.saturating_add(1);
        Ok(())
    }

    /// `VALUE=COUNT` for each value, parted by `;`. Err is want of memory.
    pub(crate) fn text(&self, alloc: Global) -> Result<Bytes, NoMemory>
        ensures { IfOk result (λ text. text ≡ counts_text self.now) }
    {
        let mut text = Bytes::new(alloc);
        for (value, count) in &self.counts {
            append_separator(&mut text)?;
            append_count(value.as_slice(), *count, &mut text)?;
        }
        Ok(text)
    }
}
