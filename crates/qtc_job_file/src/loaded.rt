ghost use Rattle.std.specs.Prelude.{◌≡◌, ◌≤◌, [], ◌∷◌, ◌++◌, length, None, IsSome, OnOk, OnErr, IfOk, option_copied};
ghost use Rattle.std.specs.Arc.{arc_value};
ghost use Rattle.qtc_outside.specs.Shelf.{text_under};
ghost use Rattle.qtc_base.specs.Limits.{most_text};
ghost use Rattle.qtc_job_file.specs.Texts.{text_of};

use indexmap::IndexMap;
use qtc_base::{Bytes, NoMemory};
use std::alloc::Global;
use std::marker::Model;
use std::sync::Arc;

/// Loaded texts, each under its name. Contracts see the list of the names with their texts, in the order in
/// which they were added; a name is looked up in a table. A text can be shared with the items that lie in it.
#[derive(Drop)]
pub struct Loaded {
    alloc: Global,
    texts: IndexMap<Vec<u8>, Arc<Bytes>>,
}

impl Model for Loaded {
    ghost use Rattle.qtc_job_file.specs.Texts.{Texts};

    ghost Value = { Texts };

    ghost use Rattle.qtc_job_file.specs.Texts.{AreTexts};
    ghost use Rattle.qtc_job_file.specs.LoadedInside.{seen_texts};

    ghost view = { seen_texts };

    ghost invariant = { λ s. AreTexts (seen_texts s) };
}

impl Loaded {
    /// No texts, which takes no memory yet.
    pub fn new(alloc: Global) -> Loaded
        ensures { result ≡ [] }
    {
        Loaded {
            alloc,
            texts: IndexMap::new(alloc),
        }
    }

    /// Adds a text under a name that has none yet. Err is want of memory, and drops both.
    pub fn add(&mut self, name: Bytes, text: Bytes) -> Result<(), NoMemory>
        requires new { text_under self.old name ≡ None }
        requires short { length text ≤ most_text }
        ensures ok { OnOk result (self.new ≡ self.old ++ (name, text) ∷ []) }
        ensures err { OnErr result (self.new ≡ self.old) }
    {
        let text = Arc::new(self.alloc, text)?;
        self.texts.insert(name.into_vec(), text)?;
        Ok(())
    }

    /// The text under the name, where there is one.
    pub fn get(&self, name: &[u8]) -> Option<&[u8]>
        ensures { option_copied result ≡ text_under self.now name.now }
    {
        match self.texts.get(name) {
            Some(text) => Some(text.as_slice()),
            None => None,
        }
    }

    /// The text under a name that has one.
    pub fn text(&self, name: &[u8]) -> &[u8]
        requires { IsSome (text_under self.now name.now) }
        ensures text { result.now ≡ text_of self.now name.now }
        ensures short { length result.now ≤ most_text }
    {
        self.texts.get(name).unwrap().as_slice()
    }

    /// The same, shared: no byte is copied. Err is want of memory.
    pub fn shared(&self, name: &[u8]) -> Result<Arc<Bytes>, NoMemory>
        requires { IsSome (text_under self.now name.now) }
        ensures text { IfOk result (λ text. arc_value text ≡ text_of self.now name.now) }
        ensures short { IfOk result (λ text. length (arc_value text) ≤ most_text) }
    {
        let text = Arc::try_clone(self.texts.get(name).unwrap())?;
        Ok(text)
    }
}
