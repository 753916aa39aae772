ghost use Rattle.std.specs.Prelude.{◌≡◌};

use crate::shelf::Shelf;
use crate::{Failed, Texts};
use qtc_base::{Bytes, List};

/// Texts in memory that never fail; a name that isn't there has the empty text.
#[derive(Drop)]
pub struct SureTexts {
    shelf: Shelf,
    taken: u64,
    chosen: Option<Bytes>,
}

impl SureTexts {
    ghost use Rattle.qtc_outside.specs.SureTexts.{IsFreshSure};

    /// Pairs of name and text, of which the first with a name counts.
    pub fn new(texts: List<(Bytes, Bytes)>) -> SureTexts
        ensures { IsFreshSure texts result }
    {
        SureTexts {
            shelf: Shelf::new(texts),
            taken: 0,
            chosen: None,
        }
    }
}

impl Texts for SureTexts {
    ghost use Rattle.std.specs.Prelude.{◌≡◌, ◌<◌, length, Some, IsSome, IsOk, OnOk, OnErr, IfOk};
    ghost use Rattle.qtc_outside.specs.Source.{Chooses, Faults, Gives};
    ghost use Rattle.qtc_outside.specs.SureTexts.{sure_source, pairs_of, give_len};

    ghost source = { sure_source };

    fn choose(&mut self, name: Bytes) -> Result<(), Failed>
        ensures ok { OnOk result (Chooses (sure_source self.old) name (sure_source self.new)) }
        ensures err { OnErr result (Faults (sure_source self.old) (Some name) (sure_source self.new)) }
        ensures never_fails { IsOk result }
        ensures pairs { pairs_of self.new ≡ pairs_of self.old }
    {
        let _found = self.shelf.open(name.as_slice());
        self.chosen = Some(name);
        Ok(())
    }

    fn read(&mut self, into: &mut [u8]) -> Result<usize, Failed>
        requires room { 0 < length into.old }
        requires some_chosen { IsSome (sure_source self.old).chosen }
        ensures ok { IfOk result (λ count. Gives (sure_source self.old) into.new count (sure_source self.new)) }
        ensures err { OnErr result (Faults (sure_source self.old) (sure_source self.old).chosen (sure_source self.new)) }
        ensures never_fails { IsOk result }
        ensures gives { IfOk result (λ count. count ≡ give_len self.old (length into.old)) }
        ensures pairs { pairs_of self.new ≡ pairs_of self.old }
    {
        let count = self.shelf.give(into, usize::MAX);
        self.taken = self.taken.saturating_add(count as u64);
        if count == 0 {
            self.chosen = None;
        }
        Ok(count)
    }
}
