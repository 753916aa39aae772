ghost use Rattle.std.specs.Prelude.{◌≤◌, length, IfSome, OnSome};
ghost use Rattle.std.specs.Str.{IsUtf8};

use crate::{Failed, Texts};
use qtc_base::Bytes;
use std::fs::File;
use std::io::Read;
use std::rt::Files;

/// The next bytes of the open file, where it can be read.
fn next_bytes<F: Read>(open: &mut Option<F>, into: &mut [u8]) -> Option<usize>
    ensures { IfSome result (λ count. count ≤ length into.old) }
{
    match open {
        Some(file) => file.read(into).ok(),
        None => None,
    }
}

/// The files by path, as texts. A path that can't be opened or read, as a folder, is a fault, and so is a
/// name that isn't UTF-8. What the files hold is not told.
#[derive(Drop)]
pub struct FileTexts<R: Files> {
    files: R,
    open: Option<R::File>,
    chosen: Option<Bytes>,
    blamed: Option<Bytes>,
    taken: u64,
    faults: u64,
}

impl<R: Files> FileTexts<R> {
    ghost use Rattle.qtc_outside.specs.FileTexts.{IsFreshFiles};

    pub fn new(files: R) -> FileTexts<R>
        ensures { IsFreshFiles result }
    {
        FileTexts {
            files,
            open: None,
            chosen: None,
            blamed: None,
            taken: 0,
            faults: 0,
        }
    }

    /// The file with the name, where that is UTF-8 and the file can be opened.
    fn open_file(&self, name: &Bytes) -> Option<R::File>
        ensures { OnSome result (IsUtf8 name.now) }
    {
        let path = str::from_utf8(name.as_slice()).ok()?;
        File::open(&self.files, path).ok()
    }
}

impl<R: Files> Texts for FileTexts<R> {
    ghost use Rattle.std.specs.Prelude.{◌≡◌, ◌<◌, length, Some, IsSome, OnOk, OnErr, IfOk};
    ghost use Rattle.std.specs.Str.{IsUtf8};
    ghost use Rattle.qtc_outside.specs.Counts.{faults_after};
    ghost use Rattle.qtc_outside.specs.Source.{Chooses, Faults, Gives};
    ghost use Rattle.qtc_outside.specs.FileTexts.{files_source};

    ghost source = { files_source };

    fn choose(&mut self, name: Bytes) -> Result<(), Failed>
        ensures ok { OnOk result (Chooses (files_source self.old) name (files_source self.new)) }
        ensures err { OnErr result (Faults (files_source self.old) (Some name) (files_source self.new)) }

        // What the trait leaves open: a name that isn't UTF-8 fails, and how far the count of faults rises.
        ensures utf8 { OnOk result (IsUtf8 name) }
        ensures one_fault { self.new.faults ≡ faults_after self.old.faults result }
    {
        self.open = self.open_file(&name);
        if self.open.is_some() {
            self.chosen = Some(name);
            return Ok(());
        }
        self.faults = self.faults.saturating_add(1);
        self.chosen = None;
        self.blamed = Some(name);
        Err(Failed)
    }

    fn read(&mut self, into: &mut [u8]) -> Result<usize, Failed>
        requires room { 0 < length into.old }
        requires some_chosen { IsSome (files_source self.old).chosen }
        ensures ok { IfOk result (λ count. Gives (files_source self.old) into.new count (files_source self.new)) }
        ensures err { OnErr result (Faults (files_source self.old) (files_source self.old).chosen (files_source self.new)) }
        ensures one_fault { self.new.faults ≡ faults_after self.old.faults result }
    {
        match next_bytes(&mut self.open, into) {
            Some(count) => {
                self.taken = self.taken.saturating_add(count as u64);
                if count == 0 {
                    self.open = None;
                    self.chosen = None;
                }
                Ok(count)
            }
            None => {
                self.faults = self.faults.saturating_add(1);
                self.open = None;
                self.blamed = self.chosen.take();
                Err(Failed)
            }
        }
    }
}
