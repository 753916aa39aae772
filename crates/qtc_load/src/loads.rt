ghost use Rattle.std.specs.Prelude.{◌≡◌, ◌≤◌, [], IfOk, IfErr, OnOk};
ghost use Rattle.qtc_job_file.specs.Texts.{HasAll, names_of_all};
ghost use Rattle.qtc_job_file.specs.Lawful.{Lawful};
ghost use Rattle.qtc_load.specs.Loads.{LoadsFile, LoadsTexts, FileNotRead, TextsStop, bytes_of, texts_named as texts_to_load};
ghost use Rattle.qtc_base.specs.Limits.{most_texts};
ghost use Rattle.qtc_load.specs.LoadSteps.{LoadsNext, LoadsMore, NextStops, NamesStop};

use crate::FileFault;
use crate::limits::{MOST_JOB_FILE, MOST_TEXT, MOST_TEXTS};
use qtc_base::Bytes;
use qtc_job::parse;
use qtc_job_file::{JobFile, Loaded, texts_named};
use qtc_outside::{LoadFault, Texts, read_text};
use std::alloc::Global;

/// Loads the job file under `name`, and reads it. Bad with the bad pair of least line, then of least code; TooLong exactly
/// where more bytes were given than a job file may have; Read where the source failed.
pub fn load_file<T: Texts>(alloc: Global, texts: &mut T, name: &[u8]) -> Result<JobFile, FileFault>
    ensures ok { IfOk result (λ file. LoadsFile name.now (T.source texts.old) file (T.source texts.new)) }
    ensures lawful { IfOk result Lawful }
    ensures err { IfErr result (λ fault. FileNotRead name.now (T.source texts.old) fault (T.source texts.new)) }
{
    let text = read_text(alloc, texts, name, MOST_JOB_FILE)?;
    let file = parse(alloc, text.as_slice())?;
    Ok(file)
}

/// The texts so far, and how many bytes they have together.
#[derive(Drop)]
struct Shelf {
    loaded: Loaded,
    bytes: u64,
    ghost counted: { bytes ≡ bytes_of loaded },
    ghost few: { bytes ≤ most_texts },
}

/// Loads the text under a name, unless it is there.
fn load_named<T: Texts>(
    alloc: Global,
    texts: &mut T,
    name: &[u8],
    shelf: &mut Shelf,
) -> Result<(), LoadFault>
    ensures ok { OnOk result
        (LoadsNext shelf.old.loaded (T.source texts.old) name.now shelf.new.loaded (T.source texts.new)) }
    ensures err { IfErr result (λ fault.
        NextStops shelf.old.loaded (T.source texts.old) name.now fault (T.source texts.new)) }
{
    if shelf.loaded.get(name).is_some() {
        return Ok(());
    }
    let room = MOST_TEXT.min(MOST_TEXTS - shelf.bytes);
    let text = read_text(alloc, texts, name, room)?;
    let bytes = shelf.bytes + text.len() as u64;
    let name = Bytes::from_slice(alloc, name)?;
    shelf.loaded.add(name, text)?;
    shelf.bytes = bytes;
    Ok(())
}

/// Loads the texts under these names, each once.
fn load_all<T: Texts>(
    alloc: Global,
    texts: &mut T,
    names: &[Bytes],
    shelf: &mut Shelf,
) -> Result<(), LoadFault>
    ensures ok { OnOk result
        (LoadsMore names.now shelf.old.loaded (T.source texts.old) shelf.new.loaded (T.source texts.new)) }
    ensures err { IfErr result (λ fault.
        NamesStop names.now shelf.old.loaded (T.source texts.old) fault (T.source texts.new)) }
{
    for name in names {
        match load_named(alloc, texts, name.as_slice(), shelf) {
            Ok(()) => {}
            Err(fault) => return Err(fault),
        }
    }
    Ok(())
}

/// Loads the texts that a job file names, each once, in the order in which they are named first.
pub fn load_texts<T: Texts>(
    alloc: Global,
    texts: &mut T,
    file: &JobFile,
) -> Result<Loaded, LoadFault>
    ensures ok { IfOk result (λ loaded.
        LoadsTexts (texts_to_load file.now) (T.source texts.old) loaded (T.source texts.new)) }
    ensures all { IfOk result (λ loaded. HasAll loaded (names_of_all file.now.jobs)) }
    ensures err { IfErr result (λ fault.
        TextsStop (texts_to_load file.now) (T.source texts.old) fault (T.source texts.new)) }
{
    let mut shelf = Shelf {
        loaded: Loaded::new(alloc),
        bytes: 0,
    };
    for job in file.jobs.as_slice() {
        match load_all(alloc, texts, texts_named(&job.input), &mut shelf) {
            Ok(()) => {}
            Err(fault) => return Err(fault),
        }
    }
    Ok(shelf.loaded)
}
