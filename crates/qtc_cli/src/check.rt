ghost use Rattle.std.specs.Prelude.{map, string_bytes, IfOk, IfErr};
ghost use Rattle.qtc_cli.specs.Check.{CheckEnds, FileStops, FormsCheck, IsCheck};
ghost use Rattle.qtc_cli.specs.Seen.{seen};

use crate::command_forms::{Task, command_of};
use crate::endings::{refuse, write_text};
use crate::refusals::Refusal;
use qtc_base::Bytes;
use qtc_job::print;
use qtc_load::load_file;
use qtc_outside::{Sink, Texts};
use std::alloc::Global;

/// Loads the job file under a name, and forms its canonical text.
fn form_check<T: Texts>(alloc: Global, name: &[u8], texts: &mut T) -> Result<Bytes, Refusal>
    ensures ok { IfOk result (λ text. FormsCheck name.now (T.source texts.old) text (T.source texts.new)) }
    ensures err { IfErr result (λ refusal. FileStops name.now (T.source texts.old) refusal (T.source texts.new)) }
{
    let file = load_file(alloc, texts, name)?;
    let text = print(alloc, &file)?;
    Ok(text)
}

/// Checks the job file under a name, and writes its canonical text.
pub fn check_named<T: Texts, S: Sink, E: Sink>(
    alloc: Global,
    name: &[u8],
    texts: &mut T,
    out: &mut S,
    err: &mut E,
) -> u8
    ensures { CheckEnds name.now (T.source texts.old) (T.source texts.new) (S.intake out.old) (S.intake out.new)
        (E.intake err.old) (E.intake err.new) result }
{
    match form_check(alloc, name, texts) {
        Ok(text) => write_text(alloc, text.as_slice(), 0, out, err),
        Err(refusal) => refuse(alloc, refusal, err),
    }
}

/// Runs the words `check JOB`: loads the job file, reads it, and writes its canonical text to `out`. Every other
/// form is a refusal with status 2. It waits for nobody.
pub fn check_words<T: Texts, S: Sink, E: Sink>(
    alloc: Global,
    words: &[String],
    texts: &mut T,
    out: &mut S,
    err: &mut E,
) -> u8
    ensures { IsCheck (seen (map string_bytes words.now) (T.source texts.old) (T.source texts.new) (S.intake out.old)
        (S.intake out.new) (E.intake err.old) (E.intake err.new) result) }
{
    let Some(command) = command_of(words) else {
        return refuse(alloc, Refusal::Usage, err);
    };
    match command.task {
        Task::Check => check_named(alloc, command.job, texts, out, err),
        Task::Run(_) => refuse(alloc, Refusal::Usage, err),
    }
}
