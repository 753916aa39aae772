ghost use Rattle.std.specs.Prelude.{◌≡◌, map, string_bytes, Some, None, IfSome, if◌then◌else◌};
ghost use Rattle.qtc_cli.specs.Forms.{form, form_of_two, form_of_four, is_workers, IsWorkerCount};
ghost use Rattle.qtc_cli.specs.Commands.{Says, HasWorkerCount};
ghost use Rattle.qtc_base.specs.Decimal.{number_of};

use qtc_base::read_decimal;

/// The most workers of a run.
const MOST_WORKERS: u128 = 32;

/// What the words ask for.
#[derive(Clone, Copy, Debug, PartialEq, Eq)]
pub enum Task {
    /// To run a job file, perhaps by so many workers.
    Run(Option<u32>),
    /// To check it.
    Check,
}

/// A task, and the name of the job file.
#[derive(Drop)]
pub struct Command<'a> {
    pub task: Task,
    pub job: &'a [u8],
}

/// The number of workers that a word spells: 1 to 10 digits for 1 to 32.
fn workers_of(word: &[u8]) -> Option<u32>
    ensures spelled { result ≡ (if is_workers word.now then Some (number_of word.now) else None) }
    ensures few { IfSome result IsWorkerCount }
{
    let Some(number) = read_decimal(word, 10) else {
        return None;
    };
    if number == 0 {
        return None;
    }
    if number > MOST_WORKERS {
        return None;
    }
    Some(number as u32)
}

/// What two words ask for.
fn command_of_two<'a>(command: &[u8], job: &'a [u8]) -> Option<Command<'a>>
    ensures says { Says (form_of_two command.now job.now) result }
    ensures workers { IfSome result (λ command. HasWorkerCount command.task) }
{
    if command == b"run".as_slice() {
        return Some(Command {
            task: Task::Run(None),
            job,
        });
    }
    if command == b"check".as_slice() {
        return Some(Command {
            task: Task::Check,
            job,
        });
    }
    None
}

/// What four words ask for.
fn command_of_four<'a>(
    command: &[u8],
    option: &[u8],
    number: &[u8],
    job: &'a [u8],
) -> Option<Command<'a>>
    ensures says { Says (form_of_four command.now option.now number.now job.now) result }
    ensures workers { IfSome result (λ command. HasWorkerCount command.task) }
{
    if command != b"run".as_slice() || option != b"--workers".as_slice() {
        return None;
    }
    let workers = workers_of(number)?;
    Some(Command {
        task: Task::Run(Some(workers)),
        job,
    })
}

/// What the words ask for; None where they have no form.
pub fn command_of(words: &[String]) -> Option<Command<'_>>
    ensures says { Says (form (map string_bytes words.now)) result }
    ensures workers { IfSome result (λ command. HasWorkerCount command.task) }
{
    match words {
        [command, job] => command_of_two(command.as_bytes(), job.as_bytes()),
        [command, option, number, job] => command_of_four(
            command.as_bytes(),
            option.as_bytes(),
            number.as_bytes(),
            job.as_bytes(),
        ),
        _ => None,
    }
}
