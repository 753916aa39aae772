//! The inputs that the lines of a job name.
ghost use Rattle.std.specs.Prelude.{◌≡◌, ℕ, List as PlainList, Some, [], ◌∷◌, ◌++◌, map};
ghost use Rattle.qtc_base.specs.Limits.{most_sources, most_text};
ghost use Rattle.qtc_base.specs.Words.{words_left};
ghost use Rattle.qtc_job.specs.Answers.{Gives, IsFault};
ghost use Rattle.qtc_job_file.specs.Canonical.{names_of};
ghost use Rattle.qtc_job.specs.Codes.{form_codes};
ghost use Rattle.qtc_job.specs.Forms.{chosen, exactly, up_to, number, literal, earlier, input_form};
ghost use Rattle.qtc_job.specs.Literals.{text_of};
ghost use Rattle.qtc_job.specs.Meaning.{input_kind as input_kind_of, input_meant, number_at, place_of, text_at, word_at};

use crate::codes::{ENDS_EARLY, LineFault, UNKNOWN_WORD, either, ended};
use crate::earlier_jobs::EarlierJob;
use crate::limits::{MOST_SOURCES, MOST_TEXT};
use crate::operations::{next_keyword, read_text};
use crate::places::{Literal, Number, Place, read_many, read_one};
use qtc_base::{Bytes, List, Words};
use qtc_job_file::{Input, Keyword};
use std::alloc::Global;

/// What a form of names of texts means.
#[tactic(auto, using(crate::proofs::FormLemmas::form_laws))]
fn read_texts(alloc: Global, words: &mut Words) -> Result<List<Bytes>, LineFault>
    ensures { (names : PlainList (PlainList ℕ)) →
        Gives (form_codes names (up_to most_sources literal (words_left words.old)))
        (map text_of (words_left words.old)) result }
{
    read_many(alloc, &Literal, MOST_SOURCES, words)
}

/// What a form of names of earlier jobs means.
#[tactic(auto, using(crate::proofs::FormLemmas::form_laws))]
fn read_jobs(alloc: Global, jobs: &EarlierJob, words: &mut Words) -> Result<List<u32>, LineFault>
    ensures { Gives (form_codes (names_of jobs.now.jobs.now) (up_to most_sources earlier (words_left words.old)))
        (map (place_of (names_of jobs.now.jobs.now)) (words_left words.old)) result }
{
    read_many(alloc, jobs, MOST_SOURCES, words)
}

/// What a form of one name of an earlier job means.
#[tactic(auto, using(crate::proofs::FormLemmas::form_laws))]
fn read_job(alloc: Global, jobs: &EarlierJob, words: &mut Words) -> Result<u32, LineFault>
    ensures { Gives (form_codes (names_of jobs.now.jobs.now) (exactly (earlier ∷ []) (words_left words.old)))
        (place_of (names_of jobs.now.jobs.now) (word_at (words_left words.old) 0)) result }
{
    read_one(alloc, jobs, words)
}

/// The pieces of a text, by what was read of their two words.
fn pieces_of(
    size: Result<u32, LineFault>,
    text: Result<Bytes, LineFault>,
) -> Result<Input, LineFault>
    ensures { (a b : PlainList ℕ) (n : ℕ) (t : PlainList ℕ) → Gives a n size → Gives b t text
        → Gives (a ++ b) (Input.Pieces n t) result }
{
    match text {
        Err(fault) => Err(either(size, fault)),
        Ok(text) => match size {
            Ok(size) => Ok(Input::Pieces(size, text)),
            Err(fault) => Err(fault),
        },
    }
}

/// The pieces of a text.
fn read_pieces(alloc: Global, words: &mut Words) -> Result<Input, LineFault>
    ensures { (names : PlainList (PlainList ℕ)) → Gives (form_codes names
        (exactly (number 1 most_text ∷ literal ∷ []) (words_left words.old)))
        (Input.Pieces (number_at (words_left words.old) 0) (text_at (words_left words.old) 1)) result }
{
    let Some(size) = words.next() else {
        return Err(LineFault::Wrong(ENDS_EARLY));
    };
    let Some(text) = words.next() else {
        return Err(LineFault::Wrong(ENDS_EARLY));
    };
    let places = Number {
        least: 1,
        most: MOST_TEXT,
    };
    let read = pieces_of(places.read(alloc, size), Literal.read(alloc, text));
    ended(read, words)
}

fn input_kind(
    alloc: Global,
    jobs: &EarlierJob,
    kind: Keyword,
    words: &mut Words,
) -> Result<Input, LineFault>
    ensures { Gives (form_codes (names_of jobs.now.jobs.now) (input_form (Some kind) (words_left words.old)))
        (input_kind_of (names_of jobs.now.jobs.now) (Some kind) (words_left words.old)) result }
{
    match kind {
        Keyword::Lines => match read_text(alloc, words) {
            Ok(text) => Ok(Input::Lines(text)),
            Err(fault) => Err(fault),
        },
        Keyword::Files => match read_texts(alloc, words) {
            Ok(texts) => Ok(Input::Files(texts)),
            Err(fault) => Err(fault),
        },
        Keyword::Pieces => read_pieces(alloc, words),
        Keyword::Job => match read_job(alloc, jobs, words) {
            Ok(place) => Ok(Input::Job(place)),
            Err(fault) => Err(fault),
        },
        Keyword::All => match read_jobs(alloc, jobs, words) {
            Ok(places) => Ok(Input::All(places)),
            Err(fault) => Err(fault),
        },
        Keyword::Any => match read_jobs(alloc, jobs, words) {
            Ok(places) => Ok(Input::Any(places)),
            Err(fault) => Err(fault),
        },
        _ => Err(LineFault::Wrong(UNKNOWN_WORD)),
    }
}

/// What `input` names.
pub fn read_input(alloc: Global, jobs: &EarlierJob, words: &mut Words) -> Result<Input, LineFault>
    ensures { Gives (form_codes (names_of jobs.now.jobs.now) (chosen input_form (words_left words.old)))
        (input_meant (names_of jobs.now.jobs.now) (words_left words.old)) result }
{
    match next_keyword(words) {
        Ok(kind) => input_kind(alloc, jobs, kind, words),
        Err(fault) => Err(fault),
    }
}
