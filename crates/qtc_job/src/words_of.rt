//! The words of canonical lines after the first.
ghost use Rattle.std.specs.Prelude.{◌≡◌, ℕ, List as PlainList, [], ◌∷◌, ◌++◌, OnOk, map, if◌then◌else◌};
ghost use Rattle.qtc_base.specs.Decimal.{decimal_text};
ghost use Rattle.qtc_job_file.specs.Canonical.{fold_words, input_words, list_words, map_words, name_at, names_of, predicate_words, written};
ghost use Rattle.qtc_job_file.specs.Keywords.{spelling};
ghost use Rattle.qtc_job.specs.Tails.{tail};

use crate::words_out::{put, put_keyword, put_literal, put_number};
use qtc_base::{Bytes, NoMemory};
use qtc_job_file::{Input, Job, Keyword};
use qtc_ops::{FoldOp, ListOp, MapOp, Pred};

/// Appends a word of the language and a literal.
fn put_named(into: &mut Bytes, keyword: Keyword, text: &[u8]) -> Result<(), NoMemory>
    ensures { OnOk result (into.new ≡ into.old ++ tail (spelling keyword ∷ written text.now ∷ [])) }
{
    put_keyword(into, keyword)?;
    put_literal(into, text)
}

/// Appends a word of the language and a number.
fn put_counted(into: &mut Bytes, keyword: Keyword, number: u32) -> Result<(), NoMemory>
    ensures { OnOk result (into.new ≡ into.old ++ tail (spelling keyword ∷ decimal_text number ∷ [])) }
{
    put_keyword(into, keyword)?;
    put_number(into, number)
}

/// Appends a word of the language that stands alone.
pub fn put_alone(into: &mut Bytes, keyword: Keyword) -> Result<(), NoMemory>
    ensures { OnOk result (into.new ≡ into.old ++ tail (spelling keyword ∷ [])) }
{
    put_keyword(into, keyword)
}

pub fn put_map(into: &mut Bytes, op: &MapOp) -> Result<(), NoMemory>
    ensures { OnOk result (into.new ≡ into.old ++ tail (map_words op.now)) }
{
    match op {
        MapOp::Same => put_alone(into, Keyword::Same),
        MapOp::Length => put_alone(into, Keyword::Length),
        MapOp::Digest => put_alone(into, Keyword::Digest),
        MapOp::Field(number) => put_counted(into, Keyword::Field, *number),
        MapOp::Number => put_alone(into, Keyword::Number),
    }
}

pub fn put_predicate(into: &mut Bytes, pred: &Pred) -> Result<(), NoMemory>
    ensures { OnOk result (into.new ≡ into.old ++ tail (predicate_words pred.now)) }
{
    match pred {
        Pred::Contains(text) => put_named(into, Keyword::Contains, text.as_slice()),
        Pred::Wildcard(text) => put_named(into, Keyword::Wildcard, text.as_slice()),
        Pred::Longer(bound) => put_counted(into, Keyword::Longer, *bound),
    }
}

pub fn put_filter(into: &mut Bytes, not: bool, pred: &Pred) -> Result<(), NoMemory>
    ensures { OnOk result (into.new ≡ into.old ++ tail (if not then spelling Keyword.Not ∷ predicate_words pred.now
        else predicate_words pred.now)) }
{
    if not {
        put_keyword(into, Keyword::Not)?;
    }
    put_predicate(into, pred)
}

pub fn put_fold(into: &mut Bytes, fold: &FoldOp) -> Result<(), NoMemory>
    ensures { OnOk result (into.new ≡ into.old ++ tail (fold_words fold.now)) }
{
    match fold {
        FoldOp::Count => put_alone(into, Keyword::Count),
        FoldOp::Size => put_alone(into, Keyword::Bytes),
        FoldOp::Sum => put_alone(into, Keyword::Sum),
        FoldOp::Join(separator) => put_named(into, Keyword::Join, separator.as_slice()),
        FoldOp::Chain => put_alone(into, Keyword::Chain),
        FoldOp::Greatest => put_alone(into, Keyword::Greatest),
        FoldOp::Tally => put_alone(into, Keyword::Tally),
    }
}

pub fn put_list(into: &mut Bytes, op: &ListOp) -> Result<(), NoMemory>
    ensures { OnOk result (into.new ≡ into.old ++ tail (list_words op.now)) }
{
    match op {
        ListOp::First(count) => put_counted(into, Keyword::First, *count),
        ListOp::Sorted => put_alone(into, Keyword::Sorted),
        ListOp::Concat => put_alone(into, Keyword::Concat),
    }
}

/// The name of the job at a place; empty past the last.
fn name_of(jobs: &[Job], place: u32) -> &[u8]
    ensures { result.now ≡ name_at (names_of jobs.now) place }
{
    match jobs.get(place as usize) {
        Some(job) => job.name.as_slice(),
        None => &[],
    }
}

fn put_texts(into: &mut Bytes, texts: &[Bytes]) -> Result<(), NoMemory>
    ensures { OnOk result (into.new ≡ into.old ++ tail (map written texts.now)) }
{
    let mut left = texts;
    while let [text, rest @ ..] = left {
        put_literal(into, text.as_slice())?;
        left = rest;
    }
    Ok(())
}

fn put_jobs(into: &mut Bytes, jobs: &[Job], places: &[u32]) -> Result<(), NoMemory>
    ensures { OnOk result (into.new ≡ into.old ++ tail (map (name_at (names_of jobs.now)) places.now)) }
{
    let mut left = places;
    while let [place, rest @ ..] = left {
        put(into, name_of(jobs, *place))?;
        left = rest;
    }
    Ok(())
}

pub fn put_numbers(into: &mut Bytes, numbers: &[u32]) -> Result<(), NoMemory>
    ensures { OnOk result (into.new ≡ into.old ++ tail (map decimal_text numbers.now)) }
{
    let mut left = numbers;
    while let [number, rest @ ..] = left {
        put_number(into, *number)?;
        left = rest;
    }
    Ok(())
}

pub fn put_input(into: &mut Bytes, jobs: &[Job], input: &Input) -> Result<(), NoMemory>
    ensures { OnOk result (into.new ≡ into.old ++ tail (input_words (names_of jobs.now) input.now)) }
{
    match input {
        Input::Lines(text) => put_named(into, Keyword::Lines, text.as_slice()),
        Input::Files(texts) => {
            put_keyword(into, Keyword::Files)?;
            put_texts(into, texts.as_slice())
        }
        Input::Pieces(size, text) => {
            put_counted(into, Keyword::Pieces, *size)?;
            put_literal(into, text.as_slice())
        }
        Input::Job(place) => {
            put_keyword(into, Keyword::Job)?;
            put(into, name_of(jobs, *place))
        }
        Input::All(places) => {
            put_keyword(into, Keyword::All)?;
            put_jobs(into, jobs, places.as_slice())
        }
        Input::Any(places) => {
            put_keyword(into, Keyword::Any)?;
            put_jobs(into, jobs, places.as_slice())
        }
    }
}
