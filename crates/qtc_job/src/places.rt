//! The places of a form: what a word in each may be, and what it means.
ghost use Rattle.std.specs.Prelude.{◌≡◌, ℕ, pos, neg_ℤ, SomeIff, if◌then◌else◌, List as PlainList, [], ◌∷◌, ◌++◌, ◌≤◌, ◌<◌, map, OnOk};
ghost use Rattle.qtc_base.specs.Limits.{least_priority, most_priority};
ghost use Rattle.qtc_base.specs.Words.{words_left};
ghost use Rattle.qtc_base.specs.Decimal.{number_of};
ghost use Rattle.qtc_job.specs.Answers.{Gives, IsLeast, IsSoFar, one_codes, many_codes};
ghost use Rattle.qtc_job_file.specs.Canonical.{names_of};
ghost use Rattle.qtc_job.specs.Codes.{word_codes};
ghost use Rattle.qtc_job.specs.Forms.{number, priority, literal, name, earlier};
ghost use Rattle.qtc_job.specs.Literals.{text_of, is_negative, priority_of, unsigned as unsigned_of};
ghost use Rattle.qtc_job.specs.Meaning.{place_of, word_at};

use crate::codes::{
    ENDS_EARLY, LineFault, MORE_WORDS, NO_EARLIER_JOB, NO_NAME, NO_NUMBER, OUT_OF_RANGE, ended,
    least_with,
};
use crate::limits::{LEAST_PRIORITY, MOST_PRIORITY};
use crate::literals::{is_name, read_literal, read_numeral};
use qtc_base::{Bytes, List, NoMemory, Words};
use qtc_job_file::Job;
use std::alloc::Global;

/// What a word in one place of a form may be.
pub trait Place {
    /// What it means there.
    type Value: Drop;

    // the codes of a word there
    ghost codes: { Self → PlainList ℕ → PlainList ℕ };

    // what a word without codes means there
    ghost meant: { Self → PlainList ℕ → Self.Value };

    /// What the word means, or its code.
    fn read(&self, alloc: Global, word: &[u8]) -> Result<Self::Value, LineFault>
        ensures { Gives (codes self.now word.now) (meant self.now word.now) result };
}

/// What the one word of a form means.
pub fn read_one<P: Place>(
    alloc: Global,
    place: &P,
    words: &mut Words,
) -> Result<P::Value, LineFault>
    ensures { Gives (one_codes (P.codes place.now) (words_left words.old))
        (P.meant place.now (word_at (words_left words.old) 0)) result }
{
    let Some(word) = words.next() else {
        return Err(LineFault::Wrong(ENDS_EARLY));
    };
    ended(place.read(alloc, word), words)
}

/// A number from the one to the other.
#[derive(Clone, Copy)]
pub struct Number {
    pub least: u32,
    pub most: u32,
}

impl Place for Number {
    type Value = u32;

    ghost codes = { λ s word. word_codes [] (number s.least s.most) word };

    ghost meant = { λ s word. number_of word };

    fn read(&self, _alloc: Global, word: &[u8]) -> Result<u32, LineFault> {
        match read_numeral(word) {
            None => Err(LineFault::Wrong(NO_NUMBER)),
            Some(value) => {
                if value < u128::from(self.least) || value > u128::from(self.most) {
                    return Err(LineFault::Wrong(OUT_OF_RANGE));
                }
                Ok(value as u32)
            }
        }
    }
}

/// A priority.
#[derive(Clone, Copy)]
pub struct Priority;

/// What a word after one `-` at its front is, and whether it was there.
fn unsigned(word: &[u8]) -> (bool, &[u8])
    ensures { (result.0 ≡ is_negative word.now) × (result.1.now ≡ unsigned_of word.now) }
{
    match word {
        [b'-', digits @ ..] => (true, digits),
        _ => (false, word),
    }
}

impl Place for Priority {
    type Value = i32;

    ghost codes = { λ s word. word_codes [] priority word };

    ghost meant = { λ s word. priority_of word };

    fn read(&self, _alloc: Global, word: &[u8]) -> Result<i32, LineFault> {
        let (negative, digits) = unsigned(word);
        match read_numeral(digits) {
            None => Err(LineFault::Wrong(NO_NUMBER)),
            Some(size) => match signed(negative, size) {
                Some(value) => Ok(value),
                None => Err(LineFault::Wrong(OUT_OF_RANGE)),
            },
        }
    }
}

/// The number of this size and sign, where it is a priority.
fn signed(negative: bool, size: u128) -> Option<i32>
    ensures { SomeIff result (size ≤ (if negative then least_priority else most_priority))
        (if negative then neg_ℤ (pos size) else pos size) }
{
    if negative {
        if size > LEAST_PRIORITY {
            return None;
        }
        return Some((-(size as i64)) as i32);
    }
    if size > MOST_PRIORITY {
        return None;
    }
    Some(size as i32)
}

/// A literal, or the name of a text.
#[derive(Clone, Copy)]
pub struct Literal;

impl Place for Literal {
    type Value = Bytes;

    ghost codes = { λ s word. word_codes [] literal word };

    ghost meant = { λ s word. text_of word };

    fn read(&self, alloc: Global, word: &[u8]) -> Result<Bytes, LineFault> {
        read_literal(alloc, word)
    }
}

/// The name of a job that is not there yet.
#[derive(Clone, Copy)]
pub struct NewName;

impl Place for NewName {
    type Value = Bytes;

    ghost codes = { λ s word. word_codes [] name word };

    ghost meant = { λ s word. word };

    fn read(&self, alloc: Global, word: &[u8]) -> Result<Bytes, LineFault> {
        if !is_name(word) {
            return Err(LineFault::Wrong(NO_NAME));
        }
        Ok(Bytes::from_slice(alloc, word)?)
    }
}

/// What the words of one place up to so many mean, as far as they were read.
#[derive(Drop)]
struct Many<V> {
    values: List<V>,
    code: Option<u32>,
}

impl<V: Drop> Many<V> {
    /// Takes what was read of one more word.
    fn take(&mut self, read: Result<V, LineFault>) -> Result<(), NoMemory>
        ensures { (codes more : PlainList ℕ) (meant : PlainList V) (value : V)
            → IsSoFar codes meant self.old.values self.old.code → Gives more value read
            → OnOk result (IsSoFar (more ++ codes) (meant ++ value ∷ []) self.new.values self.new.code) }
    {
        match read {
            Ok(value) => {
                if self.code.is_none() && self.values.push(value).is_err() {
                    return Err(NoMemory);
                }
            }
            Err(LineFault::Wrong(code)) => self.code = Some(least_with(code, self.code)),
            Err(LineFault::Memory) => return Err(NoMemory),
        }
        Ok(())
    }
}

/// What the words of one place up to so many mean.
pub fn read_many<P: Place>(
    alloc: Global,
    place: &P,
    most: usize,
    words: &mut Words,
) -> Result<List<P::Value>, LineFault>
    ensures { Gives (many_codes (P.codes place.now) most (words_left words.old))
        (map (P.meant place.now) (words_left words.old)) result }
{
    let mut many = Many {
        values: List::new(alloc),
        code: None,
    };
    let mut count = 0;
    while let Some(word) = words.next() {
        if count == most {
            return Err(LineFault::Wrong(least_with(MORE_WORDS, many.code)));
        }
        count += 1;
        many.take(place.read(alloc, word))?;
    }
    if count == 0 {
        return Err(LineFault::Wrong(ENDS_EARLY));
    }
    match many.code {
        Some(code) => Err(LineFault::Wrong(code)),
        None => Ok(many.values),
    }
}
