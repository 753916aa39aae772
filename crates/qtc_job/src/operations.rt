//! The operations that the lines of a job name.
ghost use Rattle.std.specs.Prelude.{◌≡◌, ℕ, List as PlainList, Option, Some, MatchResult, [], ◌∷◌, ◌<◌, nat_lt, length};
ghost use Rattle.qtc_base.specs.Words.{words_left};
ghost use Rattle.qtc_job.specs.Answers.{Gives, IsFault, IsChosen, IsNoneWithout};
ghost use Rattle.qtc_job.specs.Codes.{form_codes, where_};
ghost use Rattle.qtc_job.specs.Forms.{Form, chosen, exactly, number, literal, map_form, predicate_form, filter_form, fold_form, order_form, list_form};
ghost use Rattle.qtc_job_file.specs.declared.keywords.Keyword.{Keyword};
ghost use Rattle.qtc_job.specs.Meaning.{by_word, map_kind as map_kind_of, predicate_kind as predicate_kind_of, filter_kind as filter_kind_of, filter_meant, fold_kind as fold_kind_of, fold_meant, order_kind as order_kind_of, order_meant, list_kind as list_kind_of, list_meant, map_meant, number_at, text_at};

use crate::codes::{ENDS_EARLY, LineFault, UNKNOWN_WORD, ended};
use crate::limits::{MOST_FIELD, MOST_ITEMS, MOST_TEXT};
use crate::places::{Literal, Number, read_one};
use qtc_base::{Bytes, Words};
use qtc_job_file::Keyword;
use qtc_ops::{FoldOp, ItemOp, ListOp, MapOp, Pred};
use std::alloc::Global;

/// What a form without places means.
pub fn read_bare<T: Drop>(value: T, words: &mut Words) -> Result<T, LineFault>
    ensures { (names : PlainList (PlainList ℕ)) → Gives (form_codes names (exactly [] (words_left words.old))) value
        result }
{
    ended(Ok(value), words)
}

/// What a form of one number means.
pub fn read_number(
    alloc: Global,
    least: u32,
    most: u32,
    words: &mut Words,
) -> Result<u32, LineFault>
    ensures { (names : PlainList (PlainList ℕ)) → Gives (form_codes names
        (exactly (number least most ∷ []) (words_left words.old))) (number_at (words_left words.old) 0) result }
{
    read_one(alloc, &Number { least, most }, words)
}

/// What a form of one literal means.
pub fn read_text(alloc: Global, words: &mut Words) -> Result<Bytes, LineFault>
    ensures { (names : PlainList (PlainList ℕ)) → Gives (form_codes names
        (exactly (literal ∷ []) (words_left words.old))) (text_at (words_left words.old) 0) result }
{
    read_one(alloc, &Literal, words)
}

/// The word that chooses the form of those after it.
pub fn next_keyword(words: &mut Words) -> Result<Keyword, LineFault>
    ensures { MatchResult result (λ keyword. IsChosen (words_left words.old) (words_left words.new) keyword)
        (λ fault. (names : PlainList (PlainList ℕ)) (form : Option Keyword → PlainList (PlainList ℕ) → Form)
        → IsNoneWithout form → IsFault (form_codes names (chosen form (words_left words.old))) fault) }
{
    match words.next() {
        Some(word) => match Keyword::of(word) {
            Some(keyword) => Ok(keyword),
            None => Err(LineFault::Wrong(UNKNOWN_WORD)),
        },
        None => Err(LineFault::Wrong(ENDS_EARLY)),
    }
}

fn map_kind(alloc: Global, kind: Keyword, words: &mut Words) -> Result<MapOp, LineFault>
    ensures { (names : PlainList (PlainList ℕ)) → Gives (form_codes names
        (map_form (Some kind) (words_left words.old))) (map_kind_of (Some kind) (words_left words.old)) result }
{
    match kind {
        Keyword::Same => read_bare(MapOp::Same, words),
        Keyword::Length => read_bare(MapOp::Length, words),
        Keyword::Digest => read_bare(MapOp::Digest, words),
        Keyword::Field => match read_number(alloc, 1, MOST_FIELD, words) {
            Ok(number) => Ok(MapOp::Field(number)),
            Err(fault) => Err(fault),
        },
        Keyword::Number => read_bare(MapOp::Number, words),
        _ => Err(LineFault::Wrong(UNKNOWN_WORD)),
    }
}

/// The item function of `map`.
pub fn read_map(alloc: Global, words: &mut Words) -> Result<ItemOp, LineFault>
    ensures { (names : PlainList (PlainList ℕ)) → Gives (form_codes names (chosen map_form (words_left words.old)))
        (map_meant (words_left words.old)) result }
{
    match next_keyword(words) {
        Ok(kind) => match map_kind(alloc, kind, words) {
            Ok(op) => Ok(ItemOp::Map(op)),
            Err(fault) => Err(fault),
        },
        Err(fault) => Err(fault),
    }
}

fn predicate_kind(alloc: Global, kind: Keyword, words: &mut Words) -> Result<Pred, LineFault>
    ensures { (names : PlainList (PlainList ℕ)) → Gives (form_codes names
        (predicate_form (Some kind) (words_left words.old))) (predicate_kind_of (Some kind) (words_left words.old))
        result }
{
    match kind {
        Keyword::Contains => match read_text(alloc, words) {
            Ok(text) => Ok(Pred::Contains(text)),
            Err(fault) => Err(fault),
        },
        Keyword::Wildcard => match read_text(alloc, words) {
            Ok(text) => Ok(Pred::Wildcard(text)),
            Err(fault) => Err(fault),
        },
        Keyword::Longer => match read_number(alloc, 0, MOST_TEXT, words) {
            Ok(number) => Ok(Pred::Longer(number)),
            Err(fault) => Err(fault),
        },
        _ => Err(LineFault::Wrong(UNKNOWN_WORD)),
    }
}

/// The predicate after `not`.
fn read_predicate(alloc: Global, words: &mut Words) -> Result<Pred, LineFault>
    ensures { (names : PlainList (PlainList ℕ)) → Gives (form_codes names
        (chosen predicate_form (words_left words.old))) (by_word predicate_kind_of (words_left words.old)) result }
{
    match next_keyword(words) {
        Ok(kind) => predicate_kind(alloc, kind, words),
        Err(fault) => Err(fault),
    }
}

fn filter_kind(alloc: Global, kind: Keyword, words: &mut Words) -> Result<ItemOp, LineFault>
    ensures { (names : PlainList (PlainList ℕ)) → Gives (form_codes names
        (filter_form (Some kind) (words_left words.old))) (filter_kind_of (Some kind) (words_left words.old)) result }
{
    match kind {
        Keyword::Not => match read_predicate(alloc, words) {
            Ok(pred) => Ok(ItemOp::Keep { not: true, pred }),
            Err(fault) => Err(fault),
        },
        _ => match predicate_kind(alloc, kind, words) {
            Ok(pred) => Ok(ItemOp::Keep { not: false, pred }),
            Err(fault) => Err(fault),
        },
    }
}

/// The item function of `filter`.
pub fn read_filter(alloc: Global, words: &mut Words) -> Result<ItemOp, LineFault>
    ensures { (names : PlainList (PlainList ℕ)) → Gives (form_codes names (chosen filter_form (words_left words.old)))
        (filter_meant (words_left words.old)) result }
{
    match next_keyword(words) {
        Ok(kind) => filter_kind(alloc, kind, words),
        Err(fault) => Err(fault),
    }
}

fn fold_kind(alloc: Global, kind: Keyword, words: &mut Words) -> Result<FoldOp, LineFault>
    ensures { (names : PlainList (PlainList ℕ)) → Gives (form_codes names
        (fold_form (Some kind) (words_left words.old))) (fold_kind_of (Some kind) (words_left words.old)) result }
{
    match kind {
        Keyword::Count => read_bare(FoldOp::Count, words),
        Keyword::Bytes => read_bare(FoldOp::Size, words),
        Keyword::Sum => read_bare(FoldOp::Sum, words),
        Keyword::Join => match read_text(alloc, words) {
            Ok(text) => Ok(FoldOp::Join(text)),
            Err(fault) => Err(fault),
        },
        Keyword::Chain => read_bare(FoldOp::Chain, words),
        Keyword::Greatest => read_bare(FoldOp::Greatest, words),
        Keyword::Tally => read_bare(FoldOp::Tally, words),
        _ => Err(LineFault::Wrong(UNKNOWN_WORD)),
    }
}

/// The fold of `reduce`.
pub fn read_fold(alloc: Global, words: &mut Words) -> Result<FoldOp, LineFault>
    ensures { (names : PlainList (PlainList ℕ)) → Gives (form_codes names (chosen fold_form (words_left words.old)))
        (fold_meant (words_left words.old)) result }
{
    match next_keyword(words) {
        Ok(kind) => fold_kind(alloc, kind, words),
        Err(fault) => Err(fault),
    }
}

fn order_kind(kind: Keyword, words: &mut Words) -> Result<bool, LineFault>
    ensures { (names : PlainList (PlainList ℕ)) → Gives (form_codes names
        (order_form (Some kind) (words_left words.old))) (order_kind_of (Some kind) (words_left words.old)) result }
{
    match kind {
        Keyword::Ordered => read_bare(true, words),
        Keyword::Unordered => read_bare(false, words),
        _ => Err(LineFault::Wrong(UNKNOWN_WORD)),
    }
}

/// Whether `order` says that the fold is ordered.
pub fn read_order(words: &mut Words) -> Result<bool, LineFault>
    ensures { (names : PlainList (PlainList ℕ)) → Gives (form_codes names (chosen order_form (words_left words.old)))
        (order_meant (words_left words.old)) result }
{
    match next_keyword(words) {
        Ok(kind) => order_kind(kind, words),
        Err(fault) => Err(fault),
    }
}

fn list_kind(alloc: Global, kind: Keyword, words: &mut Words) -> Result<ListOp, LineFault>
    ensures { (names : PlainList (PlainList ℕ)) → Gives (form_codes names
        (list_form (Some kind) (words_left words.old))) (list_kind_of (Some kind) (words_left words.old)) result }
{
    match kind {
        Keyword::First => match read_number(alloc, 0, MOST_ITEMS, words) {
            Ok(number) => Ok(ListOp::First(number)),
            Err(fault) => Err(fault),
        },
        Keyword::Sorted => read_bare(ListOp::Sorted, words),
        Keyword::Concat => read_bare(ListOp::Concat, words),
        _ => Err(LineFault::Wrong(UNKNOWN_WORD)),
    }
}

/// The list operation of `then`.
pub fn read_list(alloc: Global, words: &mut Words) -> Result<ListOp, LineFault>
    ensures { (names : PlainList (PlainList ℕ)) → Gives (form_codes names (chosen list_form (words_left words.old)))
        (list_meant (words_left words.old)) result }
{
    match next_keyword(words) {
        Ok(kind) => list_kind(alloc, kind, words),
        Err(fault) => Err(fault),
    }
}
