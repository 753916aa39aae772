//! What one line of a job says.
ghost use Rattle.std.specs.Prelude.{◌≡◌, ℕ, List as PlainList, [], ◌∷◌, map};
ghost use Rattle.qtc_base.specs.Limits.{most_block, most_blocks};
ghost use Rattle.qtc_base.specs.Decimal.{number_of};
ghost use Rattle.qtc_base.specs.Words.{words_left};
ghost use Rattle.qtc_job.specs.Answers.{Gives};
ghost use Rattle.qtc_job_file.specs.Canonical.{names_of};
ghost use Rattle.qtc_job.specs.Codes.{form_codes};
ghost use Rattle.qtc_job.specs.Forms.{directive_form, exactly, up_to, number, priority};
ghost use Rattle.qtc_job.specs.Literals.{priority_of};
ghost use Rattle.qtc_job.specs.Meaning.{word_at};
ghost use Rattle.qtc_job.specs.Statements.{statement_of};

use crate::codes::{LineFault, UNKNOWN_WORD};
use crate::earlier_jobs::EarlierJob;
use crate::inputs::read_input;
use crate::limits::{MOST_BLOCK, MOST_BLOCKS, MOST_ITEMS};
use crate::operations::{
    read_bare, read_filter, read_fold, read_list, read_map, read_number, read_order, read_text,
};
use crate::places::{Number, Priority, read_many, read_one};
use qtc_base::{List, Words};
use qtc_job_file::{ChainOp, Input, Keyword};
use qtc_ops::{FoldOp, ItemOp};
use std::alloc::Global;

/// What one line of a job says.
#[derive(Drop)]
pub enum Statement {
    Input(Input),
    Map(ItemOp),
    Filter(ItemOp),
    Reduce(FoldOp),
    Order(bool),
    Blocks(List<u32>),
    Priority(i32),
    CancelAfter(u32),
    SuspendAfter(u32),
    Watch,
    Chain(ChainOp),
}

/// What a form of sizes of blocks means.
fn read_blocks(alloc: Global, words: &mut Words) -> Result<List<u32>, LineFault>
    ensures { (names : PlainList (PlainList ℕ)) →
        Gives (form_codes names (up_to most_blocks (number 1 most_block) (words_left words.old)))
        (map number_of (words_left words.old)) result }
{
    let places = Number {
        least: 1,
        most: MOST_BLOCK,
    };
    read_many(alloc, &places, MOST_BLOCKS, words)
}

/// What a form of one priority means.
fn read_priority(alloc: Global, words: &mut Words) -> Result<i32, LineFault>
    ensures { (names : PlainList (PlainList ℕ)) → Gives (form_codes names
        (exactly (priority ∷ []) (words_left words.old))) (priority_of (word_at (words_left words.old) 0)) result }
{
    read_one(alloc, &Priority, words)
}

/// What a line of a job says, by the words after its directive.
pub fn read_statement(
    alloc: Global,
    jobs: &EarlierJob,
    keyword: Keyword,
    words: &mut Words,
) -> Result<Statement, LineFault>
    ensures { Gives (form_codes (names_of jobs.now.jobs.now) (directive_form keyword (words_left words.old)))
        (statement_of (names_of jobs.now.jobs.now) keyword (words_left words.old)) result }
{
    match keyword {
        Keyword::Input => match read_input(alloc, jobs, words) {
            Ok(input) => Ok(Statement::Input(input)),
            Err(fault) => Err(fault),
        },
        Keyword::Map => match read_map(alloc, words) {
            Ok(op) => Ok(Statement::Map(op)),
            Err(fault) => Err(fault),
        },
        Keyword::Filter => match read_filter(alloc, words) {
            Ok(op) => Ok(Statement::Filter(op)),
            Err(fault) => Err(fault),
        },
        Keyword::Reduce => match read_fold(alloc, words) {
            Ok(fold) => Ok(Statement::Reduce(fold)),
            Err(fault) => Err(fault),
        },
        Keyword::Order => match read_order(words) {
            Ok(ordered) => Ok(Statement::Order(ordered)),
            Err(fault) => Err(fault),
        },
        Keyword::Blocks => match read_blocks(alloc, words) {
            Ok(blocks) => Ok(Statement::Blocks(blocks)),
            Err(fault) => Err(fault),
        },
        Keyword::Priority => match read_priority(alloc, words) {
            Ok(value) => Ok(Statement::Priority(value)),
            Err(fault) => Err(fault),
        },
        Keyword::CancelAfter => match read_number(alloc, 1, MOST_ITEMS, words) {
            Ok(count) => Ok(Statement::CancelAfter(count)),
            Err(fault) => Err(fault),
        },
        Keyword::SuspendAfter => match read_number(alloc, 1, MOST_ITEMS, words) {
            Ok(count) => Ok(Statement::SuspendAfter(count)),
            Err(fault) => Err(fault),
        },
        Keyword::Watch => read_bare(Statement::Watch, words),
        Keyword::Then => match read_list(alloc, words) {
            Ok(op) => Ok(Statement::Chain(ChainOp::Then(op))),
            Err(fault) => Err(fault),
        },
        Keyword::OnFailed => match read_text(alloc, words) {
            Ok(text) => Ok(Statement::Chain(ChainOp::OnFailed(text))),
            Err(fault) => Err(fault),
        },
        Keyword::OnCanceled => match read_text(alloc, words) {
            Ok(text) => Ok(Statement::Chain(ChainOp::OnCanceled(text))),
            Err(fault) => Err(fault),
        },
        _ => Err(LineFault::Wrong(UNKNOWN_WORD)),
    }
}
