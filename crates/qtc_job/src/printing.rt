ghost use Rattle.std.specs.Prelude.{◌≡◌, ℕ, List as PlainList, [], ◌∷◌, ◌++◌, OnOk, IfOk, map};
ghost use Rattle.std.specs.List.{flat_map};
ghost use Rattle.qtc_base.specs.Decimal.{decimal_text};
ghost use Rattle.qtc_job_file.specs.Canonical.{after_lines, canonical, chain_words, ended_line, fold_lines, job_lines, names_of, op_words, order_words, watch_lines, input_words, priority_text};
ghost use Rattle.qtc_job_file.specs.Keywords.{spelling};
ghost use Rattle.qtc_job.specs.Tails.{back_lines, ended_lines, tail};

use crate::words_of::{put_alone, put_filter, put_fold, put_input, put_list, put_map, put_numbers};
use crate::words_out::{put, put_literal, put_number, put_priority};
use qtc_base::{Bytes, NoMemory};
use qtc_job_file::{ChainOp, Job, JobFile, Keyword};
use qtc_ops::{FoldOp, ItemOp};
use std::alloc::Global;

/// Begins a line with a word.
fn begin(into: &mut Bytes, keyword: Keyword) -> Result<(), NoMemory>
    ensures { OnOk result (into.new ≡ into.old ++ spelling keyword) }
{
    into.append(keyword.spelling())
}

/// Ends a line.
fn end(into: &mut Bytes) -> Result<(), NoMemory>
    ensures { OnOk result (into.new ≡ into.old ++ 10 ∷ []) }
{
    into.append(b"\n")
}

#[tactic(auto, using(crate::proofs::LineLemmas::line_laws))]
fn print_input(into: &mut Bytes, jobs: &[Job], job: &Job) -> Result<(), NoMemory>
    ensures { OnOk result (into.new ≡ into.old ++ ended_line (spelling Keyword.Input ∷ input_words (names_of jobs.now)
        job.now.input)) }
{
    begin(into, Keyword::Input)?;
    put_input(into, jobs, &job.input)?;
    end(into)
}

#[tactic(auto, using(crate::proofs::LineLemmas::line_laws))]
fn print_op(into: &mut Bytes, op: &ItemOp) -> Result<(), NoMemory>
    ensures { OnOk result (into.new ≡ into.old ++ ended_line (op_words op.now)) }
{
    match op {
        ItemOp::Map(op) => {
            begin(into, Keyword::Map)?;
            put_map(into, op)?;
        }
        ItemOp::Keep { not, pred } => {
            begin(into, Keyword::Filter)?;
            put_filter(into, *not, pred)?;
        }
    }
    end(into)
}

#[tactic(auto, using(crate::proofs::LineLemmas::line_laws))]
fn print_order(into: &mut Bytes, ordered: bool) -> Result<(), NoMemory>
    ensures { OnOk result (into.new ≡ into.old ++ ended_line (order_words ordered)) }
{
    begin(into, Keyword::Order)?;
    if ordered {
        put_alone(into, Keyword::Ordered)?;
    } else {
        put_alone(into, Keyword::Unordered)?;
    }
    end(into)
}

#[tactic(auto, using(crate::proofs::LineLemmas::line_laws))]
fn print_fold(into: &mut Bytes, fold: &Option<FoldOp>, ordered: bool) -> Result<(), NoMemory>
    ensures { OnOk result (into.new ≡ into.old ++ ended_lines (fold_lines fold.now ordered)) }
{
    match fold {
        None => Ok(()),
        Some(fold) => {
            begin(into, Keyword::Reduce)?;
            put_fold(into, fold)?;
            end(into)?;
            print_order(into, ordered)
        }
    }
}

#[tactic(auto, using(crate::proofs::LineLemmas::line_laws))]
fn print_blocks(into: &mut Bytes, blocks: &[u32]) -> Result<(), NoMemory>
    ensures { OnOk result (into.new ≡ into.old ++ ended_line (spelling Keyword.Blocks ∷ map decimal_text blocks.now)) }
{
    begin(into, Keyword::Blocks)?;
    put_numbers(into, blocks)?;
    end(into)
}

#[tactic(auto, using(crate::proofs::LineLemmas::line_laws))]
fn print_priority(into: &mut Bytes, priority: i32) -> Result<(), NoMemory>
    ensures { OnOk result (into.new ≡ into.old ++ ended_line (spelling Keyword.Priority ∷ priority_text priority ∷
        [])) }
{
    begin(into, Keyword::Priority)?;
    put_priority(into, priority)?;
    end(into)
}

/// Appends the line of a number of items after which something is done, where there is one.
#[tactic(auto, using(crate::proofs::LineLemmas::line_laws))]
fn print_after(into: &mut Bytes, keyword: Keyword, count: u32) -> Result<(), NoMemory>
    ensures { OnOk result (into.new ≡ into.old ++ ended_lines (after_lines (spelling keyword) count)) }
{
    if count == 0 {
        return Ok(());
    }
    begin(into, keyword)?;
    put_number(into, count)?;
    end(into)
}

#[tactic(auto, using(crate::proofs::LineLemmas::line_laws))]
fn print_watch(into: &mut Bytes, watch: bool) -> Result<(), NoMemory>
    ensures { OnOk result (into.new ≡ into.old ++ ended_lines (watch_lines watch)) }
{
    if !watch {
        return Ok(());
    }
    begin(into, Keyword::Watch)?;
    end(into)
}

#[tactic(auto, using(crate::proofs::LineLemmas::line_laws))]
fn print_step(into: &mut Bytes, step: &ChainOp) -> Result<(), NoMemory>
    ensures { OnOk result (into.new ≡ into.old ++ ended_line (chain_words step.now)) }
{
    match step {
        ChainOp::Then(op) => {
            begin(into, Keyword::Then)?;
            put_list(into, op)?;
        }
        ChainOp::OnFailed(text) => {
            begin(into, Keyword::OnFailed)?;
            put_literal(into, text.as_slice())?;
        }
        ChainOp::OnCanceled(text) => {
            begin(into, Keyword::OnCanceled)?;
            put_literal(into, text.as_slice())?;
        }
    }
    end(into)
}

#[tactic(auto, using(crate::proofs::LineLemmas::line_laws))]
fn print_chain(into: &mut Bytes, steps: &[ChainOp]) -> Result<(), NoMemory>
    ensures { OnOk result (into.new ≡ into.old ++ ended_lines (map chain_words steps.now)) }
{
    let mut left = steps;
    while let [step, rest @ ..] = left {
        print_step(into, step)?;
        left = rest;
    }
    Ok(())
}

/// Appends the lines of what is done when, of watching and of the chain.
#[tactic(auto, using(crate::proofs::LineLemmas::line_laws))]
fn print_later(into: &mut Bytes, job: &Job) -> Result<(), NoMemory>
    ensures { OnOk result (into.new ≡ into.old ++ ended_lines
        (after_lines (spelling Keyword.CancelAfter) job.now.cancel_after
        ++ (after_lines (spelling Keyword.SuspendAfter) job.now.suspend_after
        ++ (watch_lines job.now.watch ++ map chain_words job.now.chain)))) }
{
    print_after(into, Keyword::CancelAfter, job.cancel_after)?;
    print_after(into, Keyword::SuspendAfter, job.suspend_after)?;
    print_watch(into, job.watch)?;
    print_chain(into, job.chain.as_slice())
}

#[tactic(auto, using(crate::proofs::LineLemmas::line_laws))]
fn print_name(into: &mut Bytes, name: &[u8]) -> Result<(), NoMemory>
    ensures { OnOk result (into.new ≡ into.old ++ ended_line (spelling Keyword.Job ∷ name.now ∷ [])) }
{
    begin(into, Keyword::Job)?;
    put(into, name)?;
    end(into)
}

/// Appends the lines of the fold, the blocks and the priority, and those after them.
#[tactic(auto, using(crate::proofs::LineLemmas::line_laws))]
fn print_back(into: &mut Bytes, job: &Job) -> Result<(), NoMemory>
    ensures { OnOk result (into.new ≡ into.old ++ ended_lines (back_lines job.now)) }
{
    print_fold(into, &job.fold, job.ordered)?;
    print_blocks(into, job.blocks.as_slice())?;
    print_priority(into, job.priority)?;
    print_later(into, job)
}

#[tactic(auto, using(crate::proofs::LineLemmas::line_laws))]
fn print_job(into: &mut Bytes, jobs: &[Job], job: &Job) -> Result<(), NoMemory>
    ensures { OnOk result (into.new ≡ into.old ++ ended_lines (job_lines (names_of jobs.now) job.now)) }
{
    print_name(into, job.name.as_slice())?;
    print_input(into, jobs, job)?;
    print_op(into, &job.op)?;
    print_back(into, job)
}

/// The canonical text of a job file: each line that says something, in one order, with one space between two words
/// and no leading zero. Err is want of memory. (Own.)
#[tactic(auto, using(crate::proofs::LineLemmas::line_laws))]
pub fn print(alloc: Global, file: &JobFile) -> Result<Bytes, NoMemory>
    ensures { IfOk result (λ text. text ≡ canonical file.now) }
{
    let mut text = Bytes::new(alloc);
    begin(&mut text, Keyword::Workers)?;
    put_number(&mut text, file.workers)?;
    end(&mut text)?;
    let jobs = file.jobs.as_slice();
    let mut left = jobs;
    while let [job, rest @ ..] = left {
        print_job(&mut text, jobs, job)?;
        left = rest;
    }
    Ok(text)
}
