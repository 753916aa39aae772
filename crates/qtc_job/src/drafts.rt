ghost use Rattle.std.specs.Prelude.{◌≡◌, ℕ, ◌&&◌, not, true, is_some, List as PlainList, [], ◌∷◌, OnOk, OnErr, IfOk};
ghost use Rattle.qtc_base.specs.Limits.{default_block};
ghost use Rattle.qtc_job.specs.Drafts.{IsDraft, IsOneOfJob, one_of, with_statement};
ghost use Rattle.qtc_job.specs.Lines.{Line, says};
ghost use Rattle.qtc_job.specs.Codes.{above_codes, is_chain, is_in_job, is_single, job_codes, own_above, stands};
ghost use Rattle.qtc_job.specs.Answers.{Gives, IsLeastSoFar};
ghost use Rattle.qtc_job.specs.Marks.{IsMarks};
ghost use Rattle.qtc_job.specs.Meaning.{job_of};

use crate::codes::{
    CHAIN_TOO_LONG, LineFault, NO_INPUT, NOT_ONE_FUNCTION, ORDER_WITHOUT_FOLD, REPEATED,
};
use crate::limits::{DEFAULT_BLOCK, MOST_CHAIN};
use crate::marks::Marks;
use crate::statements::Statement;
use qtc_base::{Bytes, List, NoMemory};
use qtc_job_file::{ChainOp, Input, Job, Keyword};
use qtc_ops::{FoldOp, ItemOp};
use std::alloc::Global;

/// What the lines of a job have said of it so far.
#[derive(Drop)]
pub struct Draft {
    /// The number of the job line, from 1.
    pub line: u32,
    pub name: Bytes,
    pub input: Option<Input>,
    pub map: Option<ItemOp>,
    pub filter: Option<ItemOp>,
    pub fold: Option<FoldOp>,
    pub order: Option<bool>,
    pub blocks: Option<List<u32>>,
    pub priority: Option<i32>,
    pub cancel_after: Option<u32>,
    pub suspend_after: Option<u32>,
    pub watch: bool,
    pub chain: List<ChainOp>,
}

impl Draft {
    /// The job of which a job line alone has said this name.
    pub fn new(alloc: Global, line: u32, name: Bytes) -> Draft
        ensures line { result.line ≡ line }
        ensures name { result.name ≡ name }
        ensures empty { (names : PlainList (PlainList ℕ)) → IsDraft names [] result }
    {
        Draft {
            line,
            name,
            input: None,
            map: None,
            filter: None,
            fold: None,
            order: None,
            blocks: None,
            priority: None,
            cancel_after: None,
            suspend_after: None,
            watch: false,
            chain: List::new(alloc),
        }
    }

    /// Takes what one more line says. An Err leaves the draft as it was.
    pub fn add(&mut self, statement: Statement) -> Result<(), NoMemory>
        ensures ok { OnOk result (self.new ≡ with_statement self.old statement) }
        ensures err { OnErr result (self.new ≡ self.old) }
    {
        match statement {
            Statement::Input(input) => self.input = Some(input),
            Statement::Map(op) => self.map = Some(op),
            Statement::Filter(op) => self.filter = Some(op),
            Statement::Reduce(fold) => self.fold = Some(fold),
            Statement::Order(ordered) => self.order = Some(ordered),
            Statement::Blocks(blocks) => self.blocks = Some(blocks),
            Statement::Priority(value) => self.priority = Some(value),
            Statement::CancelAfter(count) => self.cancel_after = Some(count),
            Statement::SuspendAfter(count) => self.suspend_after = Some(count),
            Statement::Watch => self.watch = true,
            Statement::Chain(step) => {
                if self.chain.push(step).is_err() {
                    return Err(NoMemory);
                }
            }
        }
        Ok(())
    }

    /// Whether a line that may stand once in a job has begun with the word.
    pub fn has(&self, keyword: Keyword) -> bool
        ensures { (names : PlainList (PlainList ℕ)) (own : PlainList Line) → IsDraft names own self.now
            → IsOneOfJob keyword → result ≡ (is_single keyword && stands keyword own) }
    {
        match keyword {
            Keyword::Input => self.input.is_some(),
            Keyword::Map => self.map.is_some(),
            Keyword::Filter => self.filter.is_some(),
            Keyword::Reduce => self.fold.is_some(),
            Keyword::Order => self.order.is_some(),
            Keyword::Blocks => self.blocks.is_some(),
            Keyword::Priority => self.priority.is_some(),
            Keyword::CancelAfter => self.cancel_after.is_some(),
            Keyword::SuspendAfter => self.suspend_after.is_some(),
            Keyword::Watch => self.watch,
            _ => false,
        }
    }

    /// The least code of a line that begins with the word, by the lines above it in the job.
    pub fn above_code(&self, keyword: Keyword) -> Option<u32>
        ensures { (names args : PlainList (PlainList ℕ)) (above : PlainList Line) → is_in_job above ≡ true
            → IsDraft names (own_above above) self.now → IsOneOfJob keyword
            → IsLeastSoFar (above_codes above (says keyword args)) result }
    {
        if self.has(keyword) {
            return Some(REPEATED);
        }
        if is_chain_word(keyword) && self.chain.len() >= MOST_CHAIN {
            return Some(CHAIN_TOO_LONG);
        }
        None
    }

    /// Which of its directives the job has.
    pub fn marks(&self) -> Marks
        ensures { (names : PlainList (PlainList ℕ)) (own : PlainList Line) → IsDraft names own self.now
            → IsMarks own result }
    {
        Marks {
            input: self.input.is_some(),
            map: self.map.is_some(),
            filter: self.filter.is_some(),
            reduce: self.fold.is_some(),
            order: self.order.is_some(),
        }
    }

    /// The job of all its lines, or the least code of its job line.
    pub fn finish(self, alloc: Global) -> Result<Job, LineFault>
        ensures { (names : PlainList (PlainList ℕ)) (own : PlainList Line) → IsDraft names own self
            → Gives (job_codes own) (job_of names self.name own) result }
    {
        let Draft {
            line: _,
            name,
            input,
            map,
            filter,
            fold,
            order,
            blocks,
            priority,
            cancel_after,
            suspend_after,
            watch,
            chain,
        } = self;
        let Some(input) = input else {
            return Err(LineFault::Wrong(NO_INPUT));
        };
        let Some(op) = function_of(map, filter) else {
            return Err(LineFault::Wrong(NOT_ONE_FUNCTION));
        };
        if is_order_alone(&order, &fold) {
            return Err(LineFault::Wrong(ORDER_WITHOUT_FOLD));
        }
        let blocks = match blocks {
            Some(blocks) => blocks,
            None => default_blocks(alloc)?,
        };
        Ok(Job {
            name,
            input,
            op,
            fold,
            ordered: order.unwrap_or(false),
            blocks,
            priority: priority.unwrap_or(0),
            cancel_after: cancel_after.unwrap_or(0),
            suspend_after: suspend_after.unwrap_or(0),
            watch,
            chain,
        })
    }
}

/// Whether a line that begins with the word is one of the chain.
fn is_chain_word(keyword: Keyword) -> bool
    ensures { (args : PlainList (PlainList ℕ)) → IsOneOfJob keyword → result ≡ is_chain (says keyword args) }
{
    matches!(
        keyword,
        Keyword::Then | Keyword::OnFailed | Keyword::OnCanceled
    )
}

/// The one function of a job.
fn function_of(map: Option<ItemOp>, filter: Option<ItemOp>) -> Option<ItemOp>
    ensures { result ≡ one_of map filter }
{
    match map {
        Some(op) => match filter {
            Some(_) => None,
            None => Some(op),
        },
        None => filter,
    }
}

/// Whether there is an order and no fold.
fn is_order_alone(order: &Option<bool>, fold: &Option<FoldOp>) -> bool
    ensures { result ≡ (is_some order.now && not (is_some fold.now)) }
{
    order.is_some() && fold.is_none()
}

/// The blocks of a job that names none.
fn default_blocks(alloc: Global) -> Result<List<u32>, NoMemory>
    ensures { IfOk result (λ blocks. blocks ≡ default_block ∷ []) }
{
    let mut blocks = List::new(alloc);
    match blocks.push(DEFAULT_BLOCK) {
        Ok(()) => Ok(blocks),
        Err(_) => Err(NoMemory),
    }
}
