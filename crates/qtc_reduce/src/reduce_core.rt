ghost use Rattle.std.specs.Prelude.{◌≡◌};

use crate::places::next_place;
use crate::{Block, Folded, Next, Offer};
use qtc_base::{List, NoMemory, Range};
use qtc_ops::Fold;
use std::alloc::Global;
use std::marker::Model;

/// How many blocks may wait for each worker before an offer tells that there are more.
const STORED_PER_WORKER: usize = 30;

/// How many blocks may wait at all, so that their number is told as one of 32 bits: more would want memory.
const MOST_BLOCKS: usize = u32::MAX as usize;

/// The reduction of one thread: one accumulator, which goes out with a block and comes home with that folded into it, and the
/// blocks that wait meanwhile.
///
/// An ordered reduction folds blocks by ascending begin, each where the one before ended; an unordered one as they come, and
/// of those that wait the one of least begin first. The progress is the end of the last block that was handed out. (After
/// ReduceKernel of Qt Concurrent; own.)
#[derive(Drop)]
pub struct ReduceCore<F: Fold>
where
    F::Acc: Drop,
{
    ordered: bool,
    workers: u32,
    stored: Vec<Block>,
    hand: Option<Range>,
    folded: Vec<Range>,
    progress: u32,
    closed: bool,
    home: Option<F::Acc>,
}

impl<F: Fold> Model for ReduceCore<F>
where
    F::Acc: Drop,
{
    ghost use Rattle.qtc_reduce.specs.Core.{Core};
    ghost use Rattle.qtc_reduce.specs.Inside.{IsKept};

    ghost Value = { Core F.Acc };

    ghost view = { λ s. record {
      ordered = s.ordered;
      workers = s.workers;
      stored = s.stored.items;
      hand = s.hand;
      folded = s.folded.items;
      progress = s.progress;
      closed = s.closed;
      home = s.home;
    } };

    ghost invariant = { λ s. IsKept (record {
      ordered = s.ordered;
      workers = s.workers;
      stored = s.stored.items;
      hand = s.hand;
      folded = s.folded.items;
      progress = s.progress;
      closed = s.closed;
      home = s.home;
    }) s.folded };
}

impl<F: Fold> ReduceCore<F>
where
    F::Acc: Drop,
{
    ghost use Rattle.std.specs.Prelude.{◌≡◌, ◌<◌, ◌≤◌, ℕ, [], false, IfOk, IsSome, length};
    ghost use Rattle.qtc_base.specs.Limits.{most_workers};
    ghost use Rattle.qtc_base.specs.Ranges.{Tiles};
    ghost use Rattle.qtc_reduce.specs.Core.{goes_out, is_next, new_core, ranges_of};
    ghost use Rattle.qtc_reduce.specs.Steps.{IsFinish, IsGivenBack, IsOffered};

    /// A reduction for 1 to 32 workers, to which nothing was offered. Err is want of memory.
    pub fn new(
        alloc: Global,
        fold: &F,
        ordered: bool,
        workers: u32,
    ) -> Result<ReduceCore<F>, NoMemory>
        requires { (0 < workers) × (workers ≤ most_workers) }
        ensures { IfOk result (λ core. core ≡ new_core ordered workers (F.first fold.now)) }
    {
        let first = fold.start(alloc)?;
        Ok(ReduceCore {
            ordered,
            workers,
            stored: Vec::new(alloc),
            hand: None,
            folded: Vec::new(alloc),
            progress: 0,
            closed: false,
            home: Some(first),
        })
    }

    /// Offers a block, which isn't empty. Err is want of memory: the block is dropped, and nothing changes.
    pub fn offer(&mut self, block: Block) -> Result<Offer<F::Acc>, NoMemory>
        requires { block.range.begin < block.range.end }
        ensures { IsOffered block self.old self.new result }
    {
        if self.closed {
            return Ok(Offer::Closed);
        }
        if self.home.is_none() || !self.may_be_next(&block) {
            return self.store(block);
        }
        self.folded.reserve(self.stored.len() + 2)?;
        let Some(acc) = self.home.take() else {
            unreachable!()
        };
        self.hand = Some(block.range);
        self.progress = block.range.end;
        Ok(Offer::Yours(acc, block))
    }

    /// Whether the block may be folded next, by its place.
    fn may_be_next(&self, block: &Block) -> bool
        ensures { result ≡ is_next self.now block.now }
    {
        !self.ordered || block.range.begin == self.progress
    }

    // Takes the room of the block's range in the list, too.
    fn store(&mut self, block: Block) -> Result<Offer<F::Acc>, NoMemory>
        requires some { block.range.begin < block.range.end }
        requires open { self.old.closed ≡ false }
        requires waits { goes_out self.old block ≡ false }
        ensures { IsOffered block self.old self.new result }
    {
        if self.stored.len() >= MOST_BLOCKS {
            return Err(NoMemory);
        }
        self.folded.reserve(self.stored.len() + 2)?;
        self.stored.push(block)?;
        let most = STORED_PER_WORKER * self.workers as usize;
        Ok(Offer::Stored(most < self.stored.len()))
    }

    /// Gives the accumulator back: with the block in hand folded into it where it is whole, and else unfinished, after which
    /// nothing is folded any more. It wants no memory.
    pub fn give_back(&mut self, acc: F::Acc, whole: bool) -> Next<F::Acc>
        requires { IsSome self.old.hand }
        ensures { IsGivenBack acc whole self.old self.new result }
    {
        let Some(range) = self.hand.take() else {
            unreachable!()
        };
        if whole {
            self.folded.push_reserved(range);
            if let Some(place) = next_place(self.stored.as_slice(), self.ordered, self.progress) {
                let block = self.stored.remove(place);
                self.hand = Some(block.range);
                self.progress = block.range.end;
                return Next::More(acc, block);
            }
        } else {
            self.closed = true;
        }
        let before = self.home.replace(acc);
        let None = before else { unreachable!() };
        Next::Done
    }

    /// How many blocks wait. Where the accumulator is home, nothing was given back unfinished, and what was offered and not
    /// dropped has each index below some number once, none waits.
    pub fn stored(&self) -> u32
        ensures count { result ≡ length self.now.stored }
        ensures none { IsSome self.now.home → self.now.closed ≡ false
            → (n : ℕ) → Tiles (ranges_of self.now) n → self.now.stored ≡ [] }
    {
        self.stored.len() as u32
    }

    /// The accumulator with all that was offered folded into it; none exactly where it is out, a block waits, or one was
    /// given back unfinished.
    pub fn finish(self) -> Option<Folded<F::Acc>>
        ensures { IsFinish self result }
    {
        let ReduceCore {
            ordered: _,
            workers: _,
            stored,
            hand: _,
            folded,
            progress: _,
            closed,
            home,
        } = self;
        if closed || !stored.is_empty() {
            return None;
        }
        match home {
            Some(acc) => Some(Folded {
                acc,
                ranges: List::from_vec(folded),
            }),
            None => None,
        }
    }
}
