ghost use Rattle.std.specs.Prelude.{◌≡◌, ◌∷◌, [], IfOk};
ghost use Rattle.qtc_future.specs.Answering.{lacking_at, refused_by};

use crate::book::Book;
use crate::{Failure, Outcome, Reply};
use qtc_base::{Bytes, List, NoMemory, Range};
use qtc_events::{Call, Entry, Event, Flags, Reached, Thresholds, accounted_after, replay};
use qtc_store::{AddFault, ResultStore};
use std::alloc::Global;
use std::marker::Model;

/// The future of one thread.
///
/// It keeps its results, a journal of the calls that had an effect, and its events. Contracts see the list of those
/// calls, with the values of each report; all that the future tells is a function of that list. (After Qt's
/// QFutureInterface and QPromise.)
#[derive(Drop)]
pub struct FutureCore<V> {
    thresholds: Thresholds,
    book: Book,
    store: ResultStore<V>,
    failure: Option<Failure>,
}

impl<V> Model for FutureCore<V> {
    ghost use Rattle.qtc_future.specs.Future.{Future};
    ghost use Rattle.qtc_future.specs.Core.{seen, IsKept};

    ghost Value = { Future V };

    ghost view = { λ s. seen s.thresholds s.book s.store s.failure };

    ghost invariant = { λ s. IsKept (seen s.thresholds s.book s.store s.failure) s.book s.store s.failure };
}

impl<V> FutureCore<V> {
    ghost use Rattle.std.specs.Prelude.{◌≡◌, [], None, IfOk, IsOk, IsSome, IsTrue, option_copied, slice_get, map};
    ghost use Rattle.qtc_events.specs.Flags.{flags_in};
    ghost use Rattle.qtc_store.specs.Stored.{value_at, count_of, ranges_of, AreRangesOf};
    ghost use Rattle.qtc_base.specs.Ranges.{bounds_of};
    ghost use Rattle.qtc_future.specs.Future.{new_future, journal_of, flags_of, accounted_of, results_of, events_of};
    ghost use Rattle.qtc_future.specs.Steps.{has_ended, reached_by};
    ghost use Rattle.qtc_future.specs.Legal.{IsLegal};
    ghost use Rattle.qtc_future.specs.Ends.{replay_of, IsOutcome, IsEnd};

    /// A future that nobody has called yet; a threshold of 0 is none. It takes the room that `start`, `cancel`,
    /// `fail` and `finish` will need. Err is want of memory.
    pub fn new(
        alloc: Global,
        filter: bool,
        cancel_after: u32,
        suspend_after: u32,
    ) -> Result<FutureCore<V>, NoMemory>
        ensures { IfOk result (λ core. core ≡ new_future filter cancel_after suspend_after) }
    {
        Ok(FutureCore {
            thresholds: Thresholds {
                cancel_after,
                suspend_after,
            },
            book: Book::new(alloc)?,
            store: ResultStore::new(alloc, filter),
            failure: None,
        })
    }

    /// The flags that stand.
    pub fn flags(&self) -> Flags
        ensures { flags_in result.bits ≡ flags_of self.now }
    {
        self.book.flags()
    }

    /// The result at `index`, which in filter mode is a position.
    pub fn get(&self, index: u32) -> Option<&V>
        ensures { option_copied result ≡ value_at (results_of self.now) index }
    {
        self.store.get(index)
    }

    /// The results from 0 on without a gap, or in filter mode the visible ones.
    pub fn count(&self) -> u32
        ensures { result ≡ count_of (results_of self.now) }
    {
        self.store.count()
    }

    /// How many results are accounted for; the number stands still at its type's end.
    pub fn accounted(&self) -> u32
        ensures { result ≡ accounted_of self.now }
    {
        self.book.accounted()
    }

    /// The calls that had an effect, in order.
    pub fn journal(&self) -> &[Entry]
        ensures journal { result.now ≡ journal_of self.now }
        ensures legal { IsLegal self.now }
    {
        self.book.journal()
    }

    /// All events so far, in order.
    pub fn events(&self) -> &[Event]
        ensures { result.now ≡ events_of self.now }
    {
        self.book.events()
    }

    /// The event at `cursor`, from 0; None exactly at or past their number.
    pub fn event_at(&self, cursor: u64) -> Option<Event>
        ensures { result ≡ slice_get (events_of self.now) cursor }
    {
        self.book.events().get(cursor as usize).copied()
    }

    /// The ranges of the accepted batches, or in filter mode the positions of the visible batches that have
    /// values, ascending. Err is want of memory.
    pub fn batches(&self) -> Result<List<Range>, NoMemory>
        ensures ranges { IfOk result (λ ranges. map bounds_of ranges ≡ ranges_of (results_of self.now)) }
        ensures just { IfOk result (λ ranges. AreRangesOf (results_of self.now) (map bounds_of ranges)) }
    {
        self.store.batches()
    }

    /// What a watcher is told that connects now. Err is want of memory, and there is none where there is nothing to
    /// tell.
    pub fn replay(&self) -> Result<List<Event>, NoMemory>
        ensures ok { IfOk result (λ events. events ≡ replay_of self.now) }
        ensures sure { replay_of self.now ≡ [] → IsOk result }
    {
        let ranges = self.store.batches()?;
        replay(self.book.allocator(), self.book.flags(), ranges.as_slice())
    }

    /// What the future comes to as it stands: its failure, else that it was canceled, else its results from 0 on
    /// without a gap. Err is want of memory, and drops the future.
    pub fn into_outcome(self) -> Result<Outcome<V>, NoMemory>
    where
        V: Drop,
        ensures { IfOk result (IsOutcome self) }
    {
        let FutureCore {
            thresholds: _,
            book,
            store,
            failure,
        } = self;
        if let Some(failure) = failure {
            return Ok(Outcome::Failed(failure));
        }
        if book.flags().is_canceled() {
            return Ok(Outcome::Canceled);
        }
        Ok(Outcome::Values(store.into_results()?))
    }

    /// The flags, where Canceled or Finished stands.
    fn ended(&self) -> Option<Flags>
        ensures { IsEnd self.now result }
    {
        let flags = self.book.flags();
        if flags.is_canceled() || flags.is_finished() {
            Some(flags)
        } else {
            None
        }
    }

    /// The threshold that the call reaches, where it has an effect.
    fn reached(&self, call: &Call) -> Reached
        ensures { result ≡ reached_by self.now call.now }
    {
        let before = self.book.accounted();
        let after = accounted_after(before, call);
        self.thresholds.reached(self.book.flags(), before, after)
    }
}

impl<V> FutureCore<V> {
    ghost use Rattle.std.specs.Prelude.{◌≡◌, [], OnErr, OnOk, IfOk, IsTrue};
    ghost use Rattle.qtc_events.specs.Calls.{has_effect};
    ghost use Rattle.qtc_future.specs.Future.{flags_of};
    ghost use Rattle.qtc_future.specs.Steps.{by_row, logged_by, reached_by, step, told_by, with_call, Effect};
    ghost use Rattle.qtc_future.specs.Answering.{IsStep, IsTry};
    ghost use Rattle.qtc_future.specs.Ends.{is_free, is_plain};
    ghost use Rattle.qtc_future.specs.declared.requests.Request.TheVariants as request;

    /// Starts the future: true exactly where it had an effect.
    pub fn start(&mut self, caller: u32) -> bool
        ensures { IsStep (step self.old caller request.Start) self.new (Effect result) }
    {
        self.call(caller, Call::Start)
    }

    /// Cancels the future: true exactly where it had an effect.
    pub fn cancel(&mut self, caller: u32) -> bool
        ensures { IsStep (step self.old caller request.Cancel) self.new (Effect result) }
    {
        self.call(caller, Call::Cancel)
    }

    /// Finishes the future: true exactly where it had an effect.
    pub fn finish(&mut self, caller: u32) -> bool
        ensures { IsStep (step self.old caller request.Finish) self.new (Effect result) }
    {
        self.call(caller, Call::Finish)
    }

    /// Cancels the future and keeps which item failed: true exactly where it had an effect.
    pub fn fail(&mut self, caller: u32, index: u32, item: Bytes) -> bool
        ensures { IsStep (step self.old caller (request.Fail index item)) self.new (Effect result) }
    {
        let call = Call::Fail { index };
        let fails = call.has_effect(self.book.flags());
        if fails {
            self.failure = Some(Failure { index, item });
            let entry = Entry {
                caller,
                call,
                reached: Reached::Nothing,
            };
            self.book.enter(self.store.is_filter(), entry, 0, 0);
        }
        fails
    }

    /// Asks to suspend the work, or to resume it: true exactly where it had an effect. Err is want of memory.
    pub fn set_suspended(&mut self, caller: u32, on: bool) -> Result<bool, NoMemory>
        ensures { IsTry self.old (step self.old caller (request.SetSuspended on)) Effect self.new result }
    {
        let call = if on { Call::Suspend } else { Call::Resume };
        self.try_call(caller, call)
    }

    /// Tells that the work stands still: true exactly where it had an effect. Err is want of memory.
    pub fn report_suspended(&mut self, caller: u32) -> Result<bool, NoMemory>
        ensures { IsTry self.old (step self.old caller request.ReportSuspended) Effect self.new result }
    {
        self.try_call(caller, Call::ReportSuspended)
    }

    /// Accounts for `total` indexes that have no result of their own. Err is want of memory.
    pub fn account(&mut self, caller: u32, total: u32) -> Result<Reply, NoMemory>
        ensures { IsTry self.old (step self.old caller (request.Account total)) told_by self.new result }
    {
        if let Some(flags) = self.ended() {
            return Ok(Reply::Dropped(flags));
        }
        let reached = self.try_log(caller, Call::Account { total })?;
        Ok(Reply::Counted { reached })
    }

    /// Makes a call for which room is kept.
    fn call(&mut self, caller: u32, call: Call) -> bool
        requires { IsTrue (is_free call) }
        ensures { IsStep (by_row self.old caller call []) self.new (Effect result) }
    {
        let effect = call.has_effect(self.book.flags());
        if effect {
            let entry = Entry {
                caller,
                call,
                reached: Reached::Nothing,
            };
            self.book.enter(self.store.is_filter(), entry, 0, 0);
        }
        effect
    }

    /// Makes a call that may want memory. Err is that.
    fn try_call(&mut self, caller: u32, call: Call) -> Result<bool, NoMemory>
        requires { IsTrue (is_plain call) }
        ensures { IsTry self.old (by_row self.old caller call []) Effect self.new result }
    {
        let effect = call.has_effect(self.flags());
        if effect {
            self.try_log(caller, call)?;
        }
        Ok(effect)
    }

    /// Logs an effective call that carries nothing. Err is want of memory.
    fn try_log(&mut self, caller: u32, call: Call) -> Result<Reached, NoMemory>
        requires plain { IsTrue (is_plain call) }
        requires effect { IsTrue (has_effect (flags_of self.old) call) }
        ensures ok { OnOk result (self.new ≡ with_call self.old (logged_by self.old caller call [] [])) }
        ensures reached { IfOk result (λ reached. reached ≡ reached_by self.old call) }
        ensures err { OnErr result (self.new ≡ self.old) }
    {
        let reached = self.reached(&call);
        self.book.reserve()?;
        let entry = Entry {
            caller,
            call,
            reached,
        };
        self.book.enter(self.store.is_filter(), entry, 0, 0);
        Ok(reached)
    }
}

impl<V: Drop> FutureCore<V> {
    ghost use Rattle.std.specs.Prelude.{◌≡◌, ◌≤◌, true, false, OnErr, IfOk, IsOk, IsSome, IsTrue, length};
    ghost use Rattle.qtc_store.specs.Batches.{least_covered};
    ghost use Rattle.qtc_store.specs.Stored.{batch_with};
    ghost use Rattle.qtc_future.specs.Future.{results_of};
    ghost use Rattle.qtc_future.specs.Steps.{has_ended, judged, step, told_by};
    ghost use Rattle.qtc_future.specs.Answering.{IsStep, IsTry, is_idle};
    ghost use Rattle.qtc_future.specs.declared.requests.Request.TheVariants as request;

    /// Stores results for the indexes from `begin` to `begin + total`. Err is want of memory.
    pub fn report_batch(
        &mut self,
        caller: u32,
        begin: u32,
        values: List<V>,
        total: u32,
    ) -> Result<Reply, NoMemory>
        requires few { length values ≤ total }
        requires whole { self.old.filter ≡ false → length values ≡ total }
        ensures { IsTry self.old (step self.old caller (request.ReportBatch begin values total)) told_by
            self.new result }
    {
        if let Some(flags) = self.ended() {
            return Ok(Reply::Dropped(flags));
        }
        self.offer(caller, begin, values, total)
    }

    /// Stores one result at `index`, or where the last batch ends. Err is want of memory.
    pub fn add_result(
        &mut self,
        caller: u32,
        index: Option<u32>,
        value: V,
    ) -> Result<Reply, NoMemory>
        requires { self.old.filter ≡ true → IsSome index }
        ensures { IsTry self.old (step self.old caller (request.AddResult index value)) told_by self.new result }
    {
        if let Some(flags) = self.ended() {
            return Ok(Reply::Dropped(flags));
        }
        let begin = index.unwrap_or(self.store.insert_index());
        match single(self.book.allocator(), value) {
            Ok(values) => self.offer(caller, begin, values, 1),
            Err(NoMemory) => self.lacking(begin, 1),
        }
    }

    /// What a batch is answered for which memory lacks: why the store refuses it, where it does. Else Err.
    fn lacking(&self, begin: u32, total: u32) -> Result<Reply, NoMemory>
        ensures { result ≡ lacking_at (results_of self.now) begin total }
    {
        refused(self.store.refusal(begin, total).unwrap_or(AddFault::Memory))
    }

    /// Offers a batch to the store. Err is want of memory.
    fn offer(
        &mut self,
        caller: u32,
        begin: u32,
        values: List<V>,
        total: u32,
    ) -> Result<Reply, NoMemory>
        requires few { length values ≤ total }
        requires whole { self.old.filter ≡ false → length values ≡ total }
        requires going { has_ended self.old ≡ false }
        ensures ok { let batch = batch_with begin values total in
            let covered = least_covered (results_of self.old).batches begin total in
            IfOk result (λ reply. IsStep (judged self.old caller batch covered) self.new (told_by reply)) }
        ensures err { OnErr result (self.new ≡ self.old) }
        ensures sure { let batch = batch_with begin values total in
            let covered = least_covered (results_of self.old).batches begin total in
            IsTrue (is_idle (judged self.old caller batch covered).told) → IsOk result }
    {
        let call = Call::Report {
            begin,
            kept: values.len() as u32,
            total,
        };
        let reached = self.reached(&call);
        let Ok(()) = self.book.reserve() else {
            return self.lacking(begin, total);
        };
        match self.store.add_batch(begin, values, total) {
            Ok(added) => {
                if total > 0 {
                    let entry = Entry {
                        caller,
                        call,
                        reached,
                    };
                    let filter = self.store.is_filter();
                    self.book
                        .enter(filter, entry, added.old_count, added.new_count);
                }
                Ok(Reply::Accepted { added, reached })
            }
            Err(fault) => refused(fault),
        }
    }
}

/// What a refused batch is answered. Err is want of memory.
fn refused(fault: AddFault) -> Result<Reply, NoMemory>
    ensures { result ≡ refused_by fault }
{
    match fault {
        AddFault::Taken(index) => Ok(Reply::Taken(index)),
        AddFault::PastEnd => Ok(Reply::PastEnd),
        AddFault::Memory => Err(NoMemory),
    }
}

/// A list of one value. Err is want of memory.
fn single<V: Drop>(alloc: Global, value: V) -> Result<List<V>, NoMemory>
    ensures { IfOk result (λ values. values ≡ value ∷ []) }
{
    let mut values = List::new(alloc);
    match values.push(value) {
        Ok(()) => Ok(values),
        Err(_value) => Err(NoMemory),
    }
}
