ghost use Rattle.std.specs.Prelude.{◌≡◌, ◌+◌, ◌++◌, ◌≤◌, ◌==◌, not, filter, OnOk, length};
ghost use Rattle.std.specs.Vec.{vec_len, vec_capacity};
ghost use Rattle.qtc_pool_core.specs.Steps.{taken_back};
ghost use Rattle.qtc_pool_core.specs.Slots.{tasks_in};
ghost use Rattle.qtc_base.specs.Limits.{most_threads};

use crate::queue::Queue;
use crate::task::Task;
use crate::{
    MOST_RESERVED, MOST_THREADS, PoolEntry, ReleaseFault, ReserveFault, StartFault, TryFault,
};
use qtc_base::NoMemory;
use std::alloc::Global;
use std::marker::Model;

/// The pool of one thread: a queue of tasks, the ids of those that run, a limit and a number of reserved threads.
///
/// A task may run where fewer threads than the limit are running or reserved, or where none runs. The next one is the
/// first of greatest priority. A journal has an entry for each change. Contracts see the queue in order of arrival, and
/// the journal replays to what they see. (After QThreadPool; the ids and the refusals are own.)
#[derive(Drop)]
pub struct PoolCore<K> {
    first: u32,
    queue: Queue<K>,
    running: Vec<u32>,
    reserved: u32,
    max: u32,
    journal: Vec<PoolEntry>,
    spare: usize,
}

impl<K> Model for PoolCore<K> {
    ghost use Rattle.qtc_pool_core.specs.Core.{Core};

    ghost Value = { Core K };

    ghost use Rattle.qtc_pool_core.specs.Inside.{IsKept};
    ghost use Rattle.qtc_pool_core.specs.Slots.{tasks_in};

    ghost view = { λ s. record {
      first = s.first;
      queue = tasks_in s.queue.slots;
      running = s.running.items;
      reserved = s.reserved;
      max = s.max;
      journal = s.journal.items;
      spare = s.spare;
    } };

    ghost invariant = { λ s. IsKept (record {
      first = s.first;
      queue = tasks_in s.queue.slots;
      running = s.running.items;
      reserved = s.reserved;
      max = s.max;
      journal = s.journal.items;
      spare = s.spare;
    }) s.queue s.running s.journal };
}

impl<K> PoolCore<K> {
    ghost use Rattle.std.specs.Prelude.{◌≡◌, ◌≢◌, ◌≤◌, ◌<◌, ◌↔◌, ◌⊎◌, true, false, Some, None, IfSome, IfNone, IsSome, IsTrue, OnSome, [], length};
    ghost use Rattle.std.specs.Bool.{OnTrue, OnFalse};
    ghost use Rattle.qtc_pool_core.specs.Core.{new_core, pool_of, without, work_of, Replays};
    ghost use Rattle.qtc_pool_core.specs.Machine.{is_known, is_running, may_run};
    ghost use Rattle.qtc_base.specs.Limits.{most_reserved, most_threads};
    ghost use Rattle.qtc_pool_core.specs.Steps.{Steps};
    ghost use Rattle.qtc_pool_core.specs.Inside.{owed};
    ghost use Rattle.qtc_pool_core.specs.declared.entries.PoolEntry.TheVariants as entry;

    /// A pool of 1 to 1,024 threads that nobody has called yet. It takes no memory.
    pub fn new(alloc: Global, max: u32) -> PoolCore<K>
        requires { (0 < max) × (max ≤ most_threads) }
        ensures { result ≡ new_core max }
    {
        PoolCore {
            first: max,
            queue: Queue::new(alloc),
            running: Vec::new(alloc),
            reserved: 0,
            max,
            journal: Vec::new(alloc),
            spare: 0,
        }
    }

    /// How many tasks run.
    pub fn running(&self) -> u32
        ensures count { result ≡ length self.now.running }
        ensures few { result ≤ most_threads }
    {
        self.running.len() as u32
    }

    /// How many threads are reserved.
    pub fn reserved(&self) -> u32
        ensures count { result ≡ self.now.reserved }
        ensures few { result ≤ most_reserved }
    {
        self.reserved
    }

    /// How many threads the pool may have.
    pub fn max(&self) -> u32
        ensures limit { result ≡ self.now.max }
        ensures few { (0 < result) × (result ≤ most_threads) }
    {
        self.max
    }

    /// What was done, in order: from an empty pool of the first limit, which is 1 to 1,024, it leaves this pool.
    pub fn journal(&self) -> &[PoolEntry]
        ensures journal { result.now ≡ self.now.journal }
        ensures replays { Replays self.now }
        ensures few { (0 < self.now.first) × (self.now.first ≤ most_threads) }
    {
        self.journal.as_slice()
    }

    /// Whether a task with this id waits or runs.
    fn is_known(&self, id: u32) -> bool
        ensures { result ≡ is_known id (pool_of self.now) }
    {
        self.queue.contains(id) || self.running.as_slice().contains(&id)
    }

    /// Whether a task may run: a thread is free for it, or none runs.
    fn may_run(&self) -> bool
        ensures { result ≡ may_run (pool_of self.now) }
    {
        let running = self.running.len() as u32;
        running + self.reserved < self.max || running == 0
    }

    /// The task that is next, which then runs; None exactly where none waits or none may run.
    pub fn take_next(&mut self) -> Option<(u32, K)>
        ensures may { IsSome result ↔ ((self.old.queue ≢ []) × IsTrue (may_run (pool_of self.old))) }
        ensures took { IfSome result (λ task.
            Steps self.old (entry.Took task.0) (without task.0 self.old.queue) self.new) }
        ensures work { IfSome result (λ task. work_of task.0 self.old.queue ≡ Some task.1) }
        ensures none { IfNone result (self.new ≡ self.old) }
        ensures spare { self.old.spare ≤ self.new.spare }
    {
        if !self.may_run() {
            return None;
        }
        let Some(task) = self.queue.take_head() else {
            return None;
        };
        let Task {
            id,
            priority: _,
            work,
        } = task;
        self.running.push_reserved(id);
        self.journal.push_reserved(PoolEntry::Took { id });
        Some((id, work))
    }

    /// Ends a running task; false exactly where the id isn't running, and then nothing changes.
    pub fn done(&mut self, id: u32) -> bool
        ensures was { result ≡ is_running id (pool_of self.old) }
        ensures done { OnTrue result (Steps self.old (entry.Done id) self.old.queue self.new) }
        ensures same { OnFalse result (self.new ≡ self.old) }
        ensures spare { self.old.spare ≤ self.new.spare }
    {
        let ran = self.running.as_slice().contains(&id);
        if ran {
            remove_id(&mut self.running, id);
            self.journal.push_reserved(PoolEntry::Done { id });
        }
        ran
    }

    /// Takes a task back that waits; None exactly where the id isn't queued, and then nothing changes.
    pub fn try_take(&mut self, id: u32) -> Option<K>
        ensures work { result ≡ work_of id self.old.queue }
        ensures took { OnSome result (Steps self.old (entry.TookBack id) (without id self.old.queue) self.new) }
        ensures none { IfNone result (self.new ≡ self.old) }
        ensures spare { self.old.spare ≤ self.new.spare }
    {
        let Some(task) = self.queue.take(id) else {
            return None;
        };
        let Task {
            id: _,
            priority: _,
            work,
        } = task;
        self.journal.push_reserved(PoolEntry::TookBack { id });
        Some(work)
    }

    /// How many entries are owed: to the tasks that wait, to those that run, and to the starts for which there is room.
    fn owed(&self) -> usize
        ensures { result ≡ owed (length self.now.queue) (length self.now.running) self.now.spare }
    {
        let _capacity = self.journal.capacity();
        2 * self.queue.len() + self.running.len() + 3 * self.spare
    }
}

impl<K: Drop> PoolCore<K> {
    ghost use Rattle.std.specs.Prelude.{◌≡◌, ◌≢◌, ◌≤◌, ◌<◌, ◌-◌, ◌↔◌, max, false, Err, OnOk, OnErr, IfOk, IfErr, IsOk, IsTrue};
    ghost use Rattle.qtc_pool_core.specs.Core.{pool_of};
    ghost use Rattle.qtc_pool_core.specs.Machine.{is_known, may_run};
    ghost use Rattle.qtc_base.specs.Limits.{most_reserved, most_threads};
    ghost use Rattle.qtc_pool_core.specs.Steps.{cleared, queued, work_back, Steps, Tries};
    ghost use Rattle.qtc_pool_core.specs.declared.entries.PoolEntry.TheVariants as entry;

    /// Queues a task. `SameId` comes exactly where a task with this id waits or runs. Either refusal hands the work back
    /// and changes nothing. It takes the room that the task's later entries need.
    pub fn start(&mut self, id: u32, priority: i32, work: K) -> Result<(), StartFault<K>>
        ensures started { OnOk result
            (Steps self.old (entry.Started id priority) (queued self.old.queue id priority work) self.new) }
        ensures same_id { (result ≡ Err (StartFault.SameId work)) ↔ IsTrue (is_known id (pool_of self.old)) }
        ensures back { IfErr result (λ fault. work_back fault ≡ work) }
        ensures err { OnErr result (self.new ≡ self.old) }
        ensures room { 0 < self.old.spare → result ≢ Err (StartFault.Memory work) }
        ensures spare { OnOk result (self.new.spare ≡ self.old.spare - 1) }
    {
        if self.is_known(id) {
            return Err(StartFault::SameId(work));
        }
        let Ok(()) = self.reserve_queue() else {
            return Err(StartFault::Memory(work));
        };
        self.enter(Task { id, priority, work });
        Ok(())
    }

    /// Queues a task for which there is room, and whose id neither waits nor runs.
    fn enter(&mut self, task: Task<K>)
        requires new { is_known task.id (pool_of self.old) ≡ false }
        requires room { 0 < self.old.spare }
        ensures started { Steps self.old (entry.Started task.id task.priority)
            (queued self.old.queue task.id task.priority task.work) self.new }
        ensures spare { self.new.spare ≡ self.old.spare - 1 }
    {
        let id = task.id;
        let priority = task.priority;
        self.queue.push(task);
        self.journal
            .push_reserved(PoolEntry::Started { id, priority });
        self.spare -= 1;
    }

    /// Sees to it that the next `start` doesn't want memory, whatever its id. Err is want of memory.
    pub fn reserve_queue(&mut self) -> Result<(), NoMemory>
        ensures spare { OnOk result (self.new.spare ≡ max 1 self.old.spare) }
        ensures same { self.new ≡ record self.old { spare = self.new.spare } }
        ensures err { OnErr result (self.new ≡ self.old) }
        ensures room { 0 < self.old.spare → IsOk result }
    {
        if self.spare > 0 {
            return Ok(());
        }
        let owed = self.owed();
        reserve_entries(&mut self.journal, owed, 3)?;
        reserve_threads(&mut self.running)?;
        self.queue.reserve()?;
        self.spare = 1;
        Ok(())
    }

    /// Makes the id running where a task may run; false exactly where none may. `SameId` comes exactly where a task with
    /// this id waits or runs, before that. True leaves the work, and the call of `done`, to the caller.
    pub fn try_start(&mut self, id: u32) -> Result<bool, TryFault>
        ensures tried { Tries self.old id result self.new }
        ensures same_id { (result ≡ Err TryFault.SameId) ↔ IsTrue (is_known id (pool_of self.old)) }
        ensures may { IfOk result (λ may. may ≡ may_run (pool_of self.old)) }
        ensures full { may_run (pool_of self.old) ≡ false → result ≢ Err TryFault.Memory }
        ensures spare { self.old.spare ≤ self.new.spare }
    {
        if self.is_known(id) {
            return Err(TryFault::SameId);
        }
        if !self.may_run() {
            return Ok(false);
        }
        let owed = self.owed();
        let Ok(()) = reserve_entries(&mut self.journal, owed, 2) else {
            return Err(TryFault::Memory);
        };
        let Ok(()) = reserve_threads(&mut self.running) else {
            return Err(TryFault::Memory);
        };
        self.running.push_reserved(id);
        self.journal.push_reserved(PoolEntry::Tried { id });
        Ok(true)
    }

    /// Takes back all that waits, in order of arrival.
    pub fn clear(&mut self)
        ensures { self.new ≡ cleared self.old }
    {
        take_back(self.queue.slots(), &mut self.journal);
        self.queue.clear();
    }

    /// Reserves a thread, which no task has then. `TooMany` comes exactly where 65,536 are reserved.
    pub fn reserve(&mut self) -> Result<(), ReserveFault>
        ensures reserved { OnOk result (Steps self.old entry.Reserved self.old.queue self.new) }
        ensures too_many { (result ≡ Err ReserveFault.TooMany) ↔ (self.old.reserved ≡ most_reserved) }
        ensures err { OnErr result (self.new ≡ self.old) }
        ensures spare { self.old.spare ≤ self.new.spare }
    {
        if self.reserved == MOST_RESERVED {
            return Err(ReserveFault::TooMany);
        }
        let owed = self.owed();
        let Ok(()) = reserve_entries(&mut self.journal, owed, 1) else {
            return Err(ReserveFault::Memory);
        };
        self.reserved += 1;
        self.journal.push_reserved(PoolEntry::Reserved);
        Ok(())
    }

    /// Releases a reserved thread. `NotReserved` comes exactly where none is.
    pub fn release(&mut self) -> Result<(), ReleaseFault>
        ensures released { OnOk result (Steps self.old entry.Released self.old.queue self.new) }
        ensures not_reserved { (result ≡ Err ReleaseFault.NotReserved) ↔ (self.old.reserved ≡ 0) }
        ensures err { OnErr result (self.new ≡ self.old) }
        ensures spare { self.old.spare ≤ self.new.spare }
    {
        if self.reserved == 0 {
            return Err(ReleaseFault::NotReserved);
        }
        let owed = self.owed();
        let Ok(()) = reserve_entries(&mut self.journal, owed, 1) else {
            return Err(ReleaseFault::Memory);
        };
        self.reserved -= 1;
        self.journal.push_reserved(PoolEntry::Released);
        Ok(())
    }

    /// Gives the pool another limit, from 1 to 1,024. It stops no task. Err is want of memory.
    pub fn set_max(&mut self, max: u32) -> Result<(), NoMemory>
        requires { (0 < max) × (max ≤ most_threads) }
        ensures set { OnOk result (Steps self.old (entry.MaxSet max) self.old.queue self.new) }
        ensures err { OnErr result (self.new ≡ self.old) }
        ensures spare { self.old.spare ≤ self.new.spare }
    {
        let owed = self.owed();
        reserve_entries(&mut self.journal, owed, 1)?;
        self.max = max;
        self.journal.push_reserved(PoolEntry::MaxSet { max });
        Ok(())
    }
}

/// Sees to it that there is room for so many entries beside those that are owed. Err is want of memory.
fn reserve_entries(journal: &mut Vec<PoolEntry>, owed: usize, more: usize) -> Result<(), NoMemory>
    ensures items { journal.new.items ≡ journal.old.items }
    ensures capacity { vec_capacity journal.old ≤ vec_capacity journal.new }
    ensures ok { OnOk result (vec_len journal.new + owed + more ≤ vec_capacity journal.new) }
{
    let Some(additional) = owed.checked_add(more) else {
        return Err(NoMemory);
    };
    journal.reserve(additional)?;
    Ok(())
}

/// Sees to it that as many ids may run as a pool may have threads. Err is want of memory.
fn reserve_threads(running: &mut Vec<u32>) -> Result<(), NoMemory>
    requires { vec_len running.old ≤ most_threads }
    ensures items { running.new.items ≡ running.old.items }
    ensures capacity { vec_capacity running.old ≤ vec_capacity running.new }
    ensures ok { OnOk result (most_threads ≤ vec_capacity running.new) }
{
    running.reserve(MOST_THREADS as usize - running.len())?;
    Ok(())
}

/// Takes an id out.
fn remove_id(ids: &mut Vec<u32>, id: u32)
    ensures items { ids.new.items ≡ filter (λ other. not (other == id)) ids.old.items }
    ensures capacity { vec_capacity ids.new ≡ vec_capacity ids.old }
{
    ids.retain(|other| *other != id);
}

/// Journals that each task was taken back. There is room for it.
fn take_back<K>(slots: &[Option<Task<K>>], journal: &mut Vec<PoolEntry>)
    requires { vec_len journal.old + length (tasks_in slots.now) ≤ vec_capacity journal.old }
    ensures items { journal.new.items ≡ journal.old.items ++ taken_back (tasks_in slots.now) }
    ensures capacity { vec_capacity journal.new ≡ vec_capacity journal.old }
{
    for slot in slots {
        if let Some(task) = slot {
            journal.push_reserved(PoolEntry::TookBack { id: task.id });
        }
    }
}
