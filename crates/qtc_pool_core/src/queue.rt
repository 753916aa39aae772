ghost use Rattle.std.specs.Prelude.{◌≡◌, ◌+◌, ◌-◌, ◌<◌, ◌≤◌, ◌==◌, ℕ, ℤ, true, false, [], ◌∷◌, ◌++◌, Some, None, OnOk, IfOk, IfNone, IfSome, MatchOption, All, length, slice_get, slice_set};
ghost use Rattle.std.specs.BinaryHeap.{heap_items, heap_len};
ghost use Rattle.std.specs.List.{list_any};
ghost use Rattle.std.specs.Option.{option_map};
ghost use Rattle.std.specs.declared.cmp.Reverse.{Reverse};
ghost use Rattle.qtc_pool_core.specs.Inside.{DropsTop, IsTop};
ghost use Rattle.qtc_pool_core.specs.Slots.{holders, place_of, tasks_in, HasTask, IsFilled, IsHeadAt};

use crate::task::Task;
use qtc_base::NoMemory;
use std::alloc::Global;
use std::cmp::Reverse;
use std::collections::{BinaryHeap, HashMap};
use std::marker::Model;
use std::mem::replace;

// How many slots more a wider queue has than twice its tasks.
const MORE_SLOTS: usize = 16;

/// The tasks that wait, in order of arrival, each found by its id and by its rank.
///
/// A task that is taken leaves a gap in the slots, and its rank in the heap. Both are gone when the slots are full: then
/// the tasks move to a wider queue, which has room for as many again. So memory is linear in the tasks that wait.
#[derive(Drop)]
pub(crate) struct Queue<K> {
    slots: Vec<Option<Task<K>>>,
    places: HashMap<u32, usize>,
    ranks: BinaryHeap<(i32, Reverse<usize>)>,
    count: usize,
}

impl<K> Model for Queue<K> {
    ghost use Rattle.qtc_pool_core.specs.Slots.{Row};

    ghost Value = { Row K };

    ghost use Rattle.qtc_pool_core.specs.Inside.{row_of, IsLaid};

    ghost view = { λ s. row_of s.slots };

    ghost invariant = { λ s. IsLaid s.slots s.places s.ranks s.count };
}

impl<K> Queue<K> {
    ghost use Rattle.qtc_pool_core.specs.Core.{ticket_of, tickets, without, work_of};
    ghost use Rattle.qtc_pool_core.specs.Machine.{head_of};

    /// The empty queue, which takes no memory yet.
    pub(crate) fn new(alloc: Global) -> Queue<K>
        ensures { result ≡ record { slots = []; room = 0 } }
    {
        Queue {
            slots: Vec::new(alloc),
            places: HashMap::new(alloc),
            ranks: BinaryHeap::new(alloc),
            count: 0,
        }
    }

    /// How many tasks wait.
    pub(crate) fn len(&self) -> usize
        ensures { result ≡ length (tasks_in self.now.slots) }
    {
        self.count
    }

    /// Where the task with this id stands.
    fn place(&self, id: u32) -> Option<usize>
        ensures { result ≡ place_of id self.now.slots }
    {
        self.places.get(&id).copied()
    }

    /// Whether a task with this id waits.
    pub(crate) fn contains(&self, id: u32) -> bool
        ensures { result ≡ list_any (λ ticket. ticket.id == id) (tickets (tasks_in self.now.slots)) }
    {
        self.places.contains_key(&id)
    }

    /// The tasks in order of arrival, among gaps.
    pub(crate) fn slots(&self) -> &[Option<Task<K>>]
        ensures slots { result.now ≡ self.now.slots }
        ensures once { (id : ℕ) → holders id result.now ≤ 1 }
    {
        self.slots.as_slice()
    }

    /// Queues a task. There is room for it, and its id does not wait.
    pub(crate) fn push(&mut self, task: Task<K>)
        requires new { list_any (λ ticket. ticket.id == task.id) (tickets (tasks_in self.old.slots)) ≡ false }
        requires room { 0 < self.old.room }
        ensures slots { self.new.slots ≡ self.old.slots ++ Some task ∷ [] }
        ensures room { self.new.room + 1 ≡ self.old.room }
    {
        let place = self.slots.len();
        let rank = (task.priority, Reverse(place));
        let placed: Result<_, _> = self.places.insert(task.id, place);
        let _before = placed.unwrap();
        let ranked: Result<_, _> = self.ranks.push(rank);
        ranked.unwrap();
        self.slots.push_reserved(Some(task));
        self.count += 1;
    }

    /// Where the first task of greatest priority stands; None exactly where no task waits.
    fn head_place(&mut self) -> Option<usize>
        ensures same { self.new ≡ self.old }
        ensures head { MatchOption result (tasks_in self.old.slots ≡ []) (IsHeadAt self.old.slots) }
    {
        while let Some(place) = top_place(&self.ranks) {
            if self.slots[place].is_some() {
                return Some(place);
            }
            drop_top(&mut self.ranks);
        }
        None
    }

    /// Takes the task at a place, which has one.
    fn take_out(&mut self, place: usize) -> Task<K>
        requires { IsFilled self.old.slots place }
        ensures task { HasTask self.old.slots place result }
        ensures rest { tasks_in self.new.slots ≡ without result.id (tasks_in self.old.slots) }
        ensures work { work_of result.id (tasks_in self.old.slots) ≡ Some result.work }
        ensures room { self.new.room ≡ self.old.room }
    {
        let task = self.slots[place].take().unwrap();
        self.places.remove(&task.id);
        self.count -= 1;
        task
    }

    /// Takes the first task of greatest priority; None exactly where no task waits.
    pub(crate) fn take_head(&mut self) -> Option<Task<K>>
        ensures head { option_map ticket_of result ≡ head_of (tickets (tasks_in self.old.slots)) }
        ensures none { IfNone result (tasks_in self.old.slots ≡ []) }
        ensures work { IfSome result (λ task. work_of task.id (tasks_in self.old.slots) ≡ Some task.work) }
        ensures rest { MatchOption result (self.new ≡ self.old)
            (λ task. tasks_in self.new.slots ≡ without task.id (tasks_in self.old.slots)) }
        ensures room { self.new.room ≡ self.old.room }
    {
        let place = self.head_place()?;
        Some(self.take_out(place))
    }

    /// Takes the task with this id; None exactly where none waits.
    pub(crate) fn take(&mut self, id: u32) -> Option<Task<K>>
        ensures work { option_map (λ task. task.work) result ≡ work_of id (tasks_in self.old.slots) }
        ensures rest { MatchOption result (self.new ≡ self.old)
            (λ task. tasks_in self.new.slots ≡ without id (tasks_in self.old.slots)) }
        ensures room { self.new.room ≡ self.old.room }
    {
        let Some(place) = self.place(id) else {
            return None;
        };
        Some(self.take_out(place))
    }
}

impl<K: Drop> Queue<K> {
    /// The empty queue with room for so many tasks.
    fn with_room(alloc: Global, room: usize) -> Result<Queue<K>, NoMemory>
        ensures empty { IfOk result (λ queue. tasks_in queue.slots ≡ []) }
        ensures room { IfOk result (λ queue. queue.room ≡ room) }
    {
        Ok(Queue {
            slots: Vec::with_capacity(alloc, room)?,
            places: HashMap::with_capacity(alloc, room)?,
            ranks: BinaryHeap::with_capacity(alloc, room)?,
            count: 0,
        })
    }

    /// Sees to it that there is room for a task. Err is want of memory.
    pub(crate) fn reserve(&mut self) -> Result<(), NoMemory>
        ensures tasks { tasks_in self.new.slots ≡ tasks_in self.old.slots }
        ensures room { self.old.room ≤ self.new.room }
        ensures ok { OnOk result (0 < self.new.room) }
    {
        if self.slots.len() < self.slots.capacity() {
            return Ok(());
        }
        let Some(twice) = self.count.checked_mul(2) else {
            return Err(NoMemory);
        };
        let Some(room) = twice.checked_add(MORE_SLOTS) else {
            return Err(NoMemory);
        };
        let wide = Queue::with_room(*self.slots.allocator(), room)?;
        let Queue {
            slots,
            places: _,
            ranks: _,
            count: _,
        } = replace(self, wide);
        self.adopt(slots);
        Ok(())
    }

    /// Queues tasks, in their order.
    fn adopt(&mut self, slots: Vec<Option<Task<K>>>)
        requires empty { tasks_in self.old.slots ≡ [] }
        requires once { (id : ℕ) → holders id slots.items ≤ 1 }
        requires room { length (tasks_in slots.items) < self.old.room }
        ensures tasks { tasks_in self.new.slots ≡ tasks_in slots.items }
        ensures room { self.new.room + length (tasks_in slots.items) ≡ self.old.room }
    {
        for slot in slots {
            if let Some(task) = slot {
                self.push(task);
            }
        }
    }

    /// Drops all tasks, and keeps the room that there is.
    pub(crate) fn clear(&mut self)
        ensures tasks { tasks_in self.new.slots ≡ [] }
        ensures room { self.new.room ≡ self.old.room }
    {
        empty_all(self.slots.as_mut_slice());
        self.places.clear();
        self.ranks.clear();
        self.count = 0;
    }
}

/// The place of the greatest rank.
fn top_place(ranks: &BinaryHeap<(i32, Reverse<usize>)>) -> Option<usize>
    ensures { MatchOption result (heap_items ranks.now ≡ [])
        (λ place. (rank : ℤ × Reverse ℕ) × (rank.1.0 ≡ place) × IsTop ranks.now rank) }
{
    let (_, Reverse(place)) = ranks.peek()?;
    Some(*place)
}

/// Drops the greatest rank.
fn drop_top(ranks: &mut BinaryHeap<(i32, Reverse<usize>)>)
    requires { 0 < heap_len ranks.old }
    ensures { DropsTop ranks.old ranks.new }
{
    let _top = ranks.pop().unwrap();
}

/// Empties each slot.
fn empty_all<K: Drop>(slots: &mut [Option<Task<K>>])
    ensures { All (λ slot. slot ≡ None) slots.new }
{
    for slot in slots.iter_mut() {
        *slot = None;
    }
}
