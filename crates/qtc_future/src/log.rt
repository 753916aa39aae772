use qtc_base::NoMemory;
use std::alloc::Global;
use std::marker::Model;

/// A list that knows how much it can grow without memory.
#[derive(Drop)]
pub(crate) struct Log<T> {
    items: Vec<T>,
}

impl<T> Model for Log<T> {
    ghost use Rattle.std.specs.Prelude.{◌-◌, vec_len, vec_capacity};
    ghost use Rattle.qtc_future.specs.Log.{Logs};

    ghost Value = { Logs T };

    ghost view = { λ s. record { items = s.items.items; room = vec_capacity s.items - vec_len s.items } };
}

impl<T: Drop> Log<T> {
    ghost use Rattle.std.specs.Prelude.{◌≡◌, ◌+◌, ◌<◌, ◌≤◌, [], ◌∷◌, ◌++◌, IfOk, OnOk, OnErr, option_to_list, length};

    /// The empty list, which can take `room` items. Err is want of memory.
    pub(crate) fn new(alloc: Global, room: usize) -> Result<Log<T>, NoMemory>
        ensures items { IfOk result (λ log. log.items ≡ []) }
        ensures room { IfOk result (λ log. room ≤ log.room) }
    {
        let items = Vec::with_capacity(alloc, room)?;
        Ok(Log { items })
    }

    /// Makes room for that many items. Err is want of memory.
    pub(crate) fn reserve(&mut self, room: usize) -> Result<(), NoMemory>
        ensures items { self.new.items ≡ self.old.items }
        ensures ok { OnOk result (room ≤ self.new.room) }
        ensures room { self.old.room ≤ self.new.room }
    {
        self.items.reserve(room)?;
        Ok(())
    }

    /// Appends an item, for which there is room.
    pub(crate) fn push(&mut self, item: T)
        requires { 0 < self.old.room }
        ensures items { self.new.items ≡ self.old.items ++ item ∷ [] }
        ensures room { self.old.room ≤ self.new.room + 1 }
    {
        let _pushed = self.items.push(item);
    }

    /// Appends the item, where there is one.
    pub(crate) fn push_some(&mut self, item: Option<T>)
        requires { length (option_to_list item) ≤ self.old.room }
        ensures items { self.new.items ≡ self.old.items ++ option_to_list item }
        ensures room { self.old.room ≤ self.new.room + length (option_to_list item) }
    {
        if let Some(item) = item {
            self.push(item);
        }
    }

    pub(crate) fn as_slice(&self) -> &[T]
        ensures { result.now ≡ self.now.items }
    {
        self.items.as_slice()
    }

    pub(crate) fn allocator(&self) -> Global {
        *self.items.allocator()
    }
}
