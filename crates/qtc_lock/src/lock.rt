//! The lock: one word, which is 1 while the value is out, and one slot for the value.
ghost use Rattle.std.specs.Prelude.{◌≡◌, true, [], ◌∷◌, IfOk, IfErr, None};

use crate::key::{GhostKey, Keyed, Names};
use crate::pauses::{PAUSES, pause};
use crate::rule::{LockRule, Put, Try, View};
use crate::sleepers::Sleepers;
use atomic_table::{Refused, Seat, Table};
use std::alloc::Global;
use std::marker::Model;
use std::sync::Wait;
use std::sync::atomic::AtomicU64;

/// A lock with one key for good. A value that is not `Drop` leaves it by `close`.
#[derive(Drop)]
pub struct KeyLock<S: Keyed> {
    table: Table<Option<S>, View<S::Key>, GhostKey<S::Key>, LockRule<S>, Global>,
    sleepers: Sleepers,
}

impl<S: Keyed> Model for KeyLock<S> {
    ghost use Rattle.std.specs.Prelude.{◌≡◌};
    ghost use Rattle.qtc_lock.specs.Lock.{Lock};

    ghost Value = { Lock S.Key };

    ghost view = { λ lock. record { table = lock.table.shared.table_id; key = lock.table.shared.key.key } };

    ghost invariant = { λ lock. (lock.table.shared.table_id.words ≡ 1) × (lock.table.shared.table_id.slots ≡ 1) };
}

/// The right to put a value back, which one `take` has given and one `put` ends. It has no bytes.
pub struct Hold<S: Keyed> {
    seat: Seat<Option<S>, View<S::Key>>,
}

impl<S: Keyed> Model for Hold<S> {
    ghost use Rattle.std.specs.Prelude.{◌≡◌, [], ◌∷◌, None};
    ghost use Rattle.qtc_lock.specs.Lock.{Lock};
    ghost use Rattle.qtc_lock.specs.Rule.{holding};

    ghost Value = { Lock S.Key };

    ghost view = { λ hold. record { table = hold.seat.table_id; key = hold.seat.me.0.key } };

    ghost invariant = { λ hold. hold.seat.me ≡ (holding hold.seat.me.0.key, (0, None) ∷ []) };
}

impl<S: Keyed> KeyLock<S> {
    ghost use Rattle.qtc_lock.specs.Lock.{IsIdle, IsHolding, HasValue};

    /// A lock over the value, under the key that `N` names. `Err` is want of memory, and hands the value back.
    pub fn new<N: Names<S::Key>>(alloc: Global, value: S) -> Result<KeyLock<S>, S>
        requires named { N.named ≡ true }
        requires fits { S.fits N.key value }
        ensures ok { IfOk result (λ lock. lock.key ≡ N.key) }
        ensures err { IfErr result (λ back. back ≡ value) }
    {
        let Some(sleepers) = Sleepers::new(alloc) else {
            return Err(value);
        };
        let Ok(mut slots) = Vec::with_capacity(alloc, 1) else {
            return Err(value);
        };
        slots.push_reserved(Some(value));
        let key = GhostKey::named();
        match Table::new(alloc, &[0], slots, &key) {
            Ok((table, _seat)) => Ok(KeyLock { table, sleepers }),
            Err(Refused { slots }) => Err(only(slots)),
        }
    }

    /// The value, and the right to put one back. While the value is out, it pauses a few times, looking again after each,
    /// and then sleeps until a `put` wakes it.
    pub fn take<R: Wait>(&self, rt: &R) -> (S, Hold<S>)
        ensures fits { S.fits self.now.key result.0 }
        ensures hold { result.1 ≡ self.now }
    {
        let (found, seat) = self.table.shared.swap_new_seat::<Try>(0, 1);
        if found == 0 {
            self.gain(seat)
        } else {
            self.gain(self.wait(rt, seat))
        }
    }

    // Takes the value out of the slot, which the seat has.
    fn gain(&self, mut seat: Seat<Option<S>, View<S::Key>>) -> (S, Hold<S>)
        requires { HasValue S.fits self.now seat }
        ensures fits { S.fits self.now.key result.0 }
        ensures hold { result.1 ≡ self.now }
    {
        let value = self.table.shared.exchange(&mut seat, 0, None).unwrap();
        (value, Hold { seat })
    }

    // Tries with one seat, however often, since the view of each new seat would stay in the rule for good.
    fn wait<R: Wait>(
        &self,
        rt: &R,
        mut seat: Seat<Option<S>, View<S::Key>>,
    ) -> Seat<Option<S>, View<S::Key>>
        requires { IsIdle self.now seat }
        ensures { HasValue S.fits self.now result }
    {
        let mut pauses = 0;
        for _ in rt.forever() {
            pauses = self.back_off(rt, pauses);
            if self.table.shared.peek(0) == 0
                && self.table.shared.swap::<Try>(&mut seat, 0, 1) == 0
            {
                return seat;
            }
        }
        unreachable!()
    }

    // Pauses, and counts the pauses; after the last it sleeps while the word is 1, and then counts anew. Who has put a
    // value back asks for sleepers after that, so either it finds this one, or this one finds the word 0.
    fn back_off<R: Wait>(&self, rt: &R, pauses: u32) -> u32 {
        if pauses < PAUSES {
            pause(pauses);
            return pauses + 1;
        }
        self.sleepers.enter();
        self.table.shared.park(rt, 0, 1);
        self.sleepers.leave();
        0
    }

    /// Gives the lock a value again, for whoever takes it next, and wakes one thread that sleeps in `take`. It takes no
    /// memory and waits for nobody; where nobody sleeps it makes no call of the system.
    pub fn put(&self, value: S, hold: Hold<S>)
        requires fits { S.fits self.now.key value }
        requires hold { hold ≡ self.now }
    {
        let Hold { seat } = hold;
        self.give(value, seat);
        if self.sleepers.any() {
            self.table.shared.wake_one(0);
        }
    }

    // Lays the value into the slot, and gives the slot back. The seat that it answers shows that it did.
    fn give(
        &self,
        value: S,
        mut seat: Seat<Option<S>, View<S::Key>>,
    ) -> Seat<Option<S>, View<S::Key>>
        requires fits { S.fits self.now.key value }
        requires seat { IsHolding self.now seat }
        ensures { IsIdle self.now result }
    {
        let out = self.table.shared.exchange(&mut seat, 0, Some(value));
        let None = out else { unreachable!() };
        self.table.shared.store::<Put>(&mut seat, 0, 0);
        seat
    }

    /// Ends the lock, and gives its value. Where a `Hold` was never put back it waits for ever, as `take` would.
    pub fn close<R: Wait>(self, rt: &R) -> S
        ensures { S.fits self.key result }
    {
        let KeyLock { table, sleepers: _ } = self;
        let mut closed = table.close();
        if closed.word(0) == 0 {
            let value = closed.take(0).unwrap();
            closed.free();
            return value;
        }
        let never = AtomicU64::new(0);
        for _ in rt.forever() {
            never.park(rt, 0);
        }
        unreachable!()
    }
}

// The value of the one slot.
fn only<S>(mut slots: Vec<Option<S>>) -> S
    requires { (value : S) × (slots.items ≡ Some value ∷ []) }
    ensures { slots.items ≡ Some result ∷ [] }
{
    let value = slots.pop().unwrap().unwrap();
    slots.destroy_empty();
    value
}
