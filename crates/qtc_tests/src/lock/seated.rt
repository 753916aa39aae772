// A table of words, and a lock beside it whose value has a seat at that table.
ghost use Rattle.std.specs.Prelude.{◌≡◌, ℕ, ◌≤◌, true, IfOk, IfSome};
ghost use Rattle.std.specs.Borrow.{ftrue};
ghost use Rattle.atomic_table.specs.Seated.{TableId, table_id_coded};

use atomic_table::{Play, Seat, Table, TableRule};
use qtc_lock::{KeyLock, Keyed, Names};
use std::alloc::Global;
use std::marker::{Brand, Model};
use std::sync::Wait;
use std::test::Fail;

// No rule, and steps that tell nothing.
struct Free;

impl TableRule<(), (), ()> for Free {
    ghost holds = { λ _ _. Unit {0} };

    ghost first = { λ _. tt };
}

impl Play<(), ()> for Free {
    ghost then = { λ _ _ _ _. Unit {0} };
}

type Words = Table<(), (), (), Free, Global>;

// Which table the seat is of, and where the count began. No value of it is made.
struct Place {
    pub ghost table: { TableId } by { table_id_coded },
    pub ghost start: { ℕ },
}

impl Model for Place {
    ghost also_owns = { λ _. ftrue };
}

impl Names<Place> for Brand {
    ghost use Rattle.std.specs.Prelude.{false};
    ghost use Rattle.qtc_lock.specs.Lock.{no_table};

    ghost key = { record { table = no_table; start = 0 } };

    ghost named = { false };
}

#[derive(Drop)]
struct Counter {
    seat: Seat<(), ()>,
    count: u64,
}

impl Keyed for Counter {
    type Key = Place;

    ghost fits = { λ place counter. (counter.seat.table_id ≡ place.table) × (place.start ≤ counter.count) };
}

// A word, and a counter of the steps on it.
#[derive(Drop)]
struct Tally {
    words: Words,
    lock: KeyLock<Counter>,
    ghost sized: { words.shared.table_id.words ≡ 1 },
    ghost beside: { lock.key.table ≡ words.shared.table_id },
}

// The value does not tell the start. So the caller's own name of a key has it.
fn locked<J: Names<Place>>(
    alloc: Global,
    counter: Counter,
    start: u64,
) -> Result<KeyLock<Counter>, Counter>
    requires named { J.named ≡ true }
    requires place { (J.key.table ≡ counter.seat.table_id) × (J.key.start ≡ start) }
    requires started { start ≤ counter.count }
    ensures { IfOk result (λ lock. (lock.key.table ≡ counter.seat.table_id) × (lock.key.start ≡ start)) }
{
    KeyLock::new::<Brand>(alloc, counter)
}

impl Tally {
    fn new(alloc: Global, words: Words, seat: Seat<(), ()>, start: u64) -> Option<Tally>
        requires { (words.shared.table_id.words ≡ 1) × (seat.table_id ≡ words.shared.table_id) }
        ensures { IfSome result (λ tally. tally.lock.key.start ≡ start) }
    {
        let counter = Counter { seat, count: start };
        match locked::<Brand>(alloc, counter, start) {
            Ok(lock) => Some(Tally { words, lock }),
            Err(_) => None,
        }
    }

    // Adds one to the word, by the seat under the lock, and gives the word as it was with the count before.
    fn step<R: Wait>(&self, rt: &R) -> (u64, u64)
        ensures { self.now.lock.key.start ≤ result.1 }
    {
        let (mut counter, hold) = self.lock.take(rt);
        let found = self.words.shared.fetch_add::<Free>(&mut counter.seat, 0, 1);
        let count = counter.count;
        counter.count = count.saturating_add(1);
        self.lock.put(counter, hold);
        (found, count)
    }
}

#[test]
fn a_seat_comes_back_as_one_of_its_table(rt: HostRuntime) -> Result<(), Fail> {
    let (words, seat) = Words::of_words(rt.alloc(), &[5], &())?;
    let Some(tally) = Tally::new(rt.alloc(), words, seat, 70) else {
        panic!(rt; "memory")
    };
    let first = tally.step(&rt);
    let second = tally.step(&rt);
    assert_eq!(rt; first, (5, 70));
    assert_eq!(rt; second, (6, 71));
    Ok(())
}
