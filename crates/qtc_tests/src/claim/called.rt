// Any number of threads claim from one counter, call a function on each index and list it. The clause of
// `call_each` says that the lists together have each index below n once.
ghost use Rattle.std.specs.Prelude.{◌≡◌, ℕ, ◌+◌, ◌<◌, ◌≤◌, ◌++◌, ◌∷◌, [], All, MatchResult, IfOk, OnOk, IsTrue, length};
ghost use Rattle.qtc_claim.specs.Claims.{IsWithinLimits, added, claims_of};
ghost use Rattle.qtc_claim.specs.Counter.{new_tally};
ghost use Rattle.qtc_base.specs.Limits.{most_block};
ghost use Rattle.qtc_claim.specs.Laws.{CallsRange, AllOk, AreCalls, EachOnce, NoneMissing, added_for};

use qtc_base::{NoMemory, Range};
use qtc_claim::{Counter, Piece, Seat, Tally};
use std::alloc::Global;
use std::sync::atomic::AtomicU64;
use std::sync::atomic::Ordering::SeqCst;
use std::test::Fail;
use std::thread::{Threads, map_vec};
use std::time::{SystemTime, UNIX_EPOCH};

// What a worker claims at once: a size that it picks anew each time.
#[derive(Drop, Clone, Copy)]
struct Sizes {
    least: u32,
    most: u32,
    seed: u64,
}

impl Sizes {
    fn same(size: u32) -> Sizes {
        Sizes {
            least: size,
            most: size,
            seed: 0,
        }
    }

    fn next(&mut self) -> u32
        ensures { (1 ≤ result) × (result ≤ most_block) }
    {
        self.seed = self
            .seed
            .wrapping_mul(6_364_136_223_846_793_005)
            .wrapping_add(1_442_695_040_888_963_407);
        let spread = (self.most.saturating_sub(self.least) as u64).min(65_535) + 1;
        let more = (self.seed >> 33) % spread;
        self.least.saturating_add(more as u32).clamp(1, 65_536)
    }
}

// What one worker did.
#[derive(Drop)]
struct Worked {
    seat: Seat,
    calls: Vec<u32>,
    pieces: Vec<Piece>,
}

// A call for each index of the range, and a list of them.
fn call_range<F: Fn(u32)>(range: Range, call: &F, calls: &mut Vec<u32>) -> Result<(), NoMemory>
    requires { F.IsAlwaysCallable call.now }
    ensures { OnOk result (CallsRange calls.old.items (range.begin, range.end) calls.new.items) }
{
    for index in range.begin..range.end {
        call(index);
        calls.push(index)?;
    }
    Ok(())
}

// Claims until there is nothing left, and calls on each index of what it got.
fn work<F: Fn(u32)>(
    alloc: Global,
    counter: &Counter,
    mut seat: Seat,
    mut sizes: Sizes,
    call: &F,
) -> Result<Worked, NoMemory>
    requires call { F.IsAlwaysCallable call.now }
    requires seat { (seat.of ≡ counter.now) × (seat.worker.claims ≡ []) }
    ensures seat { IfOk result (λ worked. worked.seat.of ≡ counter.now) }
    ensures past { IfOk result (λ worked. counter.now.n ≤ worked.seat.worker.seen) }
    ensures calls { IfOk result (λ worked. AreCalls counter.now.n worked.seat.worker.claims worked.calls.items) }
    ensures pieces { IfOk result (λ worked. All (λ piece. piece.of ≡ counter.now) worked.pieces.items) }
    ensures missing { IfOk result (λ w. NoneMissing counter.now.n w.seat.worker.claims (added_for w.pieces.items)) }
{
    let mut calls = Vec::new(alloc);
    let mut pieces = Vec::new(alloc);
    while let Some(piece) = counter.claim(&mut seat, sizes.next()) {
        call_range(piece.range(), call, &mut calls)?;
        pieces.push(piece)?;
    }
    Ok(Worked {
        seat,
        calls,
        pieces,
    })
}

// Gathers the pieces of one worker.
fn gather_pieces(counter: &Counter, tally: &mut Tally, mut pieces: Vec<Piece>)
    requires tally { tally.old.of ≡ counter.now }
    requires pieces { All (λ piece. piece.of ≡ counter.now) pieces.items }
    ensures same { (tally.new.of ≡ counter.now) × (tally.new.workers ≡ tally.old.workers) }
    ensures added { added tally.new.pieces ≡ added tally.old.pieces + added_for pieces.items }
{
    while let Some(piece) = pieces.pop() {
        tally.gather(counter, piece);
    }
}

// Gathers what one worker did, and puts its calls behind those before.
fn gather_one(
    counter: &Counter,
    tally: &mut Tally,
    worked: Worked,
    calls: &mut Vec<u32>,
) -> Result<(), NoMemory>
    requires tally { tally.old.of ≡ counter.now }
    requires seat { worked.seat.of ≡ counter.now }
    requires calls { AreCalls counter.now.n worked.seat.worker.claims worked.calls.items }
    requires pieces { All (λ piece. piece.of ≡ counter.now) worked.pieces.items }
    requires missing { NoneMissing counter.now.n worked.seat.worker.claims (added_for worked.pieces.items) }
    requires so_far { AreCalls counter.now.n (claims_of tally.old.workers) calls.old.items }
    requires none_yet { NoneMissing counter.now.n (claims_of tally.old.workers) (added tally.old.pieces) }
    ensures of { tally.new.of ≡ counter.now }
    ensures workers { tally.new.workers ≡ tally.old.workers ++ worked.seat.worker ∷ [] }
    ensures calls { OnOk result (AreCalls counter.now.n (claims_of tally.new.workers) calls.new.items) }
    ensures missing { OnOk result (NoneMissing counter.now.n (claims_of tally.new.workers) (added tally.new.pieces)) }
{
    let Worked {
        seat,
        calls: further,
        pieces,
    } = worked;
    tally.gather_seat(counter, seat);
    gather_pieces(counter, tally, pieces);
    calls.extend_from_slice(&further)?;
    Ok(())
}

// Gathers what all workers did. What they called is one list.
fn gather_all(
    alloc: Global,
    counter: &Counter,
    tally: &mut Tally,
    mut all: Vec<Result<Worked, NoMemory>>,
) -> Result<Vec<u32>, NoMemory>
    requires tally { tally.old ≡ new_tally counter.now }
    requires seats { AllOk (λ worked. worked.seat.of ≡ counter.now) all.items }
    requires past { AllOk (λ worked. counter.now.n ≤ worked.seat.worker.seen) all.items }
    requires calls { AllOk (λ worked. AreCalls counter.now.n worked.seat.worker.claims worked.calls.items) all.items }
    requires pieces { AllOk (λ worked. All (λ piece. piece.of ≡ counter.now) worked.pieces.items) all.items }
    requires missing { AllOk (λ w. NoneMissing counter.now.n w.seat.worker.claims (added_for w.pieces.items)) all.items }
    ensures of { OnOk result (tally.new.of ≡ counter.now) }
    ensures all { OnOk result (length tally.new.workers ≡ length all.items) }
    ensures past { OnOk result (All (λ worker. counter.now.n ≤ worker.seen) tally.new.workers) }
    ensures calls { IfOk result (λ calls. AreCalls counter.now.n (claims_of tally.new.workers) calls.items) }
    ensures missing { OnOk result (NoneMissing counter.now.n (claims_of tally.new.workers) (added tally.new.pieces)) }
{
    let mut calls = Vec::new(alloc);
    while let Some(told) = all.pop() {
        gather_one(counter, tally, told?, &mut calls)?;
    }
    Ok(calls)
}

/// As many threads as there are workers call `call` on each index below `n`. It gives all calls, worker by worker,
/// and whether the counter then says that it is at its end.
fn call_each<F: Fn(u32) + Sync, P: Fn(u64) -> Sizes + Sync, R: Threads + Sync>(
    rt: &R,
    alloc: Global,
    n: u32,
    workers: u32,
    pick: &P,
    call: &F,
) -> Result<(Vec<u32>, bool), NoMemory>
    requires limits { IsWithinLimits n workers }
    requires call { F.IsAlwaysCallable call.now × P.IsAlwaysCallable pick.now }
    ensures calls { IfOk result (λ told. EachOnce n told.0.items) }
    ensures ended { IfOk result (λ told. IsTrue told.1) }
{
    let (counter, seats, mut tally) = Counter::new(alloc, n, workers)?;
    let turns = AtomicU64::new(0);
    let all = map_vec(
        rt,
        seats,
        &|seat: Seat| -> Result<Worked, NoMemory>
            requires seat { (seat.of ≡ counter) × (seat.worker.claims ≡ []) }
            requires call { F.IsAlwaysCallable call.now × P.IsAlwaysCallable pick.now }
            ensures seat { IfOk result (λ worked. worked.seat.of ≡ counter) }
            ensures past { IfOk result (λ worked. counter.n ≤ worked.seat.worker.seen) }
            ensures calls { IfOk result (λ worked. AreCalls counter.n worked.seat.worker.claims worked.calls.items) }
            ensures pieces { IfOk result (λ worked. All (λ piece. piece.of ≡ counter) worked.pieces.items) }
            ensures missing { IfOk result (λ w. NoneMissing counter.n w.seat.worker.claims (added_for w.pieces.items)) }
        {
            let turn = turns.fetch_add(1, SeqCst);
            work(alloc, &counter, seat, pick(turn), call)
        },
    )?;
    let calls = gather_all(alloc, &counter, &mut tally, all)?;
    let ended = counter.end(&mut tally);
    Ok((calls, ended))
}

// Each of the first `n` numbers stands in the list once.
fn are_all(calls: &mut Vec<u32>, n: u32) -> Result<bool, NoMemory> {
    calls.sort()?;
    Ok(calls.iter().copied().eq(0..n))
}

#[test]
fn two_threads_call_each_of_100000_indexes_once(rt: HostRuntime) -> Result<(), Fail> {
    let hits = AtomicU64::new(0);
    let told = call_each(
        &rt,
        rt.alloc(),
        100_000,
        2,
        &|turn: u64| if turn == 0 {
            Sizes::same(1)
        } else {
            Sizes::same(7)
        },
        &|_index: u32| {
            hits.fetch_add(1, SeqCst);
        },
    );
    let Ok((mut calls, ended)) = told else {
        panic!(rt; "memory")
    };
    assert!(rt; ended);
    let all = are_all(&mut calls, 100_000);
    assert!(rt; matches!(all, Ok(true)));
    assert_eq!(rt; hits.load(SeqCst), 100_000);
    Ok(())
}

#[test]
fn eight_threads_pick_sizes_anew_and_call_each_index_once(rt: HostRuntime) -> Result<(), Fail> {
    let seed = SystemTime::now(&rt)?
        .duration_since(UNIX_EPOCH)
        .map_or(1, |since| since.subsec_nanos() as u64);
    println!(rt; "seed {seed}")?;
    let hits = AtomicU64::new(0);
    let told = call_each(
        &rt,
        rt.alloc(),
        100_000,
        8,
        &|turn: u64| Sizes {
            least: 1,
            most: 500,
            seed: seed.wrapping_add(turn),
        },
        &|_index: u32| {
            hits.fetch_add(1, SeqCst);
        },
    );
    let Ok((mut calls, ended)) = told else {
        panic!(rt; "memory")
    };
    assert!(rt; ended);
    let all = are_all(&mut calls, 100_000);
    assert!(rt; matches!(all, Ok(true)));
    assert_eq!(rt; hits.load(SeqCst), 100_000);
    Ok(())
}
