ghost use Rattle.std.specs.Prelude.{◌≡◌, [], ◌∷◌, IfOk};

mod compared;
mod plain;

use qtc_base::{List, NoMemory, Range};
use qtc_store::{AddFault, Added, Addition, ResultStore};
use std::alloc::Global;
use std::test::Fail;

fn list(alloc: Global, values: &[u8]) -> Result<List<u8>, NoMemory>
    ensures { IfOk result (λ list. list ≡ values.now) }
{
    let values = Vec::from_slice(alloc, values)?;
    Ok(List::from_vec(values))
}

fn added(begin: u32, old_count: u32, new_count: u32) -> Added {
    Added {
        begin,
        old_count,
        new_count,
    }
}

/// The lines of the README's first use.
#[test]
fn first_use(rt: HostRuntime) -> Result<(), Fail> {
    let alloc = rt.alloc();
    let mut store = ResultStore::new(alloc, true);
    let added = store.add_batch(4, list(alloc, b"e")?, 2)?;
    assert_eq!(rt;
        added,
        Added {
            begin: 4,
            old_count: 0,
            new_count: 0
        }
    );
    store.add_batch(0, list(alloc, b"")?, 2)?;
    assert_eq!(rt; store.get(0), None);
    let added = store.add_batch(2, list(alloc, b"cd")?, 2)?;
    assert_eq!(rt;
        added,
        Added {
            begin: 2,
            old_count: 0,
            new_count: 3
        }
    );
    assert_eq!(rt; store.get(2), Some(&b'e'));
    let results = store.into_results()?;
    assert_eq!(rt; results.as_slice(), b"cde".as_slice());
    Ok(())
}

#[test]
fn positions_are_told_batch_by_batch(rt: HostRuntime) -> Result<(), Fail> {
    let alloc = rt.alloc();
    let mut store = ResultStore::new(alloc, true);
    assert!(rt; store.is_filter());
    assert_eq!(rt;
        store.add_batch(4, list(alloc, b"e")?, 2),
        Ok(added(4, 0, 0))
    );
    assert_eq!(rt;
        store.add_batch(0, list(alloc, b"")?, 2),
        Ok(added(0, 0, 0))
    );
    assert_eq!(rt; store.insert_index(), 6);
    assert_eq!(rt;
        store.add_batch(2, list(alloc, b"cd")?, 2),
        Ok(added(2, 0, 3))
    );
    assert_eq!(rt; store.count(), 3);
    assert_eq!(rt; store.get(3), None);
    let batches = store.batches()?;
    let want = [Range { begin: 0, end: 2 }, Range { begin: 2, end: 3 }];
    assert_eq!(rt; batches.as_slice(), want.as_slice());
    Ok(())
}

#[test]
fn covered_indexes_are_refused(rt: HostRuntime) -> Result<(), Fail> {
    let alloc = rt.alloc();
    let mut store = ResultStore::new(alloc, false);
    assert_eq!(rt;
        store.add_batch(3, list(alloc, b"xy")?, 2),
        Ok(added(3, 0, 0))
    );
    assert_eq!(rt;
        store.add_batch(2, list(alloc, b"pq")?, 2),
        Err(AddFault::Taken(3))
    );
    assert!(rt; !store.contains(2) && store.contains(3));
    assert_eq!(rt; store.add(None, b'z'), Ok(added(5, 0, 0)));
    assert_eq!(rt; store.get(4), Some(&b'y'));
    assert_eq!(rt; store.count(), 0);
    let batches = store.batches()?;
    let want = [Range { begin: 3, end: 5 }, Range { begin: 5, end: 6 }];
    assert_eq!(rt; batches.as_slice(), want.as_slice());
    Ok(())
}

#[test]
fn batches_end_within_the_limit(rt: HostRuntime) -> Result<(), Fail> {
    let alloc = rt.alloc();
    let mut store = ResultStore::new(alloc, false);
    assert_eq!(rt;
        store.add_batch(8_388_607, list(alloc, b"xy")?, 2),
        Err(AddFault::PastEnd)
    );
    assert_eq!(rt;
        store.add_batch(8_388_607, list(alloc, b"x")?, 1),
        Ok(added(8_388_607, 0, 0))
    );
    assert_eq!(rt; store.add(None, b'y'), Err(AddFault::PastEnd));
    assert_eq!(rt; store.add(Some(u32::MAX), b'y'), Err(AddFault::PastEnd));
    Ok(())
}

#[test]
fn the_least_covered_index_is_named(rt: HostRuntime) -> Result<(), Fail> {
    let alloc = rt.alloc();
    let mut store = ResultStore::new(alloc, false);
    assert_eq!(rt;
        store.add_batch(0, list(alloc, b"ab")?, 2),
        Ok(added(0, 0, 2))
    );
    assert_eq!(rt;
        store.add_batch(1, list(alloc, b"c")?, 1),
        Err(AddFault::Taken(1))
    );
    assert_eq!(rt;
        store.add_batch(0, list(alloc, b"c")?, 1),
        Err(AddFault::Taken(0))
    );
    assert_eq!(rt;
        store.add_batch(1, list(alloc, b"cde")?, 3),
        Err(AddFault::Taken(1))
    );
    assert_eq!(rt;
        store.add_batch(1, list(alloc, b"")?, 0),
        Ok(added(1, 2, 2))
    );
    let results = store.into_results()?;
    assert_eq!(rt; results.as_slice(), b"ab".as_slice());
    Ok(())
}

fn addition(alloc: Global, begin: Option<u32>, value: u8) -> Result<Addition<u8>, NoMemory>
    ensures { IfOk result (λ a. (a.begin ≡ begin) × (a.values ≡ value ∷ []) × (a.total ≡ 1)) }
{
    let values = list(alloc, &[value])?;
    Ok(Addition {
        begin,
        values,
        total: 1,
    })
}

#[test]
fn refused_additions_leave_no_trace(rt: HostRuntime) -> Result<(), Fail> {
    let alloc = rt.alloc();
    let first = addition(alloc, Some(1), b'b')?;
    let again = addition(alloc, Some(1), b'x')?;
    let last = addition(alloc, None, b'c')?;
    let front = addition(alloc, Some(0), b'a')?;
    let additions = vec![in alloc; first, again, last, front]?;
    let store = ResultStore::from_additions(alloc, false, additions)?;
    assert_eq!(rt; store.count(), 3);
    let results = store.into_results()?;
    assert_eq!(rt; results.as_slice(), b"abc".as_slice());
    Ok(())
}
