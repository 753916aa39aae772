// Engines with one worker: its blocks are those of the sizes in turn, and its journal is known call by call.
use crate::tests::engines::{filter_all, map_all};
use crate::tests::gives;
use qtc_base::Bytes;
use qtc_events::{Call, Entry, Reached};
use qtc_future::{FutureCore, Outcome};
use qtc_ops::MapOp;
use std::test::Fail;

fn entry(caller: u32, call: Call) -> Entry {
    Entry {
        caller,
        call,
        reached: Reached::Nothing,
    }
}

// Whether the future was started, took just these reports (begin, kept, total), and was finished. The worker has pass
// 0, and the board reports with pass 1.
fn reported(core: &FutureCore<Bytes>, reports: &[(u32, u32, u32)]) -> bool {
    let [first, between @ .., last] = core.journal() else {
        return false;
    };
    between.len() == reports.len()
        && *first == entry(0, Call::Start)
        && *last == entry(0, Call::Finish)
        && between.iter().zip(reports).all(|(logged, (begin, kept, total))| {
            *logged
                == entry(
                    1,
                    Call::Report {
                        begin: *begin,
                        kept: *kept,
                        total: *total,
                    },
                )
        })
}

#[test]
fn one_worker_maps_block_by_block(rt: HostRuntime) -> Result<(), Fail> {
    for (text, sizes, reports) in [
        (b"".as_slice(), [1].as_slice(), [].as_slice()),
        (b"abcde", [65_536].as_slice(), [(0, 5, 5)].as_slice()),
        (
            b"abcde",
            [2].as_slice(),
            [(0, 2, 2), (2, 2, 2), (4, 1, 1)].as_slice(),
        ),
        (
            b"abcde",
            [2, 1].as_slice(),
            [(0, 2, 2), (2, 1, 1), (3, 2, 2)].as_slice(),
        ),
        (
            b"abcd",
            [1, 3].as_slice(),
            [(0, 1, 1), (1, 3, 3)].as_slice(),
        ),
    ] {
        let (core, calls) = map_all(&rt, rt.alloc(), MapOp::Same, text, 1, sizes)?;
        assert_eq!(rt; calls.len(), text.len());
        assert!(rt; reported(&core, reports));
        assert_eq!(rt; core.flags().bits, 6);
        assert!(rt; gives(core, text)?);
    }
    Ok(())
}

#[test]
fn one_worker_filters_block_by_block(rt: HostRuntime) -> Result<(), Fail> {
    for (not, text, kept, sizes, reports) in [
        (
            false,
            b"aaaaaaa".as_slice(),
            b"".as_slice(),
            [3].as_slice(),
            [(0, 0, 3), (3, 0, 3), (6, 0, 1)].as_slice(),
        ),
        (
            true,
            b"bxabc",
            b"babc",
            [2].as_slice(),
            [(0, 1, 2), (2, 2, 2), (4, 1, 1)].as_slice(),
        ),
        (
            false,
            b"axxbx",
            b"xxx",
            [1, 2].as_slice(),
            [(0, 0, 1), (1, 2, 2), (3, 0, 1), (4, 1, 1)].as_slice(),
        ),
    ] {
        let (core, _calls) = filter_all(&rt, rt.alloc(), not, b'x', text, 1, sizes)?;
        assert!(rt; reported(&core, reports));
        assert!(rt; gives(core, kept)?);
    }
    Ok(())
}

// The journal ends with a failure at the first bad item, its block not reported, and the outcome is that failure.
#[test]
fn one_worker_fails_with_the_first_bad_item(rt: HostRuntime) -> Result<(), Fail> {
    for (text, sizes, reports, index, item) in [
        (b"1x".as_slice(), [65_536].as_slice(), 0, 1, b"x"),
        (b"1x", [1].as_slice(), 1, 1, b"x"),
        (b"123x5y", [2].as_slice(), 1, 3, b"x"),
        (b"y12", [1].as_slice(), 0, 0, b"y"),
    ] {
        let (core, calls) = map_all(&rt, rt.alloc(), MapOp::Number, text, 1, sizes)?;
        let journal = core.journal();
        assert_eq!(rt; calls.len(), index as usize + 1);
        assert_eq!(rt; journal.len(), reports + 3);
        assert_eq!(rt;
            journal.get(reports + 1),
            Some(&entry(0, Call::Fail { index }))
        );
        assert_eq!(rt; journal.get(reports + 2), Some(&entry(0, Call::Finish)));
        assert_eq!(rt; core.flags().bits, 14);
        let Outcome::Failed(failure) = core.into_outcome()? else {
            panic!(rt; "not failed")
        };
        assert_eq!(rt; failure.index, index);
        assert!(rt; failure.item.as_slice() == item.as_slice());
    }
    Ok(())
}
