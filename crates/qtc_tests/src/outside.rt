ghost use Rattle.std.specs.Prelude.{◌≡◌, codes, IfOk, Some};
ghost use Rattle.qtc_outside.specs.SureSink.{sure_intake};

use qtc_base::{Bytes, List, NoMemory};
use qtc_outside::{
    Failed, FileTexts, LoadFault, MemSink, MemTexts, Sink, StdSink, SureSink, SureTexts, Texts,
    WriteFault, read_text, write_all,
};
use std::alloc::Global;
use std::fs;
use std::test::Fail;

fn shelf(alloc: Global, pairs: &[(&[u8], &[u8])]) -> Result<List<(Bytes, Bytes)>, NoMemory> {
    let mut texts = List::new(alloc);
    for (name, text) in pairs {
        let pair = (
            Bytes::from_slice(alloc, name)?,
            Bytes::from_slice(alloc, text)?,
        );
        if texts.push(pair).is_err() {
            return Err(NoMemory);
        }
    }
    Ok(texts)
}

fn numbers(alloc: Global, calls: &[u64]) -> Result<List<u64>, NoMemory> {
    let mut list = List::new(alloc);
    for call in calls {
        if list.push(*call).is_err() {
            return Err(NoMemory);
        }
    }
    Ok(list)
}

// Whether the load ends so: with this text, or with this fault.
fn loads<T: Texts>(
    alloc: Global,
    texts: &mut T,
    name: &[u8],
    limit: u64,
    want: Result<&[u8], LoadFault>,
) -> bool {
    match (read_text(alloc, texts, name, limit), want) {
        (Ok(text), Ok(bytes)) => text.as_slice() == bytes,
        (Err(fault), Err(other)) => fault == other,
        _ => false,
    }
}

#[test]
fn texts_are_loaded_up_to_the_limit(rt: HostRuntime) -> Result<(), Fail> {
    let alloc = rt.alloc();
    let held = shelf(alloc, &[(b"t", b"abcde"), (b"none", b""), (b"t", b"later")])?;
    let mut texts = MemTexts::new(held, 2, List::new(alloc));
    for (name, limit, want) in [
        (b"t".as_slice(), 5, Ok(b"abcde".as_slice())),
        (b"t", 4, Err(LoadFault::TooLong)),
        (b"t", u64::MAX, Ok(b"abcde")),
        (b"none", 0, Ok(b"")),
        (b"t", 0, Err(LoadFault::TooLong)),
        (b"missing", 5, Err(LoadFault::Read)),
    ] {
        assert!(rt;
            loads(alloc, &mut texts, name, limit, want),
            "at limit {limit}"
        );
    }
    Ok(())
}

#[test]
fn loads_fail_at_the_planned_calls(rt: HostRuntime) -> Result<(), Fail> {
    let alloc = rt.alloc();
    // A load of five bytes by twos takes five calls: the choice, and reads of 2, 2, 1 and 0.
    let held = shelf(alloc, &[(b"t", b"abcde")])?;
    let mut texts = MemTexts::new(held, 2, numbers(alloc, &[0, 3, 13])?);
    for want in [
        Err(LoadFault::Read),
        Err(LoadFault::Read),
        Ok(b"abcde".as_slice()),
        Err(LoadFault::Read),
        Ok(b"abcde"),
    ] {
        assert!(rt; loads(alloc, &mut texts, b"t", 5, want));
    }
    Ok(())
}

#[test]
fn sure_texts_hold_every_name(rt: HostRuntime) -> Result<(), Fail> {
    let alloc = rt.alloc();
    let mut texts = SureTexts::new(shelf(alloc, &[(b"t", b"abcde"), (b"t", b"later")])?);
    for (name, limit, want) in [
        (b"t".as_slice(), 5, Ok(b"abcde".as_slice())),
        (b"t", 4, Err(LoadFault::TooLong)),
        (b"missing", 0, Ok(b"")),
    ] {
        assert!(rt;
            loads(alloc, &mut texts, name, limit, want),
            "at limit {limit}"
        );
    }
    Ok(())
}

#[test]
fn files_are_loaded_by_path(rt: HostRuntime) -> Result<(), Fail> {
    let alloc = rt.alloc();
    fs::write(&rt, "held.txt", b"abcde".as_slice())?;
    fs::create_dir(&rt, "folder")?;
    let mut texts = FileTexts::new(rt);
    for (name, limit, want) in [
        (b"held.txt".as_slice(), 5, Ok(b"abcde".as_slice())),
        (b"held.txt", 4, Err(LoadFault::TooLong)),
        (b"missing.txt", 5, Err(LoadFault::Read)),
        (b"folder", 5, Err(LoadFault::Read)),
        (b"held\xff.txt", 5, Err(LoadFault::Read)),
        (b"held\x00.txt", 5, Err(LoadFault::Read)),
        (b"", 5, Err(LoadFault::Read)),
    ] {
        assert!(rt;
            loads(alloc, &mut texts, name, limit, want),
            "at a name of {}",
            name.len()
        );
    }
    Ok(())
}

#[test]
fn a_sink_gets_a_front_where_a_write_fails(rt: HostRuntime) -> Result<(), Fail> {
    let mut sink = MemSink::new(rt.alloc(), 4, numbers(rt.alloc(), &[1, 4])?);
    assert_eq!(rt; write_all(&mut sink, b""), Ok(()));
    assert_eq!(rt;
        write_all(&mut sink, b"job a finished 0\n"),
        Err(WriteFault { taken: 4 })
    );
    assert_eq!(rt; sink.text(), b"job ".as_slice());
    assert_eq!(rt; write_all(&mut sink, b"abcde"), Ok(()));
    assert_eq!(rt; sink.write(b"x"), Err(Failed));
    assert_eq!(rt; sink.write(b"abcde"), Ok(4));
    assert_eq!(rt; sink.text(), b"job abcdeabcd".as_slice());
    Ok(())
}

// A sink that got a piece as long as its room, and tells it.
fn filled(alloc: Global) -> Result<SureSink, NoMemory>
    ensures { IfOk result (λ sink. (sure_intake sink).got ≡ Some (codes "abc")) }
{
    let mut sink = SureSink::new(alloc, 3)?;
    let _taken = sink.write(b"abc");
    Ok(sink)
}

#[test]
fn sure_sinks_take_every_piece_whole(rt: HostRuntime) -> Result<(), Fail> {
    let mut sink = filled(rt.alloc())?;
    assert_eq!(rt; sink.write(b"defg"), Ok(4));
    assert_eq!(rt; write_all(&mut sink, b"hijkl"), Ok(()));
    Ok(())
}

#[test]
fn the_standard_error_takes_a_piece(rt: HostRuntime) {
    let mut sink = StdSink::new(&rt, true);
    assert_eq!(rt;
        write_all(
            &mut sink,
            b"A test wrote this line to the standard error.\n"
        ),
        Ok(())
    );
}
