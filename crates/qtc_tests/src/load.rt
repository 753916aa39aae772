ghost use Rattle.std.specs.Prelude.{◌≤◌};

use qtc_base::{Bytes, List, NoMemory};
use qtc_job::BadJob;
use qtc_load::{FileFault, load_file, load_texts};
use qtc_outside::{LoadFault, MemTexts};
use std::alloc::Global;
use std::test::Fail;

const FILE: &[u8] =
    b"job a\ninput files u t u\nmap same\njob b\ninput lines t\nmap length\njob c\ninput job a\nmap same\n";

// A source of these texts, at most so many bytes a read; the calls of these numbers fail.
fn source(
    alloc: Global,
    texts: &[(&[u8], &[u8])],
    most: usize,
    fails: &[u64],
) -> Result<MemTexts, NoMemory>
    requires { 1 ≤ most }
{
    let mut pairs = List::new(alloc);
    for (name, text) in texts {
        let pair = (
            Bytes::from_slice(alloc, name)?,
            Bytes::from_slice(alloc, text)?,
        );
        if pairs.push(pair).is_err() {
            return Err(NoMemory);
        }
    }
    let mut calls = List::new(alloc);
    for call in fails {
        if calls.push(*call).is_err() {
            return Err(NoMemory);
        }
    }
    Ok(MemTexts::new(pairs, most, calls))
}

#[test]
fn a_file_and_its_texts_are_loaded(rt: HostRuntime) -> Result<(), Fail> {
    let alloc = rt.alloc();
    let held = [(b"f".as_slice(), FILE), (b"t", b"x\ny\n"), (b"u", b"")];
    let mut texts = source(alloc, &held, 3, &[])?;
    let Ok(file) = load_file(alloc, &mut texts, b"f") else {
        return Err(Fail::new("the file was not loaded"));
    };
    assert_eq!(rt; (file.workers, file.jobs.len()), (4, 3));
    let Ok(loaded) = load_texts(alloc, &mut texts, &file) else {
        return Err(Fail::new("the texts were not loaded"));
    };
    assert!(rt; loaded.get(b"t") == Some(b"x\ny\n".as_slice()));
    assert!(rt; loaded.get(b"u") == Some(b"".as_slice()));
    assert!(rt; loaded.get(b"f").is_none());
    Ok(())
}

// Why the file under the name f isn't loaded, or its first text isn't.
fn stopped(alloc: Global, file: &[u8], fails: &[u64]) -> Result<Option<FileFault>, NoMemory> {
    let mut texts = source(alloc, &[(b"f".as_slice(), file)], 5, fails)?;
    let file = match load_file(alloc, &mut texts, b"f") {
        Ok(file) => file,
        Err(fault) => return Ok(Some(fault)),
    };
    match load_texts(alloc, &mut texts, &file) {
        Ok(_) => Ok(None),
        Err(fault) => Ok(Some(FileFault::from(fault))),
    }
}

#[test]
fn what_stops_is_told(rt: HostRuntime) -> Result<(), Fail> {
    let alloc = rt.alloc();
    let bad = BadJob { line: 2, code: 1 };
    // The last has no text under the name that it names.
    for (file, fails, want) in [
        (b"# none\n".as_slice(), [9].as_slice(), None),
        (b"# none\nbogus\n", &[9], Some(FileFault::Bad(bad))),
        (b"# none\n", &[0], Some(FileFault::Read)),
        (
            b"job a\ninput lines t\nmap same\n",
            &[99],
            Some(FileFault::Read),
        ),
    ] {
        assert_eq!(rt; stopped(alloc, file, fails)?, want);
    }
    Ok(())
}

// A source of a text of so many bytes under the name f.
fn long_source(alloc: Global, length: usize) -> Result<MemTexts, NoMemory> {
    let mut text = Bytes::new(alloc);
    for _ in 0..length {
        text.append(b"#")?;
    }
    source(alloc, &[(b"f".as_slice(), text.as_slice())], 65_536, &[])
}

#[test]
fn a_file_is_too_long_from_one_byte_past_the_limit_on(rt: HostRuntime) -> Result<(), Fail> {
    let alloc = rt.alloc();
    let bad = BadJob { line: 1, code: 11 };
    for (length, want) in [
        (1_048_576, FileFault::Bad(bad)),
        (1_048_577, FileFault::TooLong),
    ] {
        let mut texts = long_source(alloc, length)?;
        assert!(rt; load_file(alloc, &mut texts, b"f").err() == Some(want));
    }
    Ok(())
}

#[test]
fn faults_of_loading_are_those_of_a_file(rt: HostRuntime) -> Result<(), Fail> {
    assert_eq!(rt; FileFault::from(LoadFault::TooLong), FileFault::TooLong);
    assert_eq!(rt; FileFault::from(LoadFault::Memory), FileFault::Memory);
    Ok(())
}
