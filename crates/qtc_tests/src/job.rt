use qtc_base::{Bytes, NoMemory};
use qtc_job::{BadJob, MOST_JOB_FILE, ParseFault, parse, print};
use std::alloc::Global;
use std::test::Fail;

// The line and code with which the text is refused, or 0 0 where it is read; None at any other answer.
fn refused(alloc: Global, text: &[u8]) -> Option<(u32, u32)> {
    if text.len() > MOST_JOB_FILE {
        return None;
    }
    match parse(alloc, text) {
        Ok(_) => Some((0, 0)),
        Err(ParseFault::Bad(BadJob { line, code })) => Some((line, code)),
        Err(ParseFault::Memory) => None,
    }
}

// A job of two good lines after which these stand.
fn after_good(alloc: Global, lines: &[u8]) -> Result<Bytes, NoMemory> {
    let mut text = Bytes::from_slice(alloc, b"job a\ninput lines t\nmap same\n")?;
    text.append(lines)?;
    Ok(text)
}

#[test]
fn the_first_bad_pair_is_told(rt: HostRuntime) {
    for (text, line, code) in [
        (b"job a\ninput lines t\nmap samE\n".as_slice(), 3, 1),
        (b"job a\ninput lines\nmap same\n", 2, 2),
        (b"job a\ninput pieces x t\nmap same\n", 2, 3),
        (b"job a\ninput pieces 0 t\nmap same\n", 2, 4),
        (b"job a\ninput job b\nmap same\n", 2, 6),
        (b"job a\n", 1, 8),
        (b"job a\ninput lines t\n", 1, 9),
        (b"job a b\ninput lines t\nmap same\n", 1, 13),
        (b"job a\ninput lines t\\q\nmap same\n", 2, 14),
        (b"job a!\ninput lines t\nmap same\n", 1, 15),
        (b"map same\n", 1, 16),
        (b"job a\njob a\n", 1, 8),
        (b"map\njob a\n", 1, 2),
        (b"workers 0\nworkers 0 x\n", 1, 4),
        (b"job a b\n", 1, 8),
        (b"job\ninput lines t\nmap same", 1, 2),
        (b"input job a\n", 1, 6),
        (b"input lines t\n", 1, 16),
        (b"blocks 0\n", 1, 4),
        (
            b"workers 4\njob a\nworkers 4\ninput lines t\nmap same\n",
            3,
            5,
        ),
        (b"job a\nworkers 4\ninput lines t\nmap same\n", 2, 16),
        (b"workers 33", 1, 4),
        (b"workers 00000000032\nfoo", 1, 3),
        (b"workers 0000000032\nfoo", 2, 1),
        (b"job a\ninput job a\nmap same\n", 2, 6),
        (b"job a\ninput job a\\x41\nmap same\n", 2, 6),
        (b"job a\nfoo\ninput lines t\n", 1, 9),
        (b"job a\nfoo\ninput lines t\nmap same\n", 2, 1),
        (b"job a\ninput pieces x t\\q u\nfilter longer 1", 2, 3),
        (b"job a\ninput lines t\nfilter not not contains x\n", 3, 1),
        (b"job a\ninput lines t\nfilter not\n", 3, 2),
        (b"job a\ninput lines t\nfilter contains x\\X41\n", 3, 14),
        (b"job a\ninput lines t\nfilter contains x\\x4\n", 3, 14),
        (b"", 0, 0),
        (b" #\n\t\r\n#job\n", 0, 0),
        (b"job\ta \r\ninput  lines\tt\r\nmap same", 0, 0),
    ] {
        assert_eq!(rt;
            refused(rt.alloc(), text),
            Some((line, code)),
            "at a text of {}",
            text.len()
        );
    }
}

#[test]
fn a_line_more_is_told(rt: HostRuntime) -> Result<(), Fail> {
    for (lines, line, code) in [
        (b"".as_slice(), 0, 0),
        (b"map same\n", 4, 5),
        (b"job a\ninput lines t\nmap same\n", 4, 7),
        (b"filter contains x\n", 1, 9),
        (b"order ordered\n", 1, 10),
        (
            b"then sorted\nthen sorted\nthen sorted\nthen sorted\nthen sorted\nthen sorted\nthen sorted\nthen sorted\n",
            0,
            0,
        ),
        (
            b"then sorted\nthen sorted\nthen sorted\nthen sorted\nthen sorted\nthen sorted\nthen sorted\nthen sorted\nthen sorted\n",
            12,
            17,
        ),
        (b"blocks 0 x\n", 4, 3),
        (b"blocks 1 2 3 4 5 6 7 8 9 10 11 12 13 14 15 16\n", 0, 0),
        (b"blocks 1 2 3 4 5 6 7 8 9 10 11 12 13 14 15 16 x\n", 4, 13),
        (b"priority -2147483648\n", 0, 0),
        (b"priority -2147483649\n", 4, 4),
        (b"priority 2147483648\n", 4, 4),
        (b"priority -0\n", 0, 0),
        (b"priority --1\n", 4, 3),
        (b"priority +1\n", 4, 3),
        (b"cancel-after 8388609\n", 4, 4),
        (b"suspend-after 0\n", 4, 4),
        (b"watch x\n", 4, 13),
        (b"then first 0\n", 0, 0),
        (b"on-failed \\x41\\x\n", 4, 14),
        (
            b"job b\ninput all a\nmap same\njob c\ninput any b a a\nmap length\n",
            0,
            0,
        ),
        (
            b"job b\ninput all c\nmap same\njob c\ninput any b a\nmap length\n",
            5,
            6,
        ),
        (b"job b\nmap same\njob c\nfoo\n", 4, 8),
        (b"foo\njob b\nfilter\n", 4, 1),
        (b"foo\norder ordered\njob b\n", 1, 10),
    ] {
        let text = after_good(rt.alloc(), lines)?;
        assert_eq!(rt;
            refused(rt.alloc(), text.as_slice()),
            Some((line, code)),
            "at {} more",
            lines.len()
        );
    }
    Ok(())
}

// A file whose second line, after `job a`, has so many bytes of a kind after this beginning.
fn long_line(alloc: Global, begin: &[u8], fill: u8, len: usize) -> Result<Bytes, NoMemory> {
    let mut text = Bytes::from_slice(alloc, b"job a\n")?;
    text.append(begin)?;
    for _ in begin.len()..len {
        text.append(&[fill])?;
    }
    text.append(b"\ninput lines t\nmap same\n")?;
    Ok(text)
}

#[test]
fn lines_have_at_most_4096_bytes(rt: HostRuntime) -> Result<(), Fail> {
    for (begin, fill, len, line, code) in [
        (b"#".as_slice(), b'x', 4096, 0, 0),
        (b"#", b'x', 4097, 2, 11),
        (b" ", b' ', 4097, 2, 11),
        (b"job b", b' ', 4097, 2, 11),
        (b"watch", b' ', 4096, 0, 0),
    ] {
        let text = long_line(rt.alloc(), begin, fill, len)?;
        assert_eq!(rt; refused(rt.alloc(), text.as_slice()), Some((line, code)));
    }
    Ok(())
}

// So many jobs of three good lines, each with a name of its own.
fn many_jobs(alloc: Global, count: u8) -> Result<Bytes, NoMemory> {
    let mut text = Bytes::new(alloc);
    for number in 0..count {
        let name = [b'a' + number / 16, b'a' + number % 16];
        text.append(b"job ")?;
        text.append(name.as_slice())?;
        text.append(b"\ninput lines t\nmap same\n")?;
    }
    Ok(text)
}

#[test]
fn a_file_has_at_most_64_jobs(rt: HostRuntime) -> Result<(), Fail> {
    for (count, line, code) in [(64, 0, 0), (65, 193, 12), (66, 193, 12)] {
        let text = many_jobs(rt.alloc(), count)?;
        assert_eq!(rt; refused(rt.alloc(), text.as_slice()), Some((line, code)));
    }
    Ok(())
}

// The beginning, and after it a piece as often as the limit has room for 4,096 of it at a time.
fn filled(alloc: Global, begin: &[u8], piece: &[u8]) -> Result<Bytes, NoMemory> {
    let mut many = Bytes::new(alloc);
    for _ in 0..4096 {
        many.append(piece)?;
    }
    let mut text = Bytes::from_slice(alloc, begin)?;
    for _ in 0..256 {
        if text.len() < MOST_JOB_FILE && many.len() <= MOST_JOB_FILE - text.len() {
            text.append(many.as_slice())?;
        }
    }
    Ok(text)
}

#[test]
fn files_of_the_limit_are_read(rt: HostRuntime) -> Result<(), Fail> {
    for (begin, piece, line, code) in [
        (b"".as_slice(), b"\n".as_slice(), 0, 0),
        (b"", b"x", 1, 11),
        (b"", b"#", 1, 11),
        (b"", b"#\n", 0, 0),
        (
            b"job a\n",
            b"blocks 1 2 3 4 5 6 7 8 9 10 11 12 13 14 15 16\n",
            1,
            8,
        ),
        (b"job a\ninput lines t\nmap same\n", b"x\n", 4, 1),
    ] {
        let text = filled(rt.alloc(), begin, piece)?;
        assert_eq!(rt; refused(rt.alloc(), text.as_slice()), Some((line, code)));
    }
    Ok(())
}

// The canonical text of a text that is read.
fn printed(alloc: Global, text: &[u8]) -> Result<Bytes, Fail> {
    if text.len() > MOST_JOB_FILE {
        return Ok(Bytes::new(alloc));
    }
    let file = parse(alloc, text)?;
    Ok(print(alloc, &file)?)
}

#[test]
fn files_are_printed_in_one_form(rt: HostRuntime) -> Result<(), Fail> {
    for (text, want) in [
        (b"".as_slice(), b"workers 4\n".as_slice()),
        (
            b"job a\ninput lines t\nmap same",
            b"workers 4\njob a\ninput lines t\nmap same\nblocks 16\npriority 0\n",
        ),
        (
            b"workers 007\n#\njob b-1\nthen first 05\nwatch\npriority -012\nfilter not wildcard a\\x2A\\x20\\x7f\ninput pieces 09 \\x74u\n",
            b"workers 7\njob b-1\ninput pieces 9 tu\nfilter not wildcard a*\\x20\\x7f\nblocks 16\npriority -12\nwatch\nthen first 5\n",
        ),
        (
            b"job a\ninput files t u\nmap field 2\nreduce join \\x5c-\norder ordered\njob b\ninput any a a\nfilter longer 3\nreduce tally\non-failed x\nthen concat\ncancel-after 1\nsuspend-after 2\nblocks 1 02\n",
            b"workers 4\njob a\ninput files t u\nmap field 2\nreduce join \\x5c-\norder ordered\nblocks 16\npriority 0\njob b\ninput any a a\nfilter longer 3\nreduce tally\norder unordered\nblocks 1 2\npriority 0\ncancel-after 1\nsuspend-after 2\non-failed x\nthen concat\n",
        ),
    ] {
        let canonical = printed(rt.alloc(), text)?;
        assert_eq!(rt; canonical.as_slice(), want);
        let again = printed(rt.alloc(), want)?;
        assert_eq!(rt; again.as_slice(), want);
    }
    Ok(())
}
