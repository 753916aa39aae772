ghost use Rattle.std.specs.Prelude.{◌≡◌, ◌++◌, ℕ, List, ◌<◌, ◌≤◌, false, IsTrue, OnOk, OnErr, length, take, slice_index};
ghost use Rattle.qtc_base.specs.Escape.{escaped, hex_escape, hex_glyph, is_plain as is_plain_byte};

use crate::{Bytes, NoMemory};

// The bytes that are tested at once.
const BLOCK: usize = 32;

/// Whether reports write the byte as it is.
fn is_plain(byte: u8) -> bool
    ensures { result ≡ is_plain_byte byte }
{
    (byte >= 0x20) & (byte != 0x7f) & (byte != b'\\')
}

/// The digit of a number below 16, in lower case.
fn hex_digit(value: u8) -> u8
    requires { value < 16 }
    ensures { result ≡ hex_glyph value }
{
    if value < 10 {
        b'0' + value
    } else {
        b'a' + (value - 10)
    }
}

/// Appends the escape of one byte that isn't plain.
fn append_escape(byte: u8, into: &mut Bytes) -> Result<(), NoMemory>
    ensures ok { OnOk result (into.new ≡ into.old ++ hex_escape byte) }
    ensures err { OnErr result (into.new ≡ into.old) }
{
    into.append(&[b'\\', b'x', hex_digit(byte / 16), hex_digit(byte % 16)])
}

/// Whether all bytes are plain: one test of the whole, without a branch a byte.
fn is_all_plain(block: &[u8]) -> bool
    ensures { IsTrue result → escaped block.now ≡ block.now }
{
    let mut plain = true;
    for byte in block {
        plain &= is_plain(*byte);
    }
    plain
}

/// How many bytes the whole blocks of plain bytes at the front have.
fn plain_blocks(raw: &[u8]) -> usize
    ensures within { result ≤ length raw.now }
    ensures plain { escaped (take result raw.now) ≡ take result raw.now }
{
    let mut len = 0;
    while raw.len() - len >= BLOCK && is_all_plain(&raw[len..len + BLOCK]) {
        len += BLOCK;
    }
    len
}

/// How many bytes at the front of `raw` are plain.
fn plain_len(raw: &[u8]) -> usize
    ensures within { result ≤ length raw.now }
    ensures plain { escaped (take result raw.now) ≡ take result raw.now }
    ensures stop { result < length raw.now → is_plain_byte (slice_index raw.now result) ≡ false }
{
    let blocks = plain_blocks(raw);
    let (_, rest) = raw.split_at(blocks);
    blocks + plain_front(rest)
}

/// The same, byte by byte.
fn plain_front(raw: &[u8]) -> usize
    ensures within { result ≤ length raw.now }
    ensures plain { escaped (take result raw.now) ≡ take result raw.now }
    ensures stop { result < length raw.now → is_plain_byte (slice_index raw.now result) ≡ false }
{
    for (place, byte) in raw.iter().enumerate() {
        if !is_plain(*byte) {
            return place;
        }
    }
    raw.len()
}

/// Appends the escaped text, and at an Err perhaps a front of it.
fn append_escaped(raw: &[u8], into: &mut Bytes) -> Result<(), NoMemory>
    ensures ok { OnOk result (into.new ≡ into.old ++ escaped raw.now) }
    ensures kept { take (length into.old) into.new ≡ into.old }
{
    let mut rest = raw;
    while !rest.is_empty() {
        let (plain, others) = rest.split_at(plain_len(rest));
        into.append(plain)?;
        match others {
            [] => return Ok(()),
            [byte, after @ ..] => {
                append_escape(*byte, into)?;
                rest = after;
            }
        }
    }
    Ok(())
}

/// Appends `raw` as reports write it: each byte below 0x20, 0x7f and `\` becomes `\xHH` in lower case.
/// Err is want of memory, and leaves `into` as it was. (Own.)
pub fn escape(raw: &[u8], into: &mut Bytes) -> Result<(), NoMemory>
    ensures ok { OnOk result (into.new ≡ into.old ++ escaped raw.now) }
    ensures err { OnErr result (into.new ≡ into.old) }
{
    let before = into.len();
    let outcome = append_escaped(raw, into);
    if outcome.is_err() {
        into.truncate(before);
    }
    outcome
}

#[cfg(test)]
mod tests {
    use super::*;
    use std::test::Fail;

    #[test]
    fn escapes_as_reports_write(rt: HostRuntime) -> Result<(), Fail> {
        for (raw, want) in [
            (b"".as_slice(), b"".as_slice()),
            (b"plain ~\x80\xff", b"plain ~\x80\xff"),
            (b"a\tb\\", b"a\\x09b\\x5c"),
            (b"\x00\x1f\x7f", b"\\x00\\x1f\\x7f"),
            (
                b"more than one block of plain bytes, and\x7fone more of them, with an end",
                b"more than one block of plain bytes, and\\x7fone more of them, with an end",
            ),
        ] {
            let mut text = Bytes::from_slice(rt.alloc(), b"> ")?;
            escape(raw, &mut text)?;
            assert_eq!(rt; &text.as_slice()[2..], want);
        }
        Ok(())
    }
}
