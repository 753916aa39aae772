ghost use Rattle.std.specs.Prelude.{◌≡◌, ◌++◌, ◌≤◌, ◌↔◌, OnOk, OnErr, IsSome, IfSome, All, length};
ghost use Rattle.qtc_base.specs.Decimal.{decimal_text, IsDigit, IsNumber, number_of};

use crate::{Bytes, NoMemory};
use itoa::Buffer;

/// Appends the decimal text of `value`, without leading zeros. Err is want of memory, and leaves `into` as
/// it was.
pub fn decimal(value: u128, into: &mut Bytes) -> Result<(), NoMemory>
    ensures ok { OnOk result (into.new ≡ into.old ++ decimal_text value) }
    ensures err { OnErr result (into.new ≡ into.old) }
{
    let mut buffer = Buffer::new();
    // Numbers of 64 bits are written much faster.
    match u64::try_from(value) {
        Ok(small) => into.append(buffer.format(small).as_bytes()),
        Err(_) => into.append(buffer.format(value).as_bytes()),
    }
}

// The most digits whose numbers all fit 64 bits.
const SMALL: usize = 19;

/// The number that a few digits spell. Sums of 64 bits cost half of what those of 128 bits do.
fn read_small(word: &[u8]) -> Option<u64>
    requires { length word.now ≤ SMALL }
    ensures digits { IsSome result ↔ All IsDigit word.now }
    ensures value { IfSome result (λ n. n ≡ number_of word.now) }
{
    let mut value = 0u64;
    for byte in word {
        if !byte.is_ascii_digit() {
            return None;
        }
        value = 10 * value + u64::from(*byte - b'0');
    }
    Some(value)
}

/// The number that many digits spell.
fn read_large(word: &[u8]) -> Option<u128>
    requires { length word.now ≤ 38 }
    ensures digits { IsSome result ↔ All IsDigit word.now }
    ensures value { IfSome result (λ n. n ≡ number_of word.now) }
{
    let mut value = 0u128;
    for byte in word {
        if !byte.is_ascii_digit() {
            return None;
        }
        value = 10 * value + u128::from(*byte - b'0');
    }
    Some(value)
}

/// The number that `word` spells, leading zeros allowed; None exactly where it isn't 1 to `most` digits.
pub fn read_decimal(word: &[u8], most: u32) -> Option<u128>
    requires { most ≤ 38 }
    ensures exactly { IsSome result ↔ IsNumber most word.now }
    ensures value { IfSome result (λ n. n ≡ number_of word.now) }
{
    if word.is_empty() || word.len() > most as usize {
        return None;
    }
    if word.len() > SMALL {
        return read_large(word);
    }
    let small = read_small(word)?;
    Some(u128::from(small))
}

#[cfg(test)]
mod tests {
    use super::*;
    use std::test::Fail;

    #[test]
    fn numbers_are_written(rt: HostRuntime) -> Result<(), Fail> {
        for (value, want) in [
            (0, b"0".as_slice()),
            (10, b"10"),
            (u128::MAX, b"340282366920938463463374607431768211455"),
        ] {
            let mut text = Bytes::new(rt.alloc());
            decimal(value, &mut text)?;
            assert_eq!(rt; text.as_slice(), want);
        }
        Ok(())
    }

    #[test]
    fn numbers_are_read(rt: HostRuntime) {
        for (word, want) in [
            (b"0".as_slice(), Some(0)),
            (b"007", Some(7)),
            (b"99999", Some(99999)),
            (b"100000", None),
            (b"", None),
            (b"1x", None),
            (b"-1", None),
        ] {
            assert_eq!(rt; read_decimal(word, 5), want);
        }
        let most = b"99999999999999999999999999999999999999";
        assert_eq!(rt;
            read_decimal(most, 38),
            Some(99_999_999_999_999_999_999_999_999_999_999_999_999)
        );
    }
}
