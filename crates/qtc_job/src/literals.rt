//! How literals, names and numbers are spelled.
ghost use Rattle.std.specs.Prelude.{◌≡◌, ℕ, List as PlainList, ◌<◌, not, MatchOption, Some, None, IfSome, length, if◌then◌else◌};
ghost use Rattle.std.specs.List.{list_all};
ghost use Rattle.qtc_base.specs.Decimal.{number_of};
ghost use Rattle.qtc_job.specs.Answers.{Gives};
ghost use Rattle.qtc_job.specs.Codes.{where_};
ghost use Rattle.qtc_job.specs.Literals.{hex_pair, hex_value as hex_value_of, is_literal, is_numeral, is_raw as is_raw_byte, literal_of, onto, text_of};
ghost use Rattle.qtc_job_file.specs.Names.{is_name as is_name_word, is_name_byte as is_name_letter};

use crate::codes::{LineFault, NO_LITERAL};
use crate::limits::{MOST_DIGITS, MOST_NAME};
use qtc_base::{Bytes, read_decimal};
use std::alloc::Global;

fn is_name_byte(byte: u8) -> bool
    ensures { result ≡ is_name_letter byte }
{
    matches!(byte, b'A'..=b'Z' | b'a'..=b'z' | b'0'..=b'9' | b'_' | b'-')
}

fn are_name_bytes(word: &[u8]) -> bool
    ensures { result ≡ list_all is_name_letter word.now }
{
    word.iter().all(|byte| is_name_byte(*byte))
}

/// Whether a word is spelled as the name of a job.
pub fn is_name(word: &[u8]) -> bool
    ensures { result ≡ is_name_word word.now }
{
    !word.is_empty() && word.len() <= MOST_NAME && are_name_bytes(word)
}

/// The number that a word spells, leading zeros allowed.
pub fn read_numeral(word: &[u8]) -> Option<u128>
    ensures { result ≡ (if is_numeral word.now then Some (number_of word.now) else None) }
{
    read_decimal(word, MOST_DIGITS)
}

/// Whether a byte of a literal stands for itself.
fn is_raw(byte: u8) -> bool
    ensures { result ≡ is_raw_byte byte }
{
    byte >= 0x20 && byte != 0x7f && byte != b'\\'
}

/// The value of a hexadecimal digit of either case.
fn hex_value(digit: u8) -> Option<u8>
    ensures value { result ≡ hex_value_of digit }
    ensures small { IfSome result (λ value. value < 16) }
{
    match digit {
        b'0'..=b'9' => Some(digit - b'0'),
        b'a'..=b'f' => Some(digit - b'a' + 10),
        b'A'..=b'F' => Some(digit - b'A' + 10),
        _ => None,
    }
}

/// The byte of two hexadecimal digits.
fn hex_byte(high: u8, low: u8) -> Option<u8>
    ensures { result ≡ hex_pair (hex_value_of high) (hex_value_of low) }
{
    match (hex_value(high), hex_value(low)) {
        (Some(high), Some(low)) => Some(16 * high + low),
        _ => None,
    }
}

/// The byte that the front of a literal stands for, and what follows that front.
fn first_byte(word: &[u8]) -> Option<(u8, &[u8])>
    requires { 0 < length word.now }
    ensures value { MatchOption result (literal_of word.now ≡ None)
        (λ first. literal_of word.now ≡ onto (Some first.0) (literal_of first.1.now)) }
    ensures shorter { IfSome result (λ first. length first.1.now < length word.now) }
{
    match word {
        [b'\\', b'x', high, low, after @ ..] => match hex_byte(*high, *low) {
            Some(byte) => Some((byte, after)),
            None => None,
        },
        [byte, after @ ..] if is_raw(*byte) => Some((*byte, after)),
        _ => None,
    }
}

/// The bytes that a literal or name of a text stands for.
pub fn read_literal(alloc: Global, word: &[u8]) -> Result<Bytes, LineFault>
    ensures { Gives (where_ (not (is_literal word.now)) 14) (text_of word.now) result }
{
    let mut text = Bytes::new(alloc);
    let mut rest = word;
    while !rest.is_empty() {
        match first_byte(rest) {
            Some((byte, after)) => {
                text.append(&[byte])?;
                rest = after;
            }
            None => return Err(LineFault::Wrong(NO_LITERAL)),
        }
    }
    Ok(text)
}
