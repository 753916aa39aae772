//! Words of canonical lines, each after one space.
ghost use Rattle.std.specs.Prelude.{◌≡◌, ◌∷◌, ◌++◌, OnOk};
ghost use Rattle.qtc_base.specs.Decimal.{decimal_text};
ghost use Rattle.qtc_job_file.specs.Canonical.{priority_text, written, written_byte};
ghost use Rattle.qtc_job_file.specs.Keywords.{spelling};

use qtc_base::{Bytes, NoMemory, decimal, escape};
use qtc_job_file::Keyword;

/// Appends a word.
pub fn put(into: &mut Bytes, word: &[u8]) -> Result<(), NoMemory>
    ensures { OnOk result (into.new ≡ into.old ++ 32 ∷ word.now) }
{
    into.append(b" ")?;
    into.append(word)
}

/// Appends a word of the language.
pub fn put_keyword(into: &mut Bytes, keyword: Keyword) -> Result<(), NoMemory>
    ensures { OnOk result (into.new ≡ into.old ++ 32 ∷ spelling keyword) }
{
    put(into, keyword.spelling())
}

/// Appends a number.
pub fn put_number(into: &mut Bytes, number: u32) -> Result<(), NoMemory>
    ensures { OnOk result (into.new ≡ into.old ++ 32 ∷ decimal_text number) }
{
    into.append(b" ")?;
    decimal(u128::from(number), into)
}

/// Appends a priority.
pub fn put_priority(into: &mut Bytes, priority: i32) -> Result<(), NoMemory>
    ensures { OnOk result (into.new ≡ into.old ++ 32 ∷ priority_text priority) }
{
    if priority < 0 {
        into.append(b" -")?;
    } else {
        into.append(b" ")?;
    }
    decimal(u128::from(priority.unsigned_abs()), into)
}

/// Appends a byte of a literal.
fn put_byte(into: &mut Bytes, byte: u8) -> Result<(), NoMemory>
    ensures { OnOk result (into.new ≡ into.old ++ written_byte byte) }
{
    if byte == b' ' {
        return into.append(b"\\x20");
    }
    escape(&[byte], into)
}

/// Appends a literal or the name of a text.
pub fn put_literal(into: &mut Bytes, text: &[u8]) -> Result<(), NoMemory>
    ensures { OnOk result (into.new ≡ into.old ++ 32 ∷ written text.now) }
{
    into.append(b" ")?;
    for byte in text {
        put_byte(into, *byte)?;
    }
    Ok(())
}
