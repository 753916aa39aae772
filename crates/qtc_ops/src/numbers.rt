ghost use Rattle.std.specs.Prelude.{◌≡◌, IfOk, None, Some, if◌then◌else◌};
ghost use Rattle.qtc_base.specs.Decimal.{decimal_text, number_of};
ghost use Rattle.qtc_ops.specs.Numbers.{is_number};

use qtc_base::{Bytes, NoMemory, decimal, read_decimal};
use std::alloc::Global;

/// The most digits of an item that counts as a number.
pub const NUMBER_DIGITS: u32 = 19;

/// The number that an item spells.
pub fn read_number(item: &[u8]) -> Option<u128>
    ensures { result ≡ (if is_number item.now then Some (number_of item.now) else None) }
{
    read_decimal(item, NUMBER_DIGITS)
}

/// The decimal text of a number, in one piece of memory where it has at most `NUMBER_DIGITS` digits.
pub fn decimal_bytes(alloc: Global, value: u128) -> Result<Bytes, NoMemory>
    ensures { IfOk result (λ text. text ≡ decimal_text value) }
{
    let mut text = Bytes::with_capacity(alloc, NUMBER_DIGITS as usize)?;
    decimal(value, &mut text)?;
    Ok(text)
}
