ghost use Rattle.std.specs.Prelude.{◌≡◌, IfOk};
ghost use Rattle.qtc_ops.specs.Maps.{map_value};
ghost use Rattle.hex.specs.Hex.{encode_lower};
ghost use Rattle.qtc_ops.specs.ItemValue.{Answers};

use crate::fields::nth_field;
use crate::numbers::{decimal_bytes, read_number};
use crate::{ItemFault, MapOp};
use qtc_base::{Bytes, NoMemory};
use sha2::{Digest, Sha256};
use std::alloc::Global;

/// A digest in hexadecimal, as 64 lower-case digits.
pub fn hex_bytes(alloc: Global, digest: &[u8; 32]) -> Result<Bytes, NoMemory>
    ensures { IfOk result (λ text. text ≡ encode_lower digest.now) }
{
    let mut text = [0u8; 64];
    let written = hex::encode_to_slice(digest.as_slice(), &mut text);
    prove!(written.is_ok());
    Bytes::from_slice(alloc, &text)
}

/// The value of an item by a map.
pub fn apply_map(alloc: Global, op: MapOp, item: &[u8]) -> Result<Option<Bytes>, ItemFault>
    ensures { Answers (map_value op item.now) result }
{
    match op {
        MapOp::Same => Ok(Some(Bytes::from_slice(alloc, item)?)),
        MapOp::Length => Ok(Some(decimal_bytes(alloc, item.len() as u128)?)),
        MapOp::Digest => Ok(Some(hex_bytes(alloc, &Sha256::digest(item))?)),
        MapOp::Field(number) => Ok(Some(Bytes::from_slice(alloc, nth_field(item, number))?)),
        MapOp::Number => match read_number(item) {
            Some(number) => Ok(Some(decimal_bytes(alloc, number)?)),
            None => Err(ItemFault::Bad),
        },
    }
}
