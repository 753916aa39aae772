ghost use Rattle.std.specs.Prelude.{◌≡◌};
ghost use Rattle.qtc_ops.specs.Fields.{field_of};

use qtc_base::Words;

/// The field of an item at `number`, from 1; empty where there is none.
pub fn nth_field(item: &[u8], number: u32) -> &[u8]
    ensures { result.now ≡ field_of number item.now }
{
    if number == 0 {
        return &[];
    }
    match Words::new(b" \t", item).nth(number as usize - 1) {
        Some(field) => field,
        None => &[],
    }
}
