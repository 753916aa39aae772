ghost use Rattle.std.specs.Prelude.{◌≡◌, ◌≤◌, ◌++◌, ◌∷◌, [], IsSome, IfOk, OnOk, map};
ghost use Rattle.qtc_base.specs.Items.{PassesLimit};
ghost use Rattle.qtc_base.specs.Lines.{lines};
ghost use Rattle.qtc_outside.specs.Shelf.{text_under};
ghost use Rattle.qtc_run.specs.Loaded.{HasAll};
ghost use Rattle.qtc_run.specs.Sources.{items_of, names_of, pieces_of, text_of};
ghost use Rattle.qtc_job_file.specs.Laws.{IsSized};

use crate::Loaded;
use crate::sizes::Size;
use qtc_base::{Bytes, Items, NoMemory, PushFault, line_parts};
use qtc_job_file::Input;
use std::alloc::Global;

/// Appends an item that the limits leave room for.
fn append_item(item: &[u8], items: &mut Items) -> Result<(), NoMemory>
    requires { ¬ PassesLimit (items.old ++ item.now ∷ []) }
    ensures { OnOk result (items.new ≡ items.old ++ item.now ∷ []) }
{
    match items.push(item) {
        Ok(()) => Ok(()),
        Err(PushFault::Memory) => Err(NoMemory),
        Err(PushFault::Full) => unreachable!("the sums were checked"),
    }
}

/// The lines of a text, which lie in the text that `loaded` shares, with room for so many.
fn line_items(alloc: Global, name: &[u8], loaded: &Loaded, room: usize) -> Result<Items, NoMemory>
    requires named { IsSome (text_under loaded.now name.now) }
    requires fits { ¬ PassesLimit (lines (text_of loaded.now name.now)) }
    ensures { IfOk result (λ items. items ≡ lines (text_of loaded.now name.now)) }
{
    let text = loaded.shared(name)?;
    let parts = line_parts(alloc, text.as_slice(), room)?;
    Ok(Items::of_parts(alloc, text, parts))
}

/// Copies of whole texts, in a list that is made with room for them.
fn file_items(
    alloc: Global,
    names: &[Bytes],
    loaded: &Loaded,
    room: Size,
) -> Result<Items, NoMemory>
    requires named { HasAll loaded.now names.now }
    requires fits { ¬ PassesLimit (map (text_of loaded.now) names.now) }
    ensures { IfOk result (λ items. items ≡ map (text_of loaded.now) names.now) }
{
    let mut items = Items::with_capacity(alloc, room.items as usize, room.bytes as usize)?;
    for name in names {
        append_item(loaded.text(name.as_slice()), &mut items)?;
    }
    Ok(items)
}

/// Copies of the pieces of a text, in a list that is made with room for them.
fn piece_items(alloc: Global, text: &[u8], size: u32, room: Size) -> Result<Items, NoMemory>
    requires some { 1 ≤ size }
    requires fits { ¬ PassesLimit (pieces_of size text.now) }
    ensures { IfOk result (λ items. items ≡ pieces_of size text.now) }
{
    let mut items = Items::with_capacity(alloc, room.items as usize, room.bytes as usize)?;
    let size = size as usize;
    let mut rest = text;
    while !rest.is_empty() {
        let (piece, others) = rest.split_at(size.min(rest.len()));
        append_item(piece, &mut items)?;
        rest = others;
    }
    Ok(items)
}

/// The items of an input, in a list that is made with room for them. Lines lie in the text that `loaded` shares, and
/// are not copied; each other byte is copied once. Err is want of memory.
pub fn items_from(
    alloc: Global,
    input: &Input,
    loaded: &Loaded,
    room: Size,
) -> Result<Items, NoMemory>
    requires named { HasAll loaded.now (names_of input.now) }
    requires sized { IsSized input.now }
    requires fits { ¬ PassesLimit (items_of loaded.now input.now) }
    ensures { IfOk result (λ items. items ≡ items_of loaded.now input.now) }
{
    match input {
        Input::Lines(name) => line_items(alloc, name.as_slice(), loaded, room.items as usize),
        Input::Files(names) => file_items(alloc, names.as_slice(), loaded, room),
        Input::Pieces(size, name) => piece_items(alloc, loaded.text(name.as_slice()), *size, room),
        Input::Job(_) | Input::All(_) | Input::Any(_) => Ok(Items::new(alloc)),
    }
}
