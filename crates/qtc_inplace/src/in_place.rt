//! Lists that are mapped and filtered where they are.
ghost use Rattle.std.specs.Prelude.{◌≡◌, OnErr, OnOk, length, map, vec_len};
ghost use Rattle.rayon.specs.Lists.{filter_by_mask};
ghost use Rattle.qtc_inplace.specs.Calls.{Calls};
ghost use Rattle.qtc_inplace.specs.Chunks.{ChunksLeft};
ghost use Rattle.qtc_inplace.specs.Conditions.{CanWork, NeverDrops, value_of};
ghost use Rattle.qtc_inplace.specs.Lists.{filtered, mapped, TellsBad};

use crate::InPlaceFault;
use crate::mapping::map_together;
use crate::spreading::take_together;
use crate::takings::Verdicts;
use qtc_base::Bytes;
use qtc_ops::ItemFn;
use std::alloc::Global;
use std::thread::Threads;

/// Makes each member of the list its value, by the functions at once. The list is worked on in chunks of so many members,
/// the last of what is left, of which each function has a run. A chunk with a bad member stays as it is, and each other
/// becomes new; for want of memory any chunk may stay as it is. (After QtConcurrent::map; own.)
pub fn map_in_place<R: Threads + Sync, F: ItemFn>(
    alloc: Global,
    rt: &R,
    list: &mut [Bytes],
    chunk: u32,
    functions: &mut [F],
) -> Result<(), InPlaceFault>
    requires work { CanWork F.value list.old chunk functions.old }
    requires never { NeverDrops (value_of F.value functions.old) }
    ensures mapped { OnOk result (list.new ≡ mapped (value_of F.value functions.old) list.old) }
    ensures chunks { ChunksLeft (value_of F.value functions.old) chunk result list.old list.new }
    ensures bad { TellsBad (value_of F.value functions.old) list.old result }
    ensures calls { Calls F.called functions.old functions.new (length list.old) result }
    ensures value_stays { map F.value functions.new ≡ map F.value functions.old }
{
    map_together(alloc, rt, chunk as usize, 0, list, functions)
}

/// Keeps the members whose value isn't dropped, by the functions at once, in order. Members are moved and not copied, after
/// all verdicts are there. (After QtConcurrent::filter; own.)
pub fn filter_in_place<R: Threads + Sync, F: ItemFn>(
    alloc: Global,
    rt: &R,
    list: &mut Vec<Bytes>,
    chunk: u32,
    functions: &mut [F],
) -> Result<(), InPlaceFault>
    requires { CanWork F.value list.old.items chunk functions.old }
    ensures filtered { OnOk result (list.new.items ≡ filtered (value_of F.value functions.old) list.old.items) }
    ensures refused { OnErr result (list.new.items ≡ list.old.items) }
    ensures bad { TellsBad (value_of F.value functions.old) list.old.items result }
    ensures calls { Calls F.called functions.old functions.new (length list.old.items) result }
    ensures value_stays { map F.value functions.new ≡ map F.value functions.old }
{
    let members = list.as_slice();
    match take_together::<R, F, bool, Verdicts>(alloc, rt, chunk as usize, 0, members, functions) {
        Ok(verdicts) => {
            keep(list, verdicts.as_slice());
            Ok(())
        }
        Err(fault) => Err(fault),
    }
}

/// Keeps the members that stay, in order.
fn keep(list: &mut Vec<Bytes>, verdicts: &[bool])
    requires { length verdicts.now ≡ length list.old.items }
    ensures { list.new.items ≡ filter_by_mask list.old.items verdicts.now }
{
    let mut kept = 0;
    for (index, stays) in verdicts.iter().enumerate() {
        if *stays {
            list.swap(kept, index);
            kept += 1;
        }
    }
    list.truncate(kept);
}
