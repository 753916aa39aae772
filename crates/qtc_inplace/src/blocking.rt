//! Lists that are made of others, by several functions at once.
ghost use Rattle.std.specs.Prelude.{◌≡◌, IfOk, length, map};
ghost use Rattle.qtc_inplace.specs.Calls.{Calls};
ghost use Rattle.qtc_inplace.specs.Conditions.{CanWork, value_of};
ghost use Rattle.qtc_inplace.specs.Lists.{filtered, mapped, TellsBad};

use crate::InPlaceFault;
use crate::spreading::take_together;
use crate::takings::{Copies, Texts};
use qtc_base::Bytes;
use qtc_ops::ItemFn;
use std::alloc::Global;
use std::thread::Threads;

/// The values of the members that aren't dropped, in order, by the functions at once, each on a run of chunks of so many
/// members. (After QtConcurrent::blockingMapped; own.)
pub fn blocking_mapped<R: Threads + Sync, F: ItemFn>(
    alloc: Global,
    rt: &R,
    list: &[Bytes],
    chunk: u32,
    functions: &mut [F],
) -> Result<Vec<Bytes>, InPlaceFault>
    requires { CanWork F.value list.now chunk functions.old }
    ensures mapped { IfOk result (λ made. made.items ≡ mapped (value_of F.value functions.old) list.now) }
    ensures bad { TellsBad (value_of F.value functions.old) list.now result }
    ensures calls { Calls F.called functions.old functions.new (length list.now) result }
    ensures value_stays { map F.value functions.new ≡ map F.value functions.old }
{
    take_together::<R, F, Bytes, Texts>(alloc, rt, chunk as usize, 0, list, functions)
}

/// Copies of the members whose value isn't dropped, in order, by the functions at once, each on a run of chunks of so many
/// members. (After QtConcurrent::blockingFiltered; own.)
pub fn blocking_filtered<R: Threads + Sync, F: ItemFn>(
    alloc: Global,
    rt: &R,
    list: &[Bytes],
    chunk: u32,
    functions: &mut [F],
) -> Result<Vec<Bytes>, InPlaceFault>
    requires { CanWork F.value list.now chunk functions.old }
    ensures filtered { IfOk result (λ made. made.items ≡ filtered (value_of F.value functions.old) list.now) }
    ensures bad { TellsBad (value_of F.value functions.old) list.now result }
    ensures calls { Calls F.called functions.old functions.new (length list.now) result }
    ensures value_stays { map F.value functions.new ≡ map F.value functions.old }
{
    take_together::<R, F, Bytes, Copies>(alloc, rt, chunk as usize, 0, list, functions)
}
