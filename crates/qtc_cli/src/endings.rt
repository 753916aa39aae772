//! How every call ends: with a text written, or with a refusal told.
ghost use Rattle.qtc_cli.specs.Endings.{IsRefused, Writes};

use crate::refusals::Refusal;
use qtc_outside::{Sink, write_all};
use std::alloc::Global;

/// Tells a refusal, and gives the status that the program ends with.
pub fn refuse<E: Sink>(alloc: Global, refusal: Refusal, err: &mut E) -> u8
    ensures { IsRefused refusal result (E.intake err.old) (E.intake err.new) }
{
    refusal.tell(alloc, err).status()
}

/// Writes a text and gives the status that stands for it, or tells that the sink failed.
pub fn write_text<S: Sink, E: Sink>(
    alloc: Global,
    text: &[u8],
    done: u8,
    out: &mut S,
    err: &mut E,
) -> u8
    ensures { Writes text.now done result (S.intake out.old) (S.intake out.new) (E.intake err.old) (E.intake err.new) }
{
    match write_all(out, text) {
        Ok(()) => done,
        Err(_) => refuse(alloc, Refusal::WriteFault, err),
    }
}
