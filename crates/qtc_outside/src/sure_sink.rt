ghost use Rattle.std.specs.Prelude.{◌≡◌, ◌≤◌, [], IfOk, IfSome, Some, vec_capacity};

use crate::{Failed, Sink};
use qtc_base::NoMemory;
use std::alloc::Global;

/// A sink in memory that never fails and takes every piece whole. It tells what it got while that fits its
/// room.
#[derive(Drop)]
pub struct SureSink {
    text: Vec<u8>,
    told: bool,
    room: u64,
    ghost roomy: { room ≤ vec_capacity text },
}

impl SureSink {
    ghost use Rattle.qtc_outside.specs.SureSink.{sure_intake, room_of};

    /// The empty sink, with room for `room` bytes. Err is want of memory.
    pub fn new(alloc: Global, room: u64) -> Result<SureSink, NoMemory>
        ensures got { IfOk result (λ sink. (sure_intake sink).got ≡ Some []) }
        ensures room { IfOk result (λ sink. room_of sink ≡ room) }
    {
        let text = Vec::with_capacity(alloc, room as usize)?;
        Ok(SureSink {
            text,
            told: true,
            room,
        })
    }
}

impl Sink for SureSink {
    ghost use Rattle.std.specs.Prelude.{◌≡◌, ◌<◌, length, IfOk, IfSome, OnErr};
    ghost use Rattle.qtc_outside.specs.Intake.{TakesFront, TakesNothing};
    ghost use Rattle.qtc_outside.specs.SureSink.{sure_intake, room_of, TellsMore};

    ghost intake = { sure_intake };

    fn write(&mut self, piece: &[u8]) -> Result<usize, Failed>
        requires { 0 < length piece.now }
        ensures ok { IfOk result (λ count. TakesFront (sure_intake self.old) piece.now count (sure_intake self.new)) }
        ensures err { OnErr result (TakesNothing (sure_intake self.old) (sure_intake self.new)) }

        // The piece is taken whole, and what fits the room is told.
        ensures whole { result ≡ Ok (length piece.now) }
        ensures told { IfSome (sure_intake self.old).got (TellsMore (room_of self.old) piece.now (sure_intake self.new)) }
        ensures room { room_of self.new ≡ room_of self.old }
    {
        if self.told && self.text.extend_from_slice(piece).is_err() {
            self.told = false;
        }
        Ok(piece.len())
    }
}
