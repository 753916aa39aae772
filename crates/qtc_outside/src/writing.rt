ghost use Rattle.std.specs.Prelude.{OnOk, IfErr};
ghost use Rattle.qtc_outside.specs.Intake.{Takes, IsCut};

use crate::Sink;

/// A sink failed after it took the first `taken` bytes of a piece.
#[derive(Clone, Copy, Debug, PartialEq, Eq)]
pub struct WriteFault {
    pub taken: u64,
}

/// Writes the whole piece, offering all that is left at each write. Err where the sink failed, which then
/// got a front of the piece.
pub fn write_all<S: Sink>(sink: &mut S, piece: &[u8]) -> Result<(), WriteFault>
    ensures ok { OnOk result (Takes (S.intake sink.old) piece.now (S.intake sink.new)) }
    ensures err { IfErr result (λ fault. IsCut (S.intake sink.old) piece.now fault.taken (S.intake sink.new)) }
{
    let mut taken = 0;
    while taken < piece.len() {
        match sink.write(&piece[taken..]) {
            Ok(count) => taken += count,
            Err(_) => {
                return Err(WriteFault {
                    taken: taken as u64,
                });
            }
        }
    }
    Ok(())
}
