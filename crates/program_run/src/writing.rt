//! The output of a run, written to a sink.
ghost use Rattle.std.specs.Prelude.{◌≡◌, ◌≢◌};
ghost use Rattle.synth_outside.specs.Cause.{RisesWith};
ghost use Rattle.file_store.specs.Want.{MayRiseWith};
ghost use Rattle.program_run.specs.Private.WrittenOutput.{IsWritten, TakesWhole};

use crate::ending::Ending;
use synth_outside::{Sink, SinkFault};

/// Writes the output of a run that ended so, and tells how the run ends then: as before, or by what the sink
/// answered to a write.
pub(crate) fn write_output<K: Sink>(ending: Ending, bytes: &[u8], output: &mut K) -> Ending
    requires fine { ending ≢ Ending.WriteFault }
    ensures written { IsWritten ending result bytes.now (K.taken output.old) (K.taken output.new)
        (K.wants output.old) (K.wants output.new) }
    ensures write { RisesWith (result ≡ Ending.WriteFault) (K.faults output.old) (K.faults output.new) }
    ensures want { MayRiseWith (result ≡ Ending.NoMemory) (K.wants output.old) (K.wants output.new) }
{
    match write_whole(bytes, output) {
        Ok(()) => ending,
        Err(SinkFault::Failed) => Ending::WriteFault,
        Err(SinkFault::OutOfMemory) => Ending::NoMemory,
    }
}

/// Writes all bytes of an output; what is taken in part is written on.
fn write_whole<K: Sink>(bytes: &[u8], output: &mut K) -> Result<(), SinkFault>
    ensures { TakesWhole bytes.now result (K.taken output.old) (K.taken output.new)
        (K.faults output.old) (K.faults output.new) (K.wants output.old) (K.wants output.new) }
{
    let mut at = 0;
    while at < bytes.len() {
        at += output.write(&bytes[at..])?;
    }
    Ok(())
}
