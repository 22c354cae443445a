//! The passing of keys: a terminal's bytes come in read by read, and what passes of them goes out at once.

ghost use Rattle.std.specs.Prelude.{◌≡◌, ◌⊎◌, ◌≤◌, ◌-◌, ◌^◌, length, IsErrOf};
ghost use Rattle.plcs_base.specs.Count.{Rose};
ghost use Rattle.synth_outside.specs.Cause.{RisesWith};
ghost use Rattle.terminal_keys.specs.PassedKeys.{PassesKeys};
ghost use Rattle.terminal_keys.specs.Private.PassedSoFar.{PassesOneRead, RingsLast, fault_ending};
ghost use Rattle.terminal_keys.specs.declared.passing.TheConstants.{MOST_READ};

use crate::cutting::{Begun, Bells, Passed};
use crate::ending::Ending;
use screen_window::write_piece;
use synth_outside::{Sink, SinkFault, Source, SourceFault};

/// The most bytes that one read of a terminal gives.
pub const MOST_READ: usize = 128;

/// Passes the keys of a terminal to the editor, until no more come: after each read all that passes of the bytes so far
/// is written, and the bells of the sequences that have ended are rung.
pub fn pass_keys<S: Source, K: Sink, B: Sink>(keys: &mut S, editor: &mut K, bells: &mut B) -> Ending
    ensures passed { PassesKeys result
        (record { left = S.left keys.old; passed = K.taken editor.old; rung = B.taken bells.old })
        (record { left = S.left keys.new; passed = K.taken editor.new; rung = B.taken bells.new }) }

    // A fault is answered exactly where a count rose.
    ensures read { RisesWith (result ≡ Ending.ReadFault) (S.faults keys.old) (S.faults keys.new) }
    ensures write { result ≡ Ending.WriteFault →
        Rose (K.faults editor.old) (K.faults editor.new) ⊎ Rose (B.faults bells.old) (B.faults bells.new) }
    ensures limit { result ≡ Ending.ReadLimit → 2 ^ 64 - 1 ≤ S.reads keys.new }
{
    let mut begun = Begun::new();
    let mut buffer = [0u8; MOST_READ];
    for _made in 0..u64::MAX {
        match keys.read(&mut buffer) {
            Ok(0) => return end(begun, bells),
            Ok(count) => {
                if let Err(fault) = pass(&mut begun, &buffer[..count], editor, bells) {
                    return ending_of(fault);
                }
            }
            Err(SourceFault::Failed) => return Ending::ReadFault,
            Err(SourceFault::OutOfMemory) => return Ending::NoMemory,
        }
    }
    Ending::ReadLimit
}

/// Passes the bytes of one read.
fn pass<K: Sink, B: Sink>(
    begun: &mut Begun,
    bytes: &[u8],
    editor: &mut K,
    bells: &mut B,
) -> Result<(), SinkFault>
    requires { length bytes.now ≤ MOST_READ }
    ensures passed { PassesOneRead begun.old.bytes.items bytes.now begun.new.bytes.items result
        (K.taken editor.old) (K.taken editor.new) (B.taken bells.old) (B.taken bells.new) }
    ensures fault { IsErrOf result SinkFault.Failed →
        Rose (K.faults editor.old) (K.faults editor.new) ⊎ Rose (B.faults bells.old) (B.faults bells.new) }
    ensures editor_later { K.faults editor.old ≤ K.faults editor.new }
    ensures bells_later { B.faults bells.old ≤ B.faults bells.new }
{
    let mut passes = Passed::new();
    let mut rings = Bells::new();
    begun.take_all(bytes, &mut passes, &mut rings);
    write_piece(editor, passes.as_slice())?;
    write_piece(bells, rings.as_slice())
}

/// Ends the passing of keys, once no more of a terminal's bytes come in: a bell goes out for a sequence that
/// lacks bytes, if one has begun.
fn end<B: Sink>(begun: Begun, bells: &mut B) -> Ending
    ensures rung { RingsLast result begun.bytes.items (B.taken bells.old) (B.taken bells.new) }
    ensures fault { result ≡ Ending.WriteFault → Rose (B.faults bells.old) (B.faults bells.new) }
{
    match write_piece(bells, begun.end().as_slice()) {
        Ok(()) => Ending::Done,
        Err(fault) => ending_of(fault),
    }
}

/// What the passing of keys answers where what passes of a read, or a bell, couldn't go out for this fault.
fn ending_of(fault: SinkFault) -> Ending
    ensures { result ≡ fault_ending fault }
{
    match fault {
        SinkFault::Failed => Ending::WriteFault,
        SinkFault::OutOfMemory => Ending::NoMemory,
    }
}
