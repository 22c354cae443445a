//! What the argument of a command is read as: a name, a number or a file name.
ghost use Rattle.std.specs.Prelude.{◌≡◌};
ghost use Rattle.std.specs.List.{list_all};
ghost use Rattle.session_words.specs.Argument.{default_clip, name_in, number_between, number_in, is_file_byte, is_file_name};

use crate::argument_rule::Range;
use crate::limit::LONGEST_FILE_NAME;
use crate::number::number_between;
use plcs_base::{Name, is_printable};

/// The name of the clip that is meant where no argument names one.
const DEFAULT_CLIP: &[u8] = b"clip";

/// The clip's name that the argument is read as, if it is one; no argument is read as the name of the
/// clip that is then meant.
pub fn name_in(argument: &[u8]) -> Option<Name>
    ensures { result ≡ name_in argument.now }
{
    if argument.is_empty() {
        default_clip()
    } else {
        Name::read(argument)
    }
}

/// The name of a clip that no argument of a command is read as: that of the clip which is then meant.
#[tactic(auto, using(crate::proofs::ClipName::clip_name_read))]
fn default_clip() -> Option<Name>
    ensures { result ≡ Some default_clip }
{
    Name::read(DEFAULT_CLIP)
}

/// The number of the range that the argument is read as, if it is one; no argument is the one that is
/// meant where none is given.
pub fn number_in(range: Range, argument: &[u8]) -> Option<u32>
    ensures { result ≡ number_in range.least range.most range.otherwise argument.now }
{
    if argument.is_empty() {
        Some(range.otherwise)
    } else {
        number_between(range.least, range.most, argument)
    }
}

/// Whether an argument is a file name: 1 to 100 bytes from 33 to 126.
pub fn is_file_name(bytes: &[u8]) -> bool
    ensures { result ≡ is_file_name bytes.now }
{
    !bytes.is_empty() && bytes.len() <= LONGEST_FILE_NAME && all_file_bytes(bytes)
}

/// Whether each byte of an argument may stand in a file name.
fn all_file_bytes(bytes: &[u8]) -> bool
    ensures { result ≡ list_all is_file_byte bytes.now }
{
    bytes
        .iter()
        .all(|byte| is_printable(*byte) && *byte != b' ')
}
