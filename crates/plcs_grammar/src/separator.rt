//! What stands between the elements of a list that is shown.
ghost use Rattle.plcs_base.specs.Put.{PutsAll};
ghost use Rattle.plcs_grammar.specs.Private.Separator.{separator};

use plcs_base::{ByteOut, put_bytes};

/// Puts what stands before the element of this number, counted from 0, in a list.
pub(crate) fn put_separator<O: ByteOut>(number: usize, out: &mut O)
    ensures { PutsAll O.puts out.old (separator number) out.new }
{
    if number > 0 {
        put_bytes(b", ", out);
    }
}
