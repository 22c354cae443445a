//! Lists as they are shown, joined by commas.
ghost use Rattle.std.specs.Prelude.{List, ℕ};
ghost use Rattle.plcs_base.specs.Put.{PutsAll};
ghost use Rattle.plcs_grammar.specs.PlainPhrase.{plain_var_ref};
ghost use Rattle.plcs_grammar.specs.Canon.{joined, canon_reference, canon_item};

use crate::constant::put_decimal;
use crate::expr::VarRef;
use crate::item::Item;
use crate::separator::put_separator;
use crate::show_expr::show_variable;
use plcs_base::{ByteOut, Name, put_bytes};

/// Puts the canonical texts of the elements of a list, joined by commas.
#[inline(never)]
pub(crate) fn show_joined<T: Shown, O: ByteOut>(items: &[T], out: &mut O)
    ensures { PutsAll O.puts out.old (joined T.shown items.now) out.new }
{
    for (i, item) in items.iter().enumerate() {
        put_separator(i, out);
        item.show(out);
    }
}

/// An element of a list that is shown, joined by commas.
pub(crate) trait Shown {
    ghost shown: { Self → List ℕ };

    /// Puts the canonical text of the element.
    fn show<O: ByteOut>(&self, out: &mut O)
        ensures { PutsAll O.puts out.old (shown self.now) out.new };
}

impl Shown for Name {
    ghost shown = { λ name. name };

    fn show<O: ByteOut>(&self, out: &mut O) {
        put_bytes(self.as_bytes(), out);
    }
}

impl Shown for VarRef {
    ghost shown = { λ variable. canon_reference (plain_var_ref variable) };

    fn show<O: ByteOut>(&self, out: &mut O) {
        show_variable(self, out);
    }
}

impl Shown for Item {
    ghost shown = { λ item. canon_item item };

    fn show<O: ByteOut>(&self, out: &mut O) {
        put_bytes(self.name.as_bytes(), out);
        if let Some(size) = self.size {
            out.put(b'(');
            put_decimal(size, out);
            out.put(b')');
        }
    }
}
