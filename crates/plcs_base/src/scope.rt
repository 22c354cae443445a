//! What the procedures of a program declare.
use crate::declared::Declared;
use crate::place::Slot;

/// The trait of the effective items of a program's procedures, for the layers that check phrases against declarations.
///
/// They are a finite map from the slots of procedures to lists of items.
///
/// An item is effective unless its name is a built-in function's, an earlier effective item of the
/// procedure has its name, or its cells and those of the earlier effective items are over 2,000
/// together. A declaration of texts without a length declares nothing.
pub trait Scope {
    ghost use Rattle.std.specs.Prelude.{◌≡◌};
    ghost use Rattle.plcs_base.specs.Scope.{ItemMap, item_at};

    ghost items: { Self → ItemMap };

    /// The procedure's effective item of number `k`, counted from 0 in listing order, or `None` where
    /// there is no such item.
    fn declared(&self, procedure: Slot, k: u32) -> Option<Declared>
        ensures { result ≡ item_at (items self.now) procedure.0 k };
}
