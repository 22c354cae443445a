//! The kind of the values of a declared item.
ghost use Rattle.std.specs.Prelude.{◌≡◌};
ghost use Rattle.template_tree.specs.Checks.Environment.{kind_of_type};

use plcs_base::{ItemType, Kind};

/// The kind of the values of an item that is declared with the type.
pub fn kind_of_type(ty: ItemType) -> Kind
    ensures { result ≡ kind_of_type ty }
{
    match ty {
        ItemType::Fixed => Kind::Fixed,
        ItemType::Bit => Kind::Bit,
        ItemType::Text(_) => Kind::Text,
    }
}
