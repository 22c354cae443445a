//! What variables keep of values.

use crate::value::{tell, type_of, value_of};
use case_script::Told;
use plcs_store::kept_value;

/// Tells what a variable of the type that a word names keeps of the value that another spells.
pub(crate) fn keep(ty: &[u8], value: &[u8], told: &mut Told) -> Option<()> {
    match kept_value(type_of(ty)?, value_of(value)?) {
        Some(kept) => tell(&kept, told),
        None => told.text("none"),
    }
    told.line("");
    Some(())
}
