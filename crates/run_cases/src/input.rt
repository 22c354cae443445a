//! The items of an input.

use crate::value::{tell, type_of};
use case_script::Told;
use plcs_store::read_item;

/// Tells the next item of an input, as one of the type that a word names, and how many bytes it takes.
pub(crate) fn read(ty: &[u8], input: &[u8], told: &mut Told) -> Option<()> {
    let ty = type_of(ty)?;
    if input.len() > u32::MAX as usize {
        return None;
    }
    match read_item(input, ty) {
        Ok((value, taken)) => {
            tell(&value, told);
            told.text(" takes ");
            told.value_line(&taken);
        }
        Err(fault) => told.value_line(&fault),
    }
    Some(())
}
