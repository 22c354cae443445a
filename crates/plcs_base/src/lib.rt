//! What every other layer speaks of: bytes, names, values, places, marks, counts of work, and want
//! of memory.
#![tactic(auto)]

mod byte;
mod byte_out;
mod count_laws;
mod declared;
mod mark;
mod memory;
mod name;
mod place;
mod put_laws;
mod scope;
mod text;
mod value;
mod work;

pub use byte::{is_digit, is_letter, is_name_byte, is_printable};
pub use byte_out::{ByteOut, put_bytes};
pub use count_laws::counts_add_up;
pub use declared::{Declared, ItemType};
pub use mark::{MarkKind, Marked};
pub use memory::OutOfMemory;
pub use name::{LONGEST_NAME, Name, is_keyword};
pub use place::{PhraseAt, Place, Point, Slot};
pub use put_laws::puts_in_turn;
pub use scope::Scope;
pub use text::{LONGEST_TEXT, TextValue};
pub use value::{Kind, Value};
pub use work::{Counts, Work};
