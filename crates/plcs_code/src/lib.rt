//! The code of programs: what it is, its instructions, how they are shown, and how they are laid.
#![tactic(auto)]

mod addresses;
mod block;
mod code_laws;
mod code_view;
mod flat_code;
mod generation;
mod heading_entry;
mod headings;
mod instr;
mod instr_out;
mod instr_text;
mod jumps;
mod laid;
mod lay_before;
mod lay_behind;
mod lay_cells;
mod lay_expr;
mod lay_phrase;
mod lay_pieces;
mod lengths;
mod limit;
mod node_span;
mod own_code;
mod procedure_items;
mod spans;
mod statement_parts;
mod suspension;

pub use addresses::{is_call, passes_in};
pub use block::{Block, Emitted};
pub use code_laws::{
    addresses_hold_steps, bodies_begin, code_ignores_room_and_elision, entries_are_headings,
    jumps_stay_inside, lengths_are_told, own_codes_add_up, own_codes_stay_in_slots,
    places_have_addresses, programs_have_one_code, spans_hold_code, statements_go_on,
    steps_have_addresses,
};
pub use code_view::CodeView;
pub use flat_code::FlatCode;
pub use generation::generate;
pub use heading_entry::HeadingEntry;
pub use instr::Instr;
pub use instr_text::show_instr;
pub use limit::MOST_INSTRS;
pub use node_span::NodeSpan;
pub use own_code::{JumpBlocks, OwnCode, name_to_call};
pub use spans::has_code;
