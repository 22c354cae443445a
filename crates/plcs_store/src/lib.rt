//! What a run is in and what it does: configurations as plain data, one step of a run by the tree, and what
//! fits a tree.
#![tactic(auto)]

mod argument;
mod cell;
mod cell_list;
mod cell_values;
mod cells;
mod copied_parts;
mod fault_kind;
mod frame;
mod frames;
mod held_template;
mod input_item;
mod kept;
mod kept_loop;
mod limit;
mod loops;
mod operands;
mod output;
mod output_item;
mod reason;
mod refusal;
mod room;
mod run_laws;
mod run_state;
mod step_laws;
mod undo;
mod variable;

pub use argument::Argument;
pub use cell::{Cell, Location};
pub use cell_list::CellList;
pub use cell_values::{copy_value, kept_value};
pub use cells::Cells;
pub use copied_parts::CopiedParts;
pub use fault_kind::FaultKind;
pub use frame::Frame;
pub use frames::Frames;
pub use held_template::HeldTemplate;
pub use input_item::{ItemFault, read_item};
pub use kept::{DeclaredList, DeclaredLists, Headings, HeldTemplates, Kept};
pub use kept_loop::KeptLoop;
pub use limit::{MOST_FRAMES, MOST_LOOPS, MOST_OPERANDS, MOST_OUTPUT};
pub use loops::Loops;
pub use operands::{Arguments, OperandValues, Operands};
pub use output::{Output, OutputFull};
pub use output_item::write_items;
pub use reason::{Reason, RunReason};
pub use refusal::ResumeRefusal;
pub use run_laws::{kept_is_one, runs_ignore_room_and_elision};
pub use run_state::{Run, RunState};
pub use step_laws::{
    callers_wait, items_keep_limits, new_runs_fit, steps_do_allowed_acts, steps_keep_fit,
    steps_taken_back, unedited_may_resume, what_fits_has_a_step, written_stands,
};
pub use undo::Undo;
pub use variable::Variable;
