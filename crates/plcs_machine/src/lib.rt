//! Runs of code: how they start and step, and that they begin and step as the tree says.
#![tactic(auto)]

mod acts;
mod builtins;
mod landing;
mod lead;
mod led;
mod machine_laws;
mod new_run;
mod operators;
mod step_act;
mod step_answer;
mod stepping;
mod walk_end;

pub use machine_laws::{code_begins_as_tree, code_steps_as_tree};
pub use new_run::start;
pub use step_answer::StepAnswer;
pub use stepping::step;
