//! Whether a run that was suspended may go on in a program that was edited.
#![tactic(auto)]

mod equal_copy;
mod frame_question;
mod live_node;
mod resume_laws;
mod resumption;

pub use plcs_store::ResumeRefusal;
pub use resume_laws::{
    answers_follow_frames, answers_ignore_room_and_elision, fitting_runs_are_resolved,
    kept_has_entries, resumed_runs_fit,
};
pub use resumption::may_resume;
