//! The session of the editor: what each key makes of the program, the cursor, the typed line and the clips,
//! and the screen that shows them.
#![tactic(auto)]

mod answer;
mod clip_commands;
mod code_command;
mod code_rows;
mod cursor_keys;
mod edit_commands;
mod elide_command;
mod entered_line;
mod file_commands;
mod held_run;
mod key;
mod press;
mod program;
mod program_input;
mod run_commands;
mod run_notice;
mod screens;
mod session;
mod session_screen;
mod size;
mod tick;
mod typed_line;
mod undo_command;
mod window;

pub use answer::{Answer, ClipRefusal, Refusal};
pub use key::Key;
pub use press::{
    refused_keys_change_the_message, running_keys_have_runs, runs_have_one_reply,
    texts_have_one_reply, undo_comes_back,
};
pub use session::Session;
pub use size::ScreenSize;
pub use tick::{Tick, ticks_go_on};
pub use typed_line::LINE_LIMIT;
