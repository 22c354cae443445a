//! Kernels over rows of cells and over bytes of text, each of which looks at 32 at a time.
#![tactic(auto)]

mod cell_rows;
mod lanes;
mod text_bytes;

pub use cell_rows::{first_difference, last_difference, last_nonblank};
pub use text_bytes::{all_printable, count_line_ends};
