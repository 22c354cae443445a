//! The store of clips: nodes and phrases that were cut or copied, each under its name.
#![tactic(auto)]

mod clip_laws;
mod clips;
mod fragment;
mod limit;

pub use clip_laws::{clips_are_kept_whole, room_is_not_clipped};
pub use clips::{ClipFault, Clips};
pub use fragment::Fragment;
pub use limit::{MOST_CLIP_SLOTS, MOST_CLIPS};
