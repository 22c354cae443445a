//! The limits of clips.

/// Under how many names clips may be held.
pub const MOST_CLIPS: usize = 64;

/// How many slots the fragments under all names may have together.
pub const MOST_CLIP_SLOTS: u32 = 20_000;
