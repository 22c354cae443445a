//! Where the lines of a text start that is read as a listing.
ghost use Rattle.std.specs.Prelude.{◌≡◌, ◌<◌, ◌≤◌, ◌∷◌, ◌++◌, [], IfOk, MatchOption, length, vec_capacity};
ghost use Rattle.file_store.specs.Limit.{longest_listing};
ghost use Rattle.file_store.specs.Loaded.{HasNoEnd};
ghost use Rattle.file_store.specs.Private.LineStarts.{AreStarts};

use lane_rows::count_line_ends;
use std::alloc::{AllocError, Global};
use std::vec::Vec;

/// Where each line of a listing's text starts that stands behind a line end, told by how many bytes stand from there
/// on. The room for all of them is taken at once.
pub(crate) fn line_starts(alloc: Global, text: &[u8]) -> Result<Vec<u32>, AllocError>
    requires short { length text.now ≤ longest_listing }
    ensures { IfOk result (λ starts. AreStarts text.now starts.items) }
{
    let mut starts = Vec::with_capacity(alloc, count_line_ends(text))?;
    let mut rest = text;
    while let Some((_, more)) = divided(rest) {
        push_reserved(&mut starts, more.len() as u32);
        rest = more;
    }
    Ok(starts)
}

/// Puts where a line starts behind the others, into the room that is taken.
fn push_reserved(starts: &mut Vec<u32>, start: u32)
    requires room { length starts.old.items < vec_capacity starts.old }
    ensures put { starts.new.items ≡ starts.old.items ++ (start ∷ []) }
    ensures room { vec_capacity starts.old ≤ vec_capacity starts.new }
{
    if let Err(_) = starts.push(start) {}
}

/// What stands in a text before its first line end, and what stands behind it, where a line starts.
fn divided(text: &[u8]) -> Option<(&[u8], &[u8])>
    ensures { MatchOption result (HasNoEnd text.now)
        (λ parts. (text.now ≡ parts.0.now ++ (10 ∷ parts.1.now)) × HasNoEnd parts.0.now) }
{
    let mut place = 0;
    while place < text.len() {
        if text[place] == b'\n' {
            return Some((&text[..place], &text[place + 1..]));
        }
        place += 1;
    }
    None
}
