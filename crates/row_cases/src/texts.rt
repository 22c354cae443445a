//! Texts in lines: whether each byte may stand in them, and how many are line ends.
use case_script::Told;
use lane_rows::{all_printable, count_line_ends};
use std::alloc::Global;

/// Tells whether each byte of the text is printable or a line end.
pub fn put_all_printable(text: &[u8], told: &mut Told) -> Option<()> {
    told.value_line(&all_printable(text));
    Some(())
}

/// Tells how many bytes of the text are line ends.
pub fn put_line_end_count(text: &[u8], told: &mut Told) -> Option<()> {
    told.value_line(&count_line_ends(text));
    Some(())
}

/// Tells whether texts of each length up to this one are taken as printable where all their bytes are, and as others
/// where each one byte is this other.
pub fn put_unprintables(most: u32, other: &[u8], told: &mut Told) -> Option<()> {
    let alloc = told.alloc();
    let [byte] = other else {
        return None;
    };
    let mut right = true;
    for len in 0..most.checked_add(1)? {
        right = are_unprintables_right(alloc, len, *byte)? && right;
    }
    told.value_line(&right);
    Some(())
}

/// Tells whether in texts of each length up to this one the line ends are counted right, of which there are none, or
/// one at each place, or as many as there are bytes up to it.
pub fn put_line_ends(most: u32, told: &mut Told) -> Option<()> {
    let alloc = told.alloc();
    let mut right = true;
    for len in 0..most.checked_add(1)? {
        right = are_line_ends_right(alloc, len)? && right;
    }
    told.value_line(&right);
    Some(())
}

/// Whether texts of this length are taken as what they are, where all bytes are printable and where each one isn't.
fn are_unprintables_right(alloc: Global, len: u32, other: u8) -> Option<bool> {
    let printable = text_of(alloc, (len, len, len), other)?;
    let mut right = all_printable(printable.as_slice());
    for k in 0..len {
        let text = text_of(alloc, (len, k, k + 1), other)?;
        right = !all_printable(text.as_slice()) && right;
    }
    Some(right)
}

/// Whether the line ends in texts of this length are counted right.
fn are_line_ends_right(alloc: Global, len: u32) -> Option<bool> {
    let none = text_of(alloc, (len, len, len), b'\n')?;
    let mut right = count_line_ends(none.as_slice()) == 0;
    for k in 0..len {
        let one = text_of(alloc, (len, k, k + 1), b'\n')?;
        let many = text_of(alloc, (len, 0, k + 1), b'\n')?;
        right = count_line_ends(one.as_slice()) == 1
            && count_line_ends(many.as_slice()) == k as usize + 1
            && right;
    }
    Some(right)
}

/// A text of a length, with this other byte from one place up to another; its other bytes are letters.
fn text_of(alloc: Global, made: (u32, u32, u32), other: u8) -> Option<Vec<u8>> {
    let (len, from, to) = made;
    let mut bytes = Vec::new(alloc);
    for k in 0..len {
        let byte = if from <= k && k < to { other } else { b'x' };
        bytes.push(byte).ok()?;
    }
    Some(bytes)
}
