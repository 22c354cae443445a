//! Rows of cells: where two differ, and where the last cell stands that isn't a blank.
//! In a word a byte below 128 is the cell of that byte, and one from 128 on the cell of the byte that is 128 less, in
//! negative image.
use case_script::Told;
use lane_rows::{first_difference, last_difference, last_nonblank};
use std::alloc::Global;

/// Tells the least place at which two rows differ, if they are equally long.
pub fn put_first_difference(a: &[u8], b: &[u8], told: &mut Told) -> Option<()> {
    let a = cells_of(told.alloc(), a)?;
    let b = cells_of(told.alloc(), b)?;
    if a.len() != b.len() {
        return None;
    }
    told.value_line(&first_difference(a.as_slice(), b.as_slice()));
    Some(())
}

/// Tells the greatest place at which two rows differ, if they are equally long.
pub fn put_last_difference(a: &[u8], b: &[u8], told: &mut Told) -> Option<()> {
    let a = cells_of(told.alloc(), a)?;
    let b = cells_of(told.alloc(), b)?;
    if a.len() != b.len() {
        return None;
    }
    told.value_line(&last_difference(a.as_slice(), b.as_slice()));
    Some(())
}

/// Tells the greatest place of a cell of the row that isn't a blank.
pub fn put_last_nonblank(row: &[u8], told: &mut Told) -> Option<()> {
    let row = cells_of(told.alloc(), row)?;
    told.value_line(&last_nonblank(row.as_slice()));
    Some(())
}

/// Tells whether in rows of each length up to this one the least and the greatest place are right at which two differ,
/// which do so nowhere, or in each one cell, or in all from it on, or in all up to it.
pub fn put_differences(most: u32, told: &mut Told) -> Option<()> {
    let alloc = told.alloc();
    let mut right = true;
    for len in 0..most.checked_add(1)? {
        right = are_differences_right(alloc, len)? && right;
    }
    told.value_line(&right);
    Some(())
}

/// Tells whether in rows of each length up to this one the greatest place is right of a cell that isn't a blank, where
/// all are blanks, or each one cell is that of the byte, or all up to it are.
pub fn put_nonblanks(most: u32, other: &[u8], told: &mut Told) -> Option<()> {
    let alloc = told.alloc();
    let [byte] = other else {
        return None;
    };
    let mut right = true;
    for len in 0..most.checked_add(1)? {
        right = are_nonblanks_right(alloc, len, cell_of(*byte))? && right;
    }
    told.value_line(&right);
    Some(())
}

/// Whether the places are right at which two rows of this length differ.
fn are_differences_right(alloc: Global, len: u32) -> Option<bool> {
    let mut right = has_difference(alloc, (len, len, len), None)?;
    for k in 0..len {
        let place = Some(k as usize);
        right = has_difference(alloc, (len, k, k + 1), place)?
            && differs_first(alloc, (len, k, len), place)?
            && differs_last(alloc, (len, 0, k + 1), place)?
            && right;
    }
    Some(right)
}

/// Whether two rows of a length that differ from one place up to another do so first and last at this place.
fn has_difference(alloc: Global, made: (u32, u32, u32), place: Option<usize>) -> Option<bool> {
    Some(differs_first(alloc, made, place)? && differs_last(alloc, made, place)?)
}

/// Whether two rows of a length that differ from one place up to another do so first at this place.
fn differs_first(alloc: Global, made: (u32, u32, u32), place: Option<usize>) -> Option<bool> {
    let a = row_of(alloc, made, 120)?;
    let b = row_of(alloc, made, 376)?;
    Some(a.len() == b.len() && first_difference(a.as_slice(), b.as_slice()) == place)
}

/// Whether two rows of a length that differ from one place up to another do so last at this place.
fn differs_last(alloc: Global, made: (u32, u32, u32), place: Option<usize>) -> Option<bool> {
    let a = row_of(alloc, made, 120)?;
    let b = row_of(alloc, made, 376)?;
    Some(a.len() == b.len() && last_difference(a.as_slice(), b.as_slice()) == place)
}

/// Whether the greatest place is right of a cell in a row of this length that isn't a blank, but this other one.
fn are_nonblanks_right(alloc: Global, len: u32, other: u16) -> Option<bool> {
    let blanks = row_of(alloc, (len, len, len), other)?;
    let mut right = last_nonblank(blanks.as_slice()) == None;
    for k in 0..len {
        let one = row_of(alloc, (len, k, k + 1), other)?;
        let many = row_of(alloc, (len, 0, k + 1), other)?;
        let place = Some(k as usize);
        right = last_nonblank(one.as_slice()) == place
            && last_nonblank(many.as_slice()) == place
            && right;
    }
    Some(right)
}

/// A row of blanks of a length, with this other cell from one place up to another.
fn row_of(alloc: Global, made: (u32, u32, u32), other: u16) -> Option<Vec<u16>> {
    let (len, from, to) = made;
    let mut cells = Vec::new(alloc);
    for k in 0..len {
        let cell = if from <= k && k < to { other } else { 32 };
        cells.push(cell).ok()?;
    }
    Some(cells)
}

/// The row that the bytes of a word stand for, cell by cell.
fn cells_of(alloc: Global, bytes: &[u8]) -> Option<Vec<u16>> {
    let mut cells = Vec::new(alloc);
    for byte in bytes {
        cells.push(cell_of(*byte)).ok()?;
    }
    Some(cells)
}

/// The cell that a byte of a word stands for.
fn cell_of(byte: u8) -> u16 {
    if byte < 128 {
        byte as u16
    } else {
        byte as u16 + 128
    }
}
