//! The images of a disk that a crash may leave, as cases of the journal find them.

use crate::sessions::empty_disk;
use key_journal::{Disk, DiskCall, MemDisk};
use std::alloc::{AllocError, Global};
use std::mem;

/// The images that a case of the journal finds, which a crash may leave, with what they are made of.
#[derive(Drop)]
pub(crate) struct Images {
    alloc: Global,
    all: Vec<Vec<u8>>,
    /// The images of the case with one more byte torn, while they are made.
    torn: Vec<Vec<u8>>,
    /// The disk of the case after the calls.
    disk: MemDisk,
}

impl Images {
    /// No images yet of a case of the journal.
    pub(crate) fn new(alloc: Global) -> Self {
        Images {
            alloc,
            all: Vec::new(alloc),
            torn: Vec::new(alloc),
            disk: empty_disk(alloc),
        }
    }

    /// The images of a disk that were found last for a case of the journal.
    pub(crate) fn all(&self) -> &[Vec<u8>] {
        self.all.as_slice()
    }

    /// Finds for a case each image that a crash may leave after these calls on an empty disk.
    pub(crate) fn find(&mut self, calls: &[DiskCall]) -> Option<()> {
        drop(mem::replace(&mut self.disk, empty_disk(self.alloc)));
        self.leave_disk()?;
        for call in calls {
            self.pass(call)?;
        }
        Some(())
    }

    /// Finds the images of the case after one call more.
    fn pass(&mut self, call: &DiskCall) -> Option<()> {
        match call {
            DiskCall::Write(at, piece) => {
                self.tear_each(*at as usize, piece.bytes())?;
                self.write(*at, piece.bytes())
            }
            DiskCall::Sync => self.leave_disk(),
        }
    }

    /// Leaves the disk of the case, as it reads, for the only image.
    fn leave_disk(&mut self) -> Option<()> {
        self.all.clear();
        match self.disk.bytes().to_vec(self.alloc) {
            Ok(image) => self.all.push(image).ok(),
            Err(_) => None,
        }
    }

    /// Writes to the disk of a case of the journal, of which images are found, at a place within it or at its
    /// end.
    fn write(&mut self, at: u64, piece: &[u8]) -> Option<()> {
        if at <= self.disk.bytes().len() as u64 {
            self.disk.write_at(at, piece).ok()?;
        }
        Some(())
    }

    /// Tears the range of a piece in each way for a case: each byte of it as it was, as it is written, or another one,
    /// and each length.
    fn tear_each(&mut self, at: usize, piece: &[u8]) -> Option<()> {
        let mut place = at;
        for byte in piece {
            self.tear(place, *byte)?;
            place = place.saturating_add(1);
        }
        Some(())
    }

    /// Tears the byte at this place for a case: each image stays, and comes with that byte as it is written, or as
    /// another one.
    fn tear(&mut self, place: usize, byte: u8) -> Option<()> {
        for image in &self.all {
            push_torn(self.alloc, image.as_slice(), place, byte, &mut self.torn).ok()?;
        }
        let torn = mem::replace(&mut self.torn, Vec::new(self.alloc));
        drop(mem::replace(&mut self.all, torn));
        Some(())
    }
}

/// Puts the image behind the torn ones of a case, and then it with the byte at this place as it is written, or as
/// another one.
fn push_torn(
    alloc: Global,
    image: &[u8],
    place: usize,
    byte: u8,
    torn: &mut Vec<Vec<u8>>,
) -> Result<(), AllocError> {
    torn.push(image.to_vec(alloc)?)?;
    for value in [byte, 0, 1, 255] {
        torn.push(with_byte(alloc, image, place, value)?)?;
    }
    Ok(())
}

/// The image of a case with another byte at a place within it or at its end.
fn with_byte(alloc: Global, image: &[u8], place: usize, value: u8) -> Result<Vec<u8>, AllocError> {
    let mut bytes = image.to_vec(alloc)?;
    match put_byte(&mut bytes, place, value) {
        Ok(()) => Ok(bytes),
        Err(AllocError) => {
            drop(bytes);
            Err(AllocError)
        }
    }
}

/// Puts a byte into the image of a case, at a place within it or at its end.
fn put_byte(image: &mut Vec<u8>, place: usize, value: u8) -> Result<(), AllocError> {
    if place < image.len() {
        image[place] = value;
    } else if place == image.len() {
        image.push(value)?;
    }
    Ok(())
}
