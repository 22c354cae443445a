//! The images that a crash of a session may leave of its disk, found after each call that the session made of
//! it.

use key_journal::{Disk, DiskCall, MemDisk};
use std::alloc::{AllocError, Global};
use std::mem;

/// The images that a crash may leave of the disk of a session whose keys are kept, with what they are made of.
#[derive(Drop)]
pub struct Images {
    pub all: Vec<Vec<u8>>,
    /// The images with one more byte torn, while they are made.
    torn: Vec<Vec<u8>>,
    /// The disk after the calls.
    disk: MemDisk,
    /// The keys that were recovered from an image at last.
    keys: Vec<u8>,
}

impl Images {
    /// No images yet of a session's disk.
    pub fn none(alloc: Global) -> Images {
        Images {
            all: Vec::new(alloc),
            torn: Vec::new(alloc),
            disk: MemDisk::new(alloc, Vec::new(alloc)),
            keys: Vec::new(alloc),
        }
    }

    /// Finds each image that a crash may leave after these calls of a session on its disk, which was empty
    /// before.
    pub fn find(&mut self, alloc: Global, calls: &[DiskCall]) -> Option<()> {
        self.disk = MemDisk::new(alloc, Vec::new(alloc));
        self.leave_disk(alloc)?;
        for call in calls {
            self.pass(alloc, call)?;
        }
        Some(())
    }

    /// Finds the images that a crash of the session may leave after one call more.
    fn pass(&mut self, alloc: Global, call: &DiskCall) -> Option<()> {
        match call {
            DiskCall::Write(at, piece) => {
                self.tear_each(alloc, *at as usize, piece.bytes())?;
                self.write(*at, piece.bytes())
            }
            DiskCall::Sync => self.leave_disk(alloc),
        }
    }

    /// Finds the images that a crash of the session may leave of its disk once all its writes are synced: one
    /// alone, the disk as it reads.
    fn leave_disk(&mut self, alloc: Global) -> Option<()> {
        self.all.clear();
        let image = self.disk.bytes().to_vec(alloc).ok()?;
        self.all.push(image).ok()
    }

    /// Writes to the disk of the session of which images are made, at a place within it or at its end.
    fn write(&mut self, at: u64, piece: &[u8]) -> Option<()> {
        if at <= self.disk.bytes().len() as u64 {
            self.disk.write_at(at, piece).ok()?;
        }
        Some(())
    }

    /// Tears the range of a piece that a session writes on its disk in each way: each byte of it as it was, as
    /// it is written, or another one, and each length.
    fn tear_each(&mut self, alloc: Global, at: usize, piece: &[u8]) -> Option<()> {
        let mut place = at;
        for byte in piece {
            self.tear(alloc, place, *byte)?;
            place = place.saturating_add(1);
        }
        Some(())
    }

    /// Tears the byte at this place of the session's disk: each image stays, and comes with that byte as it is
    /// written, or as another one.
    fn tear(&mut self, alloc: Global, place: usize, byte: u8) -> Option<()> {
        for image in &self.all {
            push_torn(alloc, image.as_slice(), place, byte, &mut self.torn).ok()?;
        }
        self.all = mem::replace(&mut self.torn, Vec::new(alloc));
        Some(())
    }

    /// Whether each image of its disk that a crash of the session may leave recovers to nothing or to these
    /// keys, and one to these.
    pub fn leave(&mut self, keys: &[u8]) -> Option<bool> {
        let mut is_found = false;
        for image in &self.all {
            recover(image.as_slice(), &mut self.keys)?;
            if self.keys.as_slice() == keys {
                is_found = true;
            } else if !self.keys.is_empty() {
                return Some(false);
            }
        }
        Some(is_found)
    }
}

/// Puts an image of the session's disk behind the torn ones, and then it with the byte at this place as it is
/// written, or as another one.
fn push_torn(
    alloc: Global,
    image: &[u8],
    place: usize,
    byte: u8,
    torn: &mut Vec<Vec<u8>>,
) -> Result<(), AllocError> {
    torn.push(image.to_vec(alloc)?)?;
    for value in [byte, 0, 1, 255] {
        torn.push(with_byte(alloc, image, place, value)?)?;
    }
    Ok(())
}

/// The image of the session's disk with another byte, as a crash may leave it, at a place within it or at its
/// end.
fn with_byte(alloc: Global, image: &[u8], place: usize, value: u8) -> Result<Vec<u8>, AllocError> {
    let mut bytes = image.to_vec(alloc)?;
    if place < bytes.len() {
        bytes[place] = value;
    } else if place == bytes.len() {
        bytes.push(value)?;
    }
    Ok(bytes)
}

/// Finds the keys behind the open gates of an image that a crash of a session may leave.
fn recover(image: &[u8], keys: &mut Vec<u8>) -> Option<()> {
    keys.clear();
    for block in image.chunks(2) {
        match block {
            [1, key] => keys.push(*key).ok()?,
            _ => break,
        }
    }
    Some(())
}
