//! A new content of a regular file, which is written beside it and then takes its place.

ghost use Rattle.std.specs.Prelude.{◌≡◌, IfOk};

use std::alloc::Global;
use std::fs::{self, File, Permissions};
use std::io::{self, ErrorKind};
use std::rt;

/// The file with the new content of a regular file, which is written beside it.
#[derive(Debug, Drop)]
pub struct Beside {
    /// The name of the regular file, as it was said.
    pub name: Vec<u8>,
    /// The file with the new content.
    pub file: File,
    /// The path of the regular file: what the name leads to, where it is a symbolic link.
    target: String,
    /// The path of the file with the new content.
    path: String,
}

impl Beside {
    /// The file of a new content without bytes. There is none beside what is no regular file.
    pub fn create<R: rt::Files<File = File>>(rt: &R, alloc: Global, name: &[u8]) -> io::Result<Self>
        ensures { IfOk result (λ beside. beside.name.items ≡ name.now) }
    {
        let target = target_of(rt, alloc, text_of(name)?)?;
        let mode = mode_of(rt, target.as_str())?;
        let path = beside_of(alloc, target.as_str())?;
        // What stands there from an earlier save is replaced.
        mode_of(rt, path.as_str())?;
        let name = Vec::from_slice(alloc, name)?;
        let file = File::create(rt, path.as_str())?;
        keep_mode(&file, mode)?;
        Ok(Beside {
            name,
            file,
            target,
            path,
        })
    }

    /// The new content takes the place of the regular file's, once all of its bytes are on the disk.
    pub fn put_in_place<R: rt::Files>(&self, rt: &R) -> io::Result<()> {
        self.file.sync_all()?;
        fs::rename(rt, self.path.as_str(), self.target.as_str())
    }

    /// Removes the file with the new content, if that can be done.
    pub fn remove<R: rt::Files>(self, rt: &R) {
        // Where it can't be removed it stays until the next content is begun.
        let _ = fs::remove_file(rt, self.path.as_str());
    }
}

/// The path of the regular file beside which a new content is written: another path than its name where that is
/// a symbolic link, which leads to some file.
fn target_of<R: rt::Files>(rt: &R, alloc: Global, name: &str) -> io::Result<String> {
    if is_link(rt, name) {
        Ok(rt.canonicalize(alloc, name)?.into_string())
    } else {
        Ok(String::from_str(alloc, name)?)
    }
}

/// Whether the name of the file beside which a new content is written is that of a symbolic link.
fn is_link<R: rt::Files>(rt: &R, name: &str) -> bool {
    match fs::symlink_metadata(rt, name) {
        Ok(metadata) => metadata.is_symlink(),
        Err(_) => false,
    }
}

/// The mode of the regular file that has the path, if there is one. Where something else has it, that is an error.
fn mode_of<R: rt::Files>(rt: &R, path: &str) -> io::Result<Option<Permissions>> {
    match fs::symlink_metadata(rt, path) {
        Ok(metadata) if metadata.is_file() => Ok(Some(metadata.permissions())),
        Ok(_) => Err(io::Error::from(ErrorKind::InvalidInput)),
        Err(error) if error.kind() == ErrorKind::NotFound => Ok(None),
        Err(error) => Err(error),
    }
}

/// The path of the file with a new content, beside the one of the path.
fn beside_of(alloc: Global, path: &str) -> io::Result<String> {
    match format!(in alloc; "{path} new") {
        Ok(beside) => Ok(beside),
        Err(_) => Err(io::Error::from(ErrorKind::OutOfMemory)),
    }
}

/// Gives a new file the mode of the regular file whose content it has, where there is one.
fn keep_mode(file: &File, mode: Option<Permissions>) -> io::Result<()> {
    match mode {
        Some(mode) => file.set_permissions(mode),
        None => Ok(()),
    }
}

/// The name of a regular file that is read, or beside which a new content is written, as the text that a path of
/// the system is.
pub fn text_of(name: &[u8]) -> io::Result<&str> {
    match str::from_utf8(name) {
        Ok(text) => Ok(text),
        Err(_) => Err(io::Error::from(ErrorKind::InvalidInput)),
    }
}
