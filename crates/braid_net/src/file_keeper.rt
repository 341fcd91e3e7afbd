ghost use Rattle.std.specs.Prelude.{◌≡◌};

use braid_ids::{Bytes, Word};
use braid_io::{Keeper, Loaded, Saved};
use std::alloc::Global;
use std::fs::{File, OpenFile};
use std::io::{ErrorKind, Read, Write};
use std::rt::Files;
use std::{fs, io};

/// A keeper over the system's files: a name is the path of a file.
///
/// A save writes a file beside it, named as it with `.new` after it, has the system store it, and then puts it in its
/// place. So a stop at any moment leaves the older bytes or the newer ones.
///
/// It tells its counts of faults, which stay at 2^64 - 1 once they are there. A name that is no text is a fault.
#[derive(Drop)]
pub struct FileKeeper<R> {
    rt: R,
    load_faults: u64,
    save_faults: u64,
}

impl<R: Files + Drop> FileKeeper<R> {
    /// A keeper with no fault so far.
    pub fn new(rt: R) -> FileKeeper<R>
        ensures new { (result.load_faults ≡ 0) × (result.save_faults ≡ 0) }
    {
        FileKeeper {
            rt,
            load_faults: 0,
            save_faults: 0,
        }
    }
}

impl<R: Files + Drop> Keeper for FileKeeper<R> {
    ghost use Rattle.braid_net.specs.Told.{untold_keeping};

    ghost keeping = { λ a. untold_keeping a.load_faults a.save_faults };

    fn load(&mut self, alloc: Global, name: &Word) -> Loaded {
        let kind = match read_file(&self.rt, alloc, name.get()) {
            Ok(bytes) => return Loaded::Bytes(bytes),
            Err(error) => error.kind(),
        };
        match kind {
            ErrorKind::NotFound => Loaded::Nothing,
            ErrorKind::OutOfMemory => Loaded::Memory,
            _ => {
                self.load_faults = self.load_faults.saturating_add(1);
                Loaded::Failed
            }
        }
    }

    fn save(&mut self, alloc: Global, name: &Word, bytes: &Bytes) -> Saved {
        let kind = match write_file(&self.rt, alloc, name.get(), bytes.get()) {
            Ok(()) => return Saved::Done,
            Err(error) => error.kind(),
        };
        match kind {
            ErrorKind::OutOfMemory => Saved::Memory,
            _ => {
                self.save_faults = self.save_faults.saturating_add(1);
                Saved::Failed
            }
        }
    }
}

/// A path as the text that it has to be.
fn text_of(path: &[u8]) -> io::Result<&str> {
    match str::from_utf8(path) {
        Ok(path) => Ok(path),
        Err(_) => Err(io::Error::from(ErrorKind::InvalidInput)),
    }
}

/// What a file holds.
fn read_file<R: Files>(rt: &R, alloc: Global, path: &[u8]) -> io::Result<Bytes> {
    let mut file = File::open(rt, text_of(path)?)?;
    let mut bytes = Vec::new(alloc);
    file.read_to_end(&mut bytes)?;
    match Bytes::of(alloc, &bytes) {
        Ok(bytes) => Ok(bytes),
        Err(_) => Err(io::Error::from(ErrorKind::OutOfMemory)),
    }
}

/// Writes a file beside the one at the path, and puts it in its place.
fn write_file<R: Files>(rt: &R, alloc: Global, path: &[u8], bytes: &[u8]) -> io::Result<()> {
    let path = text_of(path)?;
    let beside = format!(in alloc; "{path}.new")?;
    write_whole(rt, beside.as_str(), bytes)?;
    fs::rename(rt, beside.as_str(), path)?;
    sync_folder(rt, path);
    Ok(())
}

/// Writes a file with these bytes alone, and waits until the system has stored them.
fn write_whole<R: Files>(rt: &R, path: &str, bytes: &[u8]) -> io::Result<()> {
    let mut file = File::create(rt, path)?;
    file.write_all(bytes)?;
    file.sync_all()
}

/// Waits until the system has stored which files stand in the folder of this one. Where it refuses that, the new file
/// stands there all the same.
fn sync_folder<R: Files>(rt: &R, path: &str) {
    if let Ok(folder) = File::open(rt, folder_of(path)) {
        let _ = folder.sync_all();
    }
}

/// The folder that a path names a file in.
fn folder_of(path: &str) -> &str {
    match path.rsplit_once('/') {
        Some(("", _)) => "/",
        Some((folder, _)) => folder,
        None => ".",
    }
}
