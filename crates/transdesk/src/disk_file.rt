//! The files of desks on the disk.
use crate::disk::Disk;
use std::fs::{File, OpenOptions, TryLockError};
use std::io;
use std::io::ErrorKind;
use std::os::unix::fs::FileExt;
use td_ledger::{Device, DeviceFault};
use td_session::OpenRefusal;
use td_tool::Desks;

// A file that is open to read and write, and locked. Clauses know nothing of its bytes.
#[derive(Drop)]
pub(crate) struct DiskFile {
    file: File,
    // Whether it was cut since it was last synced: its length isn't data.
    is_cut: bool,
}

// What a call came to. (std goes on after a short read or write, and after a signal)
fn told<T>(answer: io::Result<T>) -> Result<T, DeviceFault> {
    match answer {
        Ok(value) => Ok(value),
        Err(_) => Err(DeviceFault),
    }
}

impl Device for DiskFile {
    ghost use Rattle.transdesk.specs.Unknown.{unknown};

    ghost known = { λ _. unknown };

    fn len(&mut self) -> Result<usize, DeviceFault> {
        match self.file.metadata() {
            Ok(found) => Ok(found.len() as usize),
            Err(_) => Err(DeviceFault),
        }
    }

    fn read_at(&mut self, at: usize, buffer: &mut [u8]) -> Result<(), DeviceFault> {
        told(self.file.read_exact_at(buffer, at as u64))
    }

    fn write_at(&mut self, at: usize, bytes: &[u8]) -> Result<(), DeviceFault> {
        told(self.file.write_all_at(bytes, at as u64))
    }

    fn set_len(&mut self, size: usize) -> Result<(), DeviceFault> {
        self.is_cut = true;
        told(self.file.set_len(size as u64))
    }

    fn sync(&mut self) -> Result<(), DeviceFault> {
        if self.is_cut {
            told(self.file.sync_all())?;
            self.is_cut = false;
            return Ok(());
        }
        told(self.file.sync_data())
    }
}

// Syncs the folder of a path, so that a file that was made there is found after a stop.
fn sync_folder(rt: &HostRuntime, path: &str) -> io::Result<()> {
    let folder = match path.rsplit_once('/') {
        Some(("", _)) => "/",
        Some((folder, _)) => folder,
        None => ".",
    };
    File::open(rt, folder)?.sync_all()
}

// Locks a file, or says why not.
fn lock(file: &File, waits: bool) -> Result<(), OpenRefusal> {
    if waits {
        return match file.lock() {
            Ok(()) => Ok(()),
            Err(_) => Err(OpenRefusal::CannotRead),
        };
    }
    match file.try_lock() {
        Ok(()) => Ok(()),
        Err(TryLockError::WouldBlock) => Err(OpenRefusal::Locked),
        Err(TryLockError::Error(_)) => Err(OpenRefusal::CannotRead),
    }
}

// Why a file isn't opened.
fn refusal_of(error: &io::Error) -> OpenRefusal {
    match error.kind() {
        ErrorKind::OutOfMemory => OpenRefusal::NoMemory,
        _ => OpenRefusal::CannotRead,
    }
}

// Whether a file is none but a file, and empty. What has a byte was found in its folder when that
// was written.
fn is_empty(file: &File) -> Result<bool, OpenRefusal> {
    match file.metadata() {
        Ok(found) if found.is_file() => Ok(found.len() == 0),
        Ok(_) | Err(_) => Err(OpenRefusal::CannotRead),
    }
}

impl Desks for Disk<'_> {
    ghost use Rattle.transdesk.specs.Unknown.{unknown_desks};

    type Opened = DiskFile;

    ghost desks = { λ _. unknown_desks };

    fn open_desk(&self, path: &str, waits: bool) -> Result<DiskFile, OpenRefusal> {
        let opened = OpenOptions::new()
            .read(true)
            .write(true)
            .create(true)
            .open(self.0, path);
        let file = match opened {
            Ok(file) => file,
            Err(error) => return Err(refusal_of(&error)),
        };
        lock(&file, waits)?;
        if is_empty(&file)? && sync_folder(self.0, path).is_err() {
            return Err(OpenRefusal::CannotRead);
        }
        Ok(DiskFile {
            file,
            is_cut: false,
        })
    }
}
