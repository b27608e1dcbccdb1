//! The files of the disk.
use std::alloc::Global;
use std::fs;
use std::fs::File;
use std::io::{ErrorKind, Read};
use std::thread::Threads;
use td_bytes::{TextFault, halves_of, read_text};
use td_tool::{Cause, Packing, Texts, packing_of};

// What an error of this kind says of why a file can't be read.
fn cause_of(kind: ErrorKind) -> Option<Cause> {
    match kind {
        ErrorKind::NotFound | ErrorKind::NotADirectory => Some(Cause::NoSuchFile),
        ErrorKind::PermissionDenied => Some(Cause::NotPermitted),
        _ => None,
    }
}

// How many bytes a file has, if that is known and within the limit, and else 0. It may grow.
fn length_within(file: &File, limit: usize) -> usize {
    match file.metadata() {
        Ok(found) if found.is_file() && found.len() <= limit as u64 => found.len() as usize,
        _ => 0,
    }
}

// The shortest file that is read by two threads, in bytes.
const LEAST: usize = 1_048_576;

// The files of the disk. Clauses know nothing of their bytes.
#[derive(Drop)]
pub(crate) struct Disk<'a>(pub(crate) &'a HostRuntime);

impl Texts for Disk<'_> {
    ghost use Rattle.std.specs.Prelude.{None, true};

    ghost bytes = { λ _ _. None };

    ghost can_fail = { λ _ _ _. true };

    ghost can_be = { λ _ _ _ _. true };

    ghost can_pack = { λ _ _ _. true };

    fn text(&self, alloc: Global, path: &str, limit: usize) -> Result<String, TextFault> {
        match File::open(self.0, path) {
            Ok(mut file) => {
                let room = length_within(&file, limit);
                read_text(alloc, &mut file, limit, room)
            }
            Err(error) if error.kind() == ErrorKind::OutOfMemory => Err(TextFault::NoMemory),
            Err(_) => Err(TextFault::CannotRead),
        }
    }

    fn halves<R: Threads + Sync>(
        &self,
        rt: &R,
        alloc: Global,
        path: &str,
        limit: usize,
    ) -> Option<(String, String)> {
        // (a pipe isn't opened here: nobody would write to it a second time)
        if !fs::metadata(self.0, path).ok()?.is_file() {
            return None;
        }
        let file = File::open(self.0, path).ok()?;
        let length = length_within(&file, limit);
        if length < LEAST {
            return None;
        }
        halves_of(rt, alloc, &file, length, limit)
    }

    // Only a file is opened for it: to open a pipe would wait for a writer.
    fn cause(&self, path: &str, limit: usize) -> Option<Cause> {
        match fs::metadata(self.0, path) {
            Err(error) => cause_of(error.kind()),
            Ok(found) if found.is_dir() => Some(Cause::IsFolder),
            Ok(found) if found.len() > limit as u64 => Some(Cause::TooLong),
            Ok(found) if found.is_file() => match File::open(self.0, path) {
                Ok(_) => None,
                Err(error) => cause_of(error.kind()),
            },
            Ok(_) => None,
        }
    }

    // (a pipe isn't opened here either)
    fn packing(&self, path: &str) -> Option<Packing> {
        if !fs::metadata(self.0, path).ok()?.is_file() {
            return None;
        }
        let mut file = File::open(self.0, path).ok()?;
        let mut front = [0; 6];
        let count = file.read(&mut front).ok()?;
        packing_of(front.get(..count)?)
    }
}
