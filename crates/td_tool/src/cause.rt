//! Why a file can't be read.

/// Why a file can't be read.
#[derive(Clone, Copy, Drop)]
pub enum Cause {
    /// Its path leads nowhere.
    NoSuchFile,
    /// It, or a folder above it, may not be read.
    NotPermitted,
    /// It is a folder.
    IsFolder,
    /// It has more bytes than are read of a file.
    TooLong,
}
