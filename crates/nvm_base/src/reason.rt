//! Why the system refused to read or to write.

use std::io::{self, ErrorKind};

/// Why the system refused to read or to write.
#[derive(Clone, Copy)]
pub enum Reason {
    NotFound,
    Denied,
    Directory,
    NotDirectory,
    ReadOnly,
    Full,
    Quota,
    TooLarge,
    Closed,
    BadName,
    NoMemory,
    /// Another error, with the system's number where it has one.
    Other(Option<i32>),
}

impl Reason {
    /// The reason of an error.
    pub fn of(error: &io::Error) -> Reason {
        match error.kind() {
            ErrorKind::NotFound => Reason::NotFound,
            ErrorKind::PermissionDenied => Reason::Denied,
            ErrorKind::IsADirectory => Reason::Directory,
            ErrorKind::NotADirectory => Reason::NotDirectory,
            ErrorKind::ReadOnlyFilesystem => Reason::ReadOnly,
            ErrorKind::StorageFull => Reason::Full,
            ErrorKind::QuotaExceeded => Reason::Quota,
            ErrorKind::FileTooLarge => Reason::TooLarge,
            ErrorKind::BrokenPipe => Reason::Closed,
            ErrorKind::InvalidFilename => Reason::BadName,
            ErrorKind::OutOfMemory => Reason::NoMemory,
            _ => Reason::Other(error.raw_os_error()),
        }
    }

    /// The reason in words. Other errors share one text, and differ by their numbers.
    pub fn words(self) -> &'static str {
        match self {
            Reason::NotFound => "no such file",
            Reason::Denied => "permission denied",
            Reason::Directory => "it is a directory",
            Reason::NotDirectory => "a part of its path is not a directory",
            Reason::ReadOnly => "the file system is read-only",
            Reason::Full => "no space is left on the device",
            Reason::Quota => "the quota is used up",
            Reason::TooLarge => "the file would be too large",
            Reason::Closed => "its reader is gone",
            Reason::BadName => "no file can have this name",
            Reason::NoMemory => "out of memory",
            Reason::Other(_) => "the system refused",
        }
    }
}
