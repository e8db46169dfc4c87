//! The place of a pool's file in the file system. It tells clauses nothing of what its name leads
//! to.

ghost use Rattle.std.specs.Prelude.{◌≡◌, ◌≤◌, None};
ghost use Rattle.nvm_base.specs.Rose.{Rose};

use crate::pools::{Held, Made, Pools};
use crate::std_file::{Hold, StdFile, write_lines};
use nvm_base::Reason;
use std::fs::{self, OpenFile, OpenOptions};
use std::io::{self, ErrorKind};
use std::os::unix::fs::{FileExt, MetadataExt};
use std::path::Path;
use std::rt::Files;

/// How many names are tried for a draft.
const NAMES: u64 = 1000;

/// The file under a path. It is held by a lock that ends with the process. Its count of faults
/// rises at each error.
#[derive(Drop)]
pub struct StdPools<'a, R: Files + AllocGlobal> {
    rt: &'a R,
    path: &'a str,
    faults: u64,
    reason: Option<Reason>,
}

impl<'a, R: Files + AllocGlobal> StdPools<'a, R> {
    /// The place of this path. Nothing is opened or made yet.
    pub fn new(rt: &'a R, path: &'a str) -> Self
        ensures { result.faults ≡ 0 }
    {
        StdPools {
            rt,
            path,
            faults: 0,
            reason: None,
        }
    }

    /// Why the last fault came, if the system said.
    pub fn reason(&self) -> Option<Reason> {
        self.reason
    }

    /// Counts a fault.
    fn fault(&mut self, error: &io::Error)
        ensures count { self.old.faults ≤ self.new.faults }
        ensures rose { Rose self.old.faults self.new.faults }
    {
        self.faults = self.faults.saturating_add(1);
        self.reason = Some(Reason::of(error));
    }
}

/// Opens the file of a path and holds it, unless another process does.
fn open_held<R: Files>(rt: &R, path: &str) -> io::Result<Option<R::File>>
where
    R::File: Hold,
{
    let file = OpenOptions::new().read(true).write(true).open(rt, path)?;
    if file.hold()? && leads_to(rt, path, &file)? {
        return Ok(Some(file));
    }
    Ok(None)
}

/// Whether a path leads to this file still: another one may have taken its place since it was
/// opened.
fn leads_to<R: Files>(rt: &R, path: &str, file: &R::File) -> io::Result<bool> {
    let named = rt.metadata(path)?;
    let held = file.metadata()?;
    Ok(named.dev() == held.dev() && named.ino() == held.ino())
}

/// Makes the file of a path and holds it, unless there is one.
fn make_held<R: Files + AllocGlobal>(
    rt: &R,
    path: &str,
    words: &[i64],
) -> io::Result<Option<R::File>>
where
    R::File: FileExt + Hold,
{
    for number in 0..NAMES {
        let draft = format!(in rt.alloc(); "{path}.{number}.part")?;
        match create_new(rt, draft.as_str()) {
            Ok(file) => return settle(rt, file, draft.as_str(), path, words),
            Err(error) if error.kind() == ErrorKind::AlreadyExists => (),
            Err(error) => return Err(error),
        }
    }
    Err(io::Error::from(ErrorKind::AlreadyExists))
}

/// Makes a file, which may not exist yet.
fn create_new<R: Files>(rt: &R, path: &str) -> io::Result<R::File> {
    OpenOptions::new()
        .read(true)
        .write(true)
        .create_new(true)
        .open(rt, path)
}

/// Fills a draft, gives it the path, unless another file has it, and removes the draft's own name.
fn settle<R: Files>(
    rt: &R,
    file: R::File,
    draft: &str,
    path: &str,
    words: &[i64],
) -> io::Result<Option<R::File>>
where
    R::File: FileExt + Hold,
{
    let linked = link(rt, &file, draft, path, words);
    if linked.is_ok() {
        sync_folder(rt, path);
    }
    remove(rt, draft);
    match linked {
        Ok(()) => Ok(Some(file)),
        Err(error) if error.kind() == ErrorKind::AlreadyExists => Ok(None),
        Err(error) => Err(error),
    }
}

/// Writes the words to a draft, makes it safe, holds it, and gives it the path.
fn link<R: Files>(rt: &R, file: &R::File, draft: &str, path: &str, words: &[i64]) -> io::Result<()>
where
    R::File: FileExt + Hold,
{
    write_lines(file, words)?;
    file.sync_all()?;
    if !file.hold()? {
        return Err(io::Error::from(ErrorKind::WouldBlock));
    }
    fs::hard_link(rt, draft, path)
}

/// Removes a name. Where that fails, it stays beside the file.
fn remove<R: Files>(rt: &R, path: &str) {
    match fs::remove_file(rt, path) {
        Ok(()) => (),
        Err(_) => (),
    }
}

/// Syncs the folder of a path, where the system grants that, so that the path leads to the file
/// after a loss of power too.
fn sync_folder<R: Files>(rt: &R, path: &str) {
    let Ok(folder) = OpenOptions::new().read(true).open(rt, folder_of(path)) else {
        return;
    };
    match folder.sync_all() {
        Ok(()) => (),
        Err(_) => (),
    }
}

/// The folder of a path.
fn folder_of(path: &str) -> &str {
    match Path::new(path).parent() {
        Some(folder) if !folder.as_str().is_empty() => folder.as_str(),
        _ => ".",
    }
}

impl<R: Files + AllocGlobal> Pools for StdPools<'_, R>
where
    R::File: FileExt + Hold,
{
    type File = StdFile<R::File>;

    ghost found = { λ _. None };

    ghost faults = { λ p. p.faults };

    fn hold(&mut self) -> Held<StdFile<R::File>> {
        match open_held(self.rt, self.path) {
            Ok(Some(file)) => Held::Held(StdFile::new(file)),
            Ok(None) => Held::Busy,
            Err(error) if error.kind() == ErrorKind::NotFound => Held::Missing,
            Err(error) => {
                self.fault(&error);
                Held::Failed
            }
        }
    }

    fn make(&mut self, words: &[i64]) -> Made<StdFile<R::File>> {
        match make_held(self.rt, self.path, words) {
            Ok(Some(file)) => Made::Made(StdFile::new(file)),
            Ok(None) => Made::Busy,
            Err(error) => {
                self.fault(&error);
                Made::Failed
            }
        }
    }
}
