//! A file that takes the place of an older one only when it is whole. It shows clauses no content.

ghost use Rattle.std.specs.Prelude.{◌≡◌, ◌<◌, ◌≤◌, None, length, IfOk};
ghost use Rattle.nvm_base.specs.Path.{path_of_saved};
ghost use Rattle.nvm_base.specs.Rose.{Rose};

use crate::output::WriteFault;
use crate::reason::Reason;
use crate::sink::{Sink, WriteAnswer};
use crate::std_sink::write_once;
use std::fs::{self, OpenFile, OpenOptions};
use std::io::{self, ErrorKind};
use std::path::Path;
use std::rt::Files;

/// How many names are tried for the new file.
const NAMES: u64 = 1000;

/// A file to be saved under a path. All bytes go to a new file beside the old one; `finish` syncs
/// it, gives it the path, and syncs the folder. So at any failure the path leads to the old file,
/// or to the whole new one. Its count of faults rises at each error, want of memory included, and
/// after the first one every write fails.
#[derive(Drop)]
pub struct SavedFile<'a, R: Files + AllocGlobal> {
    rt: &'a R,
    pub(crate) path: &'a str,
    draft: Option<Draft<R::File>>,
    faults: u64,
    reason: Option<Reason>,
}

/// A file that is being written.
#[derive(Drop)]
struct Draft<F> {
    file: F,
    /// The new file's path and the path that it is to get, or `None` for a device or a pipe, which
    /// is written as it is.
    paths: Option<Renaming>,
}

/// Two paths of a file: its first one, and the one that it is to get.
#[derive(Drop)]
struct Renaming {
    from: String,
    to: String,
}

impl<'a, R: Files + AllocGlobal> SavedFile<'a, R> {
    /// The file to be saved under this path. Nothing is made before the first write.
    pub fn new(rt: &'a R, path: &'a str) -> Self
        ensures faults { result.faults ≡ 0 }
        ensures path { path_of_saved result ≡ path.now }
    {
        SavedFile {
            rt,
            path,
            draft: None,
            faults: 0,
            reason: None,
        }
    }

    /// Why the first fault came, if the system said.
    pub fn reason(&self) -> Option<Reason> {
        self.reason
    }

    /// One write, of at least one byte, to the draft, which is made first if need be.
    fn write_some(&mut self, piece: &[u8]) -> Result<usize, Reason>
        ensures some { IfOk result (λ n. 0 < n) }
        ensures within { IfOk result (λ n. n ≤ length piece.now) }
        ensures same { self.new.faults ≡ self.old.faults }
    {
        if self.draft.is_none() {
            match begin(self.rt, self.path) {
                Ok(draft) => self.draft = Some(draft),
                Err(error) => return Err(Reason::of(&error)),
            }
        }
        match &mut self.draft {
            Some(draft) => write_once(&mut draft.file, piece),
            None => Err(Reason::Other(None)),
        }
    }

    /// Counts a fault, keeps its reason if it is the first, and drops the draft.
    fn fail(&mut self, reason: Reason)
        ensures rose { Rose self.old.faults self.new.faults }
        ensures count { self.old.faults ≤ self.new.faults }
    {
        self.faults = self.faults.saturating_add(1);
        if self.reason.is_none() {
            self.reason = Some(reason);
        }
        if let Some(draft) = self.draft.take() {
            draft.remove(self.rt);
        }
    }
}

impl<F: OpenFile + Drop> Draft<F> {
    /// Syncs the new file, gives it its path, and syncs the folder.
    fn settle<R: Files>(self, rt: &R) -> io::Result<()> {
        let Draft { file, paths } = self;
        let Some(paths) = paths else {
            return Ok(());
        };
        let synced = file.sync_all();
        drop(file);
        let settled = match synced {
            Ok(()) => fs::rename(rt, paths.from.as_str(), paths.to.as_str()),
            Err(error) => Err(error),
        };
        match settled {
            Ok(()) => sync_folder(rt, paths.to.as_str()),
            Err(_) => remove(rt, &paths),
        }
        settled
    }

    /// Removes the new file, whose writing failed.
    fn remove<R: Files>(self, rt: &R) {
        let Draft { file, paths } = self;
        drop(file);
        if let Some(paths) = paths {
            remove(rt, &paths);
        }
    }
}

/// Removes the new file. Where that fails too, it stays beside the old one.
fn remove<R: Files>(rt: &R, paths: &Renaming) {
    match fs::remove_file(rt, paths.from.as_str()) {
        Ok(()) => (),
        Err(_) => (),
    }
}

/// Syncs the folder of a path, where the system grants that, so that the path leads to the new file
/// after a loss of power too.
fn sync_folder<R: Files>(rt: &R, path: &str) {
    let Ok(folder) = OpenOptions::new().read(true).open(rt, folder_of(path)) else {
        return;
    };
    match folder.sync_all() {
        Ok(()) => (),
        Err(_) => (),
    }
}

/// The folder of a path.
fn folder_of(path: &str) -> &str {
    match Path::new(path).parent() {
        Some(folder) if !folder.as_str().is_empty() => folder.as_str(),
        _ => ".",
    }
}

/// A draft of the file of a path. A device or a pipe has no draft, and is written as it is.
fn begin<R: Files + AllocGlobal>(rt: &R, path: &str) -> io::Result<Draft<R::File>> {
    let Ok(old) = rt.metadata(path) else {
        return begin_beside(rt, path);
    };
    if !old.is_file() {
        return Ok(Draft {
            file: fs::create(rt, path)?,
            paths: None,
        });
    }
    let whole = fs::canonicalize(rt, path)?;
    let draft = begin_beside(rt, whole.as_str())?;
    // The new file has the old one's permissions, where the system grants them.
    match draft.file.set_permissions(old.permissions()) {
        Ok(()) => (),
        Err(_) => (),
    }
    Ok(draft)
}

/// A new file beside that of the path, under the first name that no file has.
fn begin_beside<R: Files + AllocGlobal>(rt: &R, path: &str) -> io::Result<Draft<R::File>> {
    for number in 0..NAMES {
        let from = format!(in rt.alloc(); "{path}.{number}.part")?;
        match create_new(rt, from.as_str()) {
            Ok(file) => return draft_of(rt, file, from, path),
            Err(error) if error.kind() == ErrorKind::AlreadyExists => (),
            Err(error) => return Err(error),
        }
    }
    Err(io::Error::from(ErrorKind::AlreadyExists))
}

/// Makes a file, which may not exist yet.
fn create_new<R: Files>(rt: &R, path: &str) -> io::Result<R::File> {
    OpenOptions::new()
        .write(true)
        .create_new(true)
        .open(rt, path)
}

/// The draft with this file.
fn draft_of<R: Files + AllocGlobal>(
    rt: &R,
    file: R::File,
    from: String,
    path: &str,
) -> io::Result<Draft<R::File>> {
    let to = format!(in rt.alloc(); "{path}")?;
    Ok(Draft {
        file,
        paths: Some(Renaming { from, to }),
    })
}

impl<R: Files + AllocGlobal> Sink for SavedFile<'_, R> {
    ghost written = { λ _. None };

    ghost faults = { λ s. s.faults };

    fn write(&mut self, piece: &[u8]) -> WriteAnswer {
        if self.faults > 0 {
            self.fail(Reason::Other(None));
            return WriteAnswer::Failed;
        }
        match self.write_some(piece) {
            Ok(count) => WriteAnswer::Count(count),
            Err(reason) => {
                self.fail(reason);
                WriteAnswer::Failed
            }
        }
    }

    fn finish(&mut self) -> Result<(), WriteFault> {
        let Some(draft) = self.draft.take() else {
            return Ok(());
        };
        match draft.settle(self.rt) {
            Ok(()) => Ok(()),
            Err(error) => {
                self.fail(Reason::of(&error));
                Err(WriteFault)
            }
        }
    }
}
