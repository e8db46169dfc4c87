//! One line with its versions.

ghost use Rattle.std.specs.Prelude.{◌≡◌, ◌<◌, ◌≤◌, ◌+◌, OnOk, OnErr, length, slice_index_or, pos};
ghost use Rattle.std.specs.Prelude.{IsTrue};
ghost use Rattle.cache_model.specs.inside.Lists.{zero_list, list_store, list_flush, list_fence};
ghost use Rattle.cache_model.specs.inside.Lists.{list_keep, list_rest};

use crate::choice::Rest;
use std::alloc::{AllocError, Global};
use std::marker::Model;

/// The versions older than the newest, oldest first, the newest, and the mark.
#[derive(Drop)]
pub struct Versions {
    older: Vec<[i64; 8]>,
    newest: [i64; 8],
    mark: Option<usize>,
}

impl Model for Versions {
    ghost use Rattle.std.specs.Prelude.{◌≤◌, vec_len};
    ghost use Rattle.std.specs.Option.{ForSome};
    ghost use Rattle.cache_model.specs.Lists.{ListLine};

    ghost Value = { ListLine };

    ghost view = { λ v. record { older = v.older.items; newest = v.newest; mark = v.mark } };

    ghost invariant = { λ v. ForSome v.mark (λ k. k ≤ vec_len v.older) };
}

impl Versions {
    /// One version, all zeros. It takes no memory.
    pub fn blank(alloc: Global) -> Self
        ensures { result ≡ zero_list }
    {
        Versions {
            older: Vec::new(alloc),
            newest: [0; 8],
            mark: None,
        }
    }

    /// The number of versions.
    pub fn len(&self) -> u64
        ensures { result ≡ length self.now.older + 1 }
    {
        self.older.len() as u64 + 1
    }

    /// The word in the newest version.
    pub fn load(&self, at: usize) -> i64
        requires { at < 8 }
        ensures { result ≡ slice_index_or self.now.newest at (pos 0) }
    {
        self.newest[at]
    }

    /// Appends the newest version with one word replaced.
    pub fn store(&mut self, at: usize, value: i64) -> Result<(), AllocError>
        requires { at < 8 }
        ensures done { OnOk result (self.new ≡ list_store self.old at value) }
        ensures refused { OnErr result (self.new ≡ self.old) }
    {
        let newest = self.newest;
        self.older.push(newest)?;
        self.newest[at] = value;
        Ok(())
    }

    /// Marks the newest version, if there is an older one.
    pub fn flush(&mut self)
        ensures { self.new ≡ list_flush self.old }
    {
        if !self.older.is_empty() {
            self.mark = Some(self.older.len());
        }
    }

    /// Drops the versions older than the mark, and clears the mark.
    pub fn fence(&mut self)
        ensures { self.new ≡ list_fence self.old }
    {
        if let Some(k) = self.mark {
            self.older.drain(..k);
            self.mark = None;
        }
    }

    /// Keeps only the version at this index, counted from the oldest; an index past the older ones
    /// means the newest.
    pub fn keep(&mut self, version: usize)
        ensures kept { self.new ≡ list_keep version self.old }
        ensures whole { length self.new.newest ≡ 8 }
    {
        if let Some(kept) = self.older.get(version).copied() {
            self.newest = kept;
        }
        self.older.clear();
        self.mark = None;
    }

    /// Keeps only the oldest or only the newest version.
    pub fn keep_rest(&mut self, rest: Rest)
        ensures kept { self.new ≡ list_rest rest self.old }
        ensures whole { length self.new.newest ≡ 8 }
    {
        match rest {
            Rest::Old => self.keep(0),
            Rest::New => {
                self.older.clear();
                self.mark = None;
            }
        }
    }
}
