//! The older versions of a line.

ghost use Rattle.std.specs.Prelude.{◌≡◌, ◌<◌, ◌≤◌, ◌^◌, ◌++◌, ◌∷◌, [], OnOk, OnErr, IfOk, length};
ghost use Rattle.std.specs.Prelude.{slice_get, None, drop};
ghost use Rattle.pmem.specs.inside.Sparse.{flush_older, fence_older, has_older, left_older};

use cache_model::Rest;
use std::alloc::{AllocError, Global};
use std::marker::Model;

/// The versions older than the newest, oldest first, and the mark.
#[derive(Drop)]
pub struct Kept {
    versions: Vec<[i64; 8]>,
    mark: Option<usize>,
}

impl Model for Kept {
    ghost use Rattle.std.specs.Prelude.{◌≤◌, vec_len};
    ghost use Rattle.std.specs.Option.{ForSome};
    ghost use Rattle.pmem.specs.Sparse.{Older};

    ghost Value = { Older };

    ghost view = { λ v. record { older = v.versions.items; mark = v.mark } };

    ghost invariant = { λ v. ForSome v.mark (λ k. k ≤ vec_len v.versions) };
}

impl Kept {
    /// One older version, with no mark.
    pub fn one(alloc: Global, version: [i64; 8]) -> Result<Self, AllocError>
        ensures { IfOk result (λ kept. kept ≡ record { older = version ∷ []; mark = None }) }
    {
        let mut versions = Vec::new(alloc);
        versions.push(version)?;
        Ok(Kept {
            versions,
            mark: None,
        })
    }

    /// One older version in place of all, with no mark, in the same buffer.
    pub fn again(mut self, version: [i64; 8]) -> Result<Self, AllocError>
        ensures { IfOk result (λ kept. kept ≡ record { older = version ∷ []; mark = None }) }
    {
        self.mark = None;
        self.versions.clear();
        self.versions.push(version)?;
        Ok(self)
    }

    /// The number of older versions.
    pub fn len(&self) -> u64
        ensures len { result ≡ length self.now.older }
        ensures small { result < 2 ^ 63 }
    {
        self.versions.len() as u64
    }

    /// Whether there is an older version.
    pub fn has_older(&self) -> bool
        ensures { result ≡ has_older self.now.older }
    {
        !self.versions.is_empty()
    }

    /// The version at this index, counted from the oldest.
    pub fn version(&self, at: u64) -> Option<[i64; 8]>
        ensures { result ≡ slice_get self.now.older at }
    {
        self.versions.get(at as usize).copied()
    }

    /// The older version that a power cut leaves; none if it leaves the newest.
    pub fn left(&self, rest: Rest, pick: Option<u64>) -> Option<[i64; 8]>
        ensures { result ≡ left_older rest pick self.now }
    {
        match pick {
            Some(k) => self.version(k),
            None => match rest {
                Rest::Old => self.version(0),
                Rest::New => None,
            },
        }
    }

    /// Appends a version.
    pub fn push(&mut self, version: [i64; 8]) -> Result<(), AllocError>
        ensures done { OnOk result (self.new
            ≡ record { older = self.old.older ++ version ∷ []; mark = self.old.mark }) }
        ensures refused { OnErr result (self.new ≡ self.old) }
    {
        self.versions.push(version)?;
        Ok(())
    }

    /// Marks the newest version of the line.
    pub fn flush(&mut self)
        ensures { self.new ≡ flush_older self.old }
    {
        if !self.versions.is_empty() {
            self.mark = Some(self.versions.len());
        }
    }

    /// Drops the versions older than the mark, and clears the mark.
    pub fn fence(&mut self)
        ensures { self.new ≡ fence_older self.old }
    {
        if let Some(k) = self.mark {
            drop_first(&mut self.versions, k);
            self.mark = None;
        }
    }
}

/// Drops the first versions; mostly they are all.
#[tactic(auto, using(std::proofs::lemmas::List::drop_all))]
fn drop_first(versions: &mut Vec<[i64; 8]>, count: usize)
    requires { count ≤ length versions.old.items }
    ensures { versions.new.items ≡ drop count versions.old.items }
{
    if count == versions.len() {
        versions.clear();
    } else {
        versions.drain(..count);
    }
}
