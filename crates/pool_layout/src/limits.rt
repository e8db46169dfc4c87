//! The sizes of a pool, each within its limit.

ghost use Rattle.std.specs.Prelude.{◌≡◌, ◌*◌, IfSome, IfNone};
ghost use Rattle.pool_layout.specs.Limits.{IsWithin, InLimits};
ghost use Rattle.pool_map.specs.declared.limits.TheConstants.{RECORDS, ROOT_WORDS, SLOTS, TICKS};

use pool_map::{LEAST_SLOT, MOST_SLOT, RECORDS, ROOT_WORDS, SLOTS, TICKS};

/// A pool takes a call if its numbers of finished calls and of attempts are below this.
pub const NUMBER_LIMIT: u64 = 1 << 62;

/// The sizes of a pool, each within its limit: 1 to 1,048,576 slots, 1 to 65,536 log records,
/// 1 to 65,536 root words, 16 to 512 words of a slot in whole lines, and 1 to 1,000,000 ticks for a
/// transaction.
#[derive(Clone, Copy)]
pub struct Sizes {
    slots: u64,
    records: u64,
    root_words: u64,
    slot_lines: u64,
    ticks: u64,
    ghost slots_fit: { IsWithin 1 SLOTS slots },
    ghost records_fit: { IsWithin 1 RECORDS records },
    ghost root_words_fit: { IsWithin 1 ROOT_WORDS root_words },
    ghost slot_fits: { IsWithin 2 64 slot_lines },
    ghost ticks_fit: { IsWithin 1 TICKS ticks },
}

impl Sizes {
    /// The pool's sizes, or `None` if one of them is outside its limit.
    pub fn new(
        slots: u64,
        records: u64,
        root_words: u64,
        slot_words: u64,
        ticks: u64,
    ) -> Option<Sizes>
        ensures slots { IfSome result (λ s. s.slots ≡ slots) }
        ensures records { IfSome result (λ s. s.records ≡ records) }
        ensures root_words { IfSome result (λ s. s.root_words ≡ root_words) }
        ensures slot_words { IfSome result (λ s. 8 * s.slot_lines ≡ slot_words) }
        ensures ticks { IfSome result (λ s. s.ticks ≡ ticks) }
        ensures outside { IfNone result (¬ InLimits slots records root_words slot_words ticks) }
    {
        if slots < 1 || slots > SLOTS || records < 1 || records > RECORDS {
            return None;
        }
        if root_words < 1 || root_words > ROOT_WORDS || ticks < 1 || ticks > TICKS {
            return None;
        }
        if slot_words < LEAST_SLOT || slot_words > MOST_SLOT || slot_words % 8 != 0 {
            return None;
        }
        Some(Sizes {
            slots,
            records,
            root_words,
            slot_lines: slot_words / 8,
            ticks,
        })
    }

    /// How many slots a pool has.
    pub fn slots(&self) -> u64
        ensures { result ≡ self.now.slots }
    {
        self.slots
    }

    /// How many records a pool's log has.
    pub fn records(&self) -> u64
        ensures { result ≡ self.now.records }
    {
        self.records
    }

    /// How many words the root has.
    pub fn root_words(&self) -> u64
        ensures { result ≡ self.now.root_words }
    {
        self.root_words
    }

    /// How many lines a slot has.
    pub fn slot_lines(&self) -> u64
        ensures { result ≡ self.now.slot_lines }
    {
        self.slot_lines
    }

    /// How many words a slot has: its header and those of the largest object.
    pub fn slot_words(&self) -> u64
        ensures { result ≡ 8 * self.now.slot_lines }
    {
        8 * self.slot_lines
    }

    /// How many ticks a call has.
    pub fn ticks(&self) -> u64
        ensures { result ≡ self.now.ticks }
    {
        self.ticks
    }
}
