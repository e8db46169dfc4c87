//! The words of a pool, of the root and of the objects alike.

ghost use Rattle.std.specs.Prelude.{◌≡◌};
ghost use Rattle.pool_map.specs.Words.{read_word, write_word};

use crate::pool::Pool;

/// A word of the pool: a root word, or a field word of the object in a slot.
#[derive(Clone, Copy)]
pub enum PoolWord {
    Root(u64),
    Field { slot: u64, word: u64 },
}

impl Pool {
    /// The word, or 0 if the pool has no such word.
    #[tactic(auto, using(std::proofs::lemmas::List::get_or_past, std::proofs::lemmas::List::set_past))]
    pub fn load(&self, word: PoolWord) -> i64
        ensures { result ≡ read_word self.now word }
    {
        match word {
            PoolWord::Root(word) => {
                if self.has_root_word(word) {
                    self.root_get(word)
                } else {
                    0
                }
            }
            PoolWord::Field { slot, word } => {
                if self.has_field(slot, word) {
                    self.get(slot, word)
                } else {
                    0
                }
            }
        }
    }

    /// Writes the word, if the pool has it.
    #[tactic(auto, using(std::proofs::lemmas::List::get_or_past, std::proofs::lemmas::List::set_past))]
    pub fn store(&mut self, word: PoolWord, value: i64)
        ensures { self.new ≡ write_word self.old word value }
    {
        match word {
            PoolWord::Root(word) => {
                if self.has_root_word(word) {
                    self.root_set(word, value);
                }
            }
            PoolWord::Field { slot, word } => {
                if self.has_field(slot, word) {
                    self.set(slot, word, value);
                }
            }
        }
    }
}
