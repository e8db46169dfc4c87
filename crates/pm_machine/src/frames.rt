//! The call stack. All its memory is allocated at the start, so a call takes none.

ghost use Rattle.std.specs.Prelude.{◌≡◌, ◌+◌, ◌-◌, ◌*◌, ◌<◌, ◌≤◌, ◌++◌, ◌∷◌, [], Some, true, false};
ghost use Rattle.std.specs.Prelude.{IfOk, length, take, slice_get, vec_capacity};
ghost use Rattle.pm_machine.specs.Stack.{Stack};

use crate::frame::Frame;
use std::alloc::{AllocError, Global};
use std::marker::Model;

/// The greatest number of callers of the open function.
pub const CALLERS: usize = 255;

/// A frame without its registers, and how many of these are kept; all others are 0.
#[derive(Clone, Copy)]
pub struct Waiting {
    pub function: u32,
    pub place: usize,
    pub to: u32,
    pub used: usize,
}

/// Frames of one size, the latest last, seen with that size. The kept words of their registers are
/// in one list, frame after frame.
#[derive(Drop)]
pub struct Frames {
    waiting: Vec<Waiting>,
    words: Vec<i64>,
    size: u32,
}

impl Model for Frames {
    ghost use Rattle.std.specs.Prelude.{◌≡◌, ◌≤◌, ◌*◌, length, vec_capacity};
    ghost use Rattle.pm_machine.specs.Stack.{Stack, frames_of};
    ghost use Rattle.pm_machine.specs.inside.Stack.{words_of, AreSized};

    ghost Value = { Stack };

    ghost view = { λ s. record {
      frames = frames_of s.size s.waiting.items s.words.items;
      size = s.size;
    } };

    ghost invariant = { λ s. (255 ≤ vec_capacity s.waiting) × (length s.waiting.items ≤ 255)
        × (255 * s.size ≤ vec_capacity s.words)
        × (length s.words.items ≡ words_of s.waiting.items) × AreSized s.size s.waiting.items };
}

impl Frames {
    /// An empty stack with room for all callers, of frames of this size.
    pub fn new(alloc: Global, size: u32) -> Result<Self, AllocError>
        ensures empty { IfOk result (λ s. s.frames ≡ []) }
        ensures size { IfOk result (λ s. s.size ≡ size) }
    {
        let waiting = Vec::with_capacity(alloc, CALLERS)?;
        let words = Vec::with_capacity(alloc, CALLERS * size as usize)?;
        Ok(Frames {
            waiting,
            words,
            size,
        })
    }

    /// The number of registers of a frame.
    pub(crate) fn size(&self) -> u32
        ensures { result ≡ self.now.size }
    {
        self.size
    }

    /// Takes all frames off the stack, and keeps its memory.
    pub(crate) fn clear(&mut self)
        ensures empty { self.new.frames ≡ [] }
        ensures size { self.new.size ≡ self.old.size }
    {
        self.waiting.clear();
        self.words.clear();
    }

    /// How many functions are open.
    pub fn len(&self) -> usize
        ensures len { result ≡ length self.now.frames }
        ensures most { result ≤ 255 }
    {
        self.waiting.len()
    }

    /// Pushes a frame. There is room, so it takes no memory.
    pub fn push(&mut self, frame: &Frame)
        requires room { length self.old.frames < 255 }
        requires size { length frame.now.registers ≡ self.old.size }
        ensures frames { self.new.frames ≡ self.old.frames ++ frame.now ∷ [] }
        ensures size { self.new.size ≡ self.old.size }
    {
        let words = frame.registers.used();
        push_words(&mut self.words, words);
        push_waiting(
            &mut self.waiting,
            Waiting {
                function: frame.function,
                place: frame.place,
                to: frame.to,
                used: words.len(),
            },
        );
    }

    /// Pops the frame on top, and says whether there was one.
    pub fn pop(&mut self, frame: &mut Frame) -> bool
        requires size { length frame.old.registers ≡ self.old.size }
        ensures some { result ≡ true → slice_get self.old.frames (length self.old.frames - 1)
            ≡ Some frame.new }
        ensures others { result ≡ true → self.new.frames ≡ take (length self.old.frames - 1)
            self.old.frames }
        ensures sized { length frame.new.registers ≡ self.old.size }
        ensures none { result ≡ false → self.old.frames ≡ [] }
        ensures left { result ≡ false → frame.new ≡ frame.old }
        ensures same { result ≡ false → self.new ≡ self.old }
        ensures size { self.new.size ≡ self.old.size }
    {
        let Some(waiting) = self.waiting.pop() else {
            return false;
        };
        let from = self.words.len() - waiting.used;
        frame.registers.refill(&self.words[from..]);
        self.words.truncate(from);
        frame.function = waiting.function;
        frame.place = waiting.place;
        frame.to = waiting.to;
        true
    }
}

/// Appends a frame without its registers; there is room for it.
fn push_waiting(to: &mut Vec<Waiting>, waiting: Waiting)
    requires { length to.old.items < vec_capacity to.old }
    ensures items { to.new.items ≡ to.old.items ++ waiting ∷ [] }
    ensures capacity { vec_capacity to.old ≤ vec_capacity to.new }
{
    let _ = to.push(waiting);
}

/// Appends words; there is room for them.
fn push_words(to: &mut Vec<i64>, words: &[i64])
    requires { length to.old.items + length words.now ≤ vec_capacity to.old }
    ensures items { to.new.items ≡ to.old.items ++ words.now }
    ensures capacity { vec_capacity to.old ≤ vec_capacity to.new }
{
    let _ = to.extend_from_slice(words);
}
