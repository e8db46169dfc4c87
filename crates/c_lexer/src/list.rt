//! The tokens of a text with their places, and the place of the text's end.

ghost use Rattle.std.specs.Prelude.{◌≡◌, ◌≤◌, ◌++◌, ◌∷◌, [], length, slice_get, OnOk};
ghost use Rattle.std.specs.Option.{option_copied};
ghost use Rattle.c_lexer.specs.TokenList.{line_at, start_at};

use crate::token::Placed;
use std::alloc::{AllocError, Global};
use std::marker::Model;

/// The tokens of one text, in order, with the place of the text's end.
#[derive(Drop)]
pub struct TokenList {
    all: Vec<Placed>,
    last: u64,
    size: u64,
}

impl Model for TokenList {
    ghost use Rattle.c_lexer.specs.TokenList.{Tokens};

    ghost Value = { Tokens };

    ghost view = { λ t. record { tokens = t.all.items; last = t.last; size = t.size } };
}

impl TokenList {
    pub(crate) fn of(all: Vec<Placed>, last: u64, size: u64) -> Self
        ensures { result ≡ record { tokens = all.items; last = last; size = size } }
    {
        TokenList { all, last, size }
    }

    /// No token, and the line and the number of bytes before the end. It takes no memory.
    pub fn new(alloc: Global, last: u64, size: u64) -> Self
        ensures { result ≡ record { tokens = []; last = last; size = size } }
    {
        TokenList {
            all: Vec::new(alloc),
            last,
            size,
        }
    }

    /// Puts one token after all others.
    pub fn push(&mut self, placed: Placed) -> Result<(), AllocError>
        ensures { OnOk result (self.new ≡ record {
          tokens = self.old.tokens ++ placed ∷ [];
          last = self.old.last;
          size = self.old.size;
        }) }
    {
        self.all.push(placed)?;
        Ok(())
    }

    /// The number of tokens.
    pub fn len(&self) -> u64
        ensures { result ≡ length self.now.tokens }
    {
        self.all.len() as u64
    }

    /// The token at a place, counted from 0, with its place in the text; `None` from the list's
    /// length on.
    pub fn get(&self, place: u64) -> Option<&Placed>
        ensures { option_copied result ≡ slice_get self.now.tokens place }
    {
        self.all.get(place as usize)
    }

    /// The line of the token at a place; at the list's length, the line of the text's end.
    pub fn line(&self, token: u64) -> u64
        requires { token ≤ length self.now.tokens }
        ensures { result ≡ line_at self.now token }
    {
        match self.all.get(token as usize) {
            Some(placed) => placed.line,
            None => self.last,
        }
    }

    /// The number of bytes before the token at a place; at the list's length, the text's size.
    pub fn start(&self, token: u64) -> u64
        requires { token ≤ length self.now.tokens }
        ensures { result ≡ start_at self.now token }
    {
        match self.all.get(token as usize) {
            Some(placed) => placed.start,
            None => self.size,
        }
    }
}
