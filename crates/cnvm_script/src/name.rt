//! Words that are names.

ghost use Rattle.std.specs.Prelude.{◌≡◌, Some, None, if◌then◌else◌, slice_get, true, IfOk};
ghost use Rattle.std.specs.Prelude.{IfSome};
ghost use Rattle.cnvm_script.specs.Name.{is_name, is_name_token, begins_with};
ghost use Rattle.cnvm_script.specs.inside.Name.{name_in};
ghost use Rattle.cnvm_script.specs.Reads.{Gives};

use crate::fault::LineFault;
use c_lexer::{LexFault, Token, TokenList, tokens};
use nvm_base::{List, Text};
use std::alloc::{AllocError, Global};
use std::marker::Model;

/// How many names are kept at most.
const MOST: usize = 16;

/// Names that were read. A word that is one of them isn't read as a program text again.
#[derive(Drop)]
pub(crate) struct Names {
    all: List<Text>,
}

impl Model for Names {
    ghost use Rattle.std.specs.Prelude.{◌≡◌, ℕ, List, true};
    ghost use Rattle.std.specs.List.{All};
    ghost use Rattle.cnvm_script.specs.Name.{is_name};

    ghost Value = { List (List ℕ) };

    ghost view = { λ n. n.all };

    ghost invariant = { λ n. All (λ name. is_name name ≡ true) n.all };
}

impl Names {
    /// No name. It takes no memory.
    pub(crate) fn new(alloc: Global) -> Self {
        Names {
            all: List::new(alloc),
        }
    }

    /// The name that a word is, if it is one of these.
    fn find(&self, word: &[u8]) -> Option<&str>
        ensures same { IfSome result (λ name. name.now ≡ word.now) }
        ensures named { IfSome result (λ _. is_name word.now ≡ true) }
    {
        for name in self.all.as_slice() {
            if name.as_str().as_bytes() == word {
                return Some(name.as_str());
            }
        }
        None
    }

    /// Keeps one more name, if there aren't many and there is memory for it.
    fn keep(&mut self, alloc: Global, name: &str)
        requires { is_name name.now ≡ true }
    {
        if self.all.as_slice().len() >= MOST {
            return;
        }
        if let Ok(name) = copied(alloc, name) {
            let _ = self.all.push(name);
        }
    }
}

/// A copy of a name.
fn copied(alloc: Global, name: &str) -> Result<Text, AllocError>
    ensures { IfOk result (λ text. text ≡ name.now) }
{
    let mut text = Text::new(alloc);
    text.push(name)?;
    Ok(text)
}

/// The name that a word is. It is kept among the names that were read.
#[tactic(auto, using(crate::proofs::Names::named))]
pub(crate) fn name_of(alloc: Global, names: &mut Names, word: &[u8]) -> Result<Text, LineFault>
    ensures { Gives result (name_in word.now) }
{
    if let Some(name) = names.find(word) {
        return Ok(copied(alloc, name)?);
    }
    let name = read_name(alloc, word)?;
    names.keep(alloc, name.as_str());
    Ok(name)
}

/// The name that a word is, as a program text reads it.
#[tactic(auto, using(crate::proofs::Names::read), unfolding(crate::specs::Name::is_name))]
fn read_name(alloc: Global, word: &[u8]) -> Result<Text, LineFault>
    ensures { Gives result (name_in word.now) }
{
    match tokens(alloc, word) {
        Ok(list) => first_name(alloc, &list, word),
        Err(LexFault::NoMemory) => Err(LineFault::NoMemory),
        Err(_) => Err(LineFault::Bad),
    }
}

/// The word, if it is the first token of its own text.
fn first_name(alloc: Global, list: &TokenList, word: &[u8]) -> Result<Text, LineFault>
    ensures { Gives result (if begins_with (slice_get list.now.tokens 0) word.now then Some word.now
        else None) }
{
    match list.get(0) {
        None => Err(LineFault::Bad),
        Some(first) => named(alloc, &first.token, word),
    }
}

/// The word, if it is this token, a name.
fn named(alloc: Global, token: &Token, word: &[u8]) -> Result<Text, LineFault>
    ensures { Gives result (if is_name_token token.now word.now then Some word.now else None) }
{
    let Token::Name(name) = token else {
        return Err(LineFault::Bad);
    };
    if name.as_str().as_bytes() != word {
        return Err(LineFault::Bad);
    }
    Ok(copied(alloc, name.as_str())?)
}
