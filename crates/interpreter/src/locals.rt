//! The locals of an open function.

ghost use Rattle.std.specs.Prelude.{◌≡◌, ◌<◌, [], IfOk, length, map, drop, pos, slice_index_or};
ghost use Rattle.c_tree.specs.ItemTree.{parameter_of};
ghost use Rattle.c_types.specs.Views.{tables_in};
ghost use Rattle.interpreter.specs.inside.Entries.{seen_locals, with_entry_value, Found};
ghost use Rattle.c_meaning.specs.Locals as meaning;
ghost use Rattle.c_meaning.specs.Locals.{scopes_of};

use crate::entry::Entry;
use c_tree::item::Parameter;
use c_types::{Program, Scopes, ValueType};
use std::alloc::{AllocError, Global};
use std::marker::Model;

/// The visible locals, newest first. A name means the first of them that has it. Each has a scope
/// of its own, which gives its type.
#[derive(Drop)]
pub struct Locals<'a> {
    scopes: Scopes<'a>,
    all: Vec<Entry<'a>>,
}

impl<'a> Model for Locals<'a> {
    ghost use Rattle.std.specs.Prelude.{◌≡◌, List};
    ghost use Rattle.c_meaning.specs.Locals as meaning;
    ghost use Rattle.interpreter.specs.inside.Entries.{seen_locals};

    ghost Value = { List meaning.Local };

    ghost view = { λ l. seen_locals l.all.items };

    ghost invariant = { λ l. l.scopes ≡ meaning.scopes_of (seen_locals l.all.items) };
}

impl<'a> Locals<'a> {
    /// No locals. It takes no memory.
    pub fn new(alloc: Global) -> Self
        ensures { result ≡ [] }
    {
        Locals {
            scopes: Scopes::new(alloc),
            all: Vec::new(alloc),
        }
    }

    /// The names and types, for the types of expressions.
    pub fn scopes(&self) -> &Scopes<'a>
        ensures { result.now ≡ scopes_of self.now }
    {
        &self.scopes
    }

    /// The number of locals.
    pub fn count(&self) -> usize
        ensures { result ≡ length self.now }
    {
        self.all.len()
    }

    /// Adds one local.
    #[tactic(auto, using(crate::proofs::Ends::ends))]
    pub fn with(
        self,
        alloc: Global,
        name: &'a str,
        ty: ValueType,
        value: i64,
    ) -> Result<Self, AllocError>
        ensures { IfOk result (λ locals. locals ≡ meaning.local_declared name.now ty value
            self.entry) }
    {
        let mut scopes = self.scopes;
        let mut all = self.all;
        scopes.open(alloc)?;
        scopes.declare(name, ty)?;
        all.push(Entry { name, ty, value })?;
        Ok(Locals { scopes, all })
    }

    /// Forgets the newest locals, so that `count` are left.
    #[tactic(auto, using(crate::proofs::Ends::ends))]
    pub fn close_to(&mut self, count: usize)
        ensures { self.new ≡ meaning.oldest count self.old }
    {
        while self.count() > count {
            self.close_last();
        }
    }

    /// Forgets the newest local.
    #[tactic(auto, using(crate::proofs::Ends::ends))]
    fn close_last(&mut self)
        ensures { self.new ≡ drop 1 self.old }
    {
        self.all.pop();
        self.scopes.close();
    }

    /// The word of the local with this name, or 0 if there is none.
    pub fn find(&self, name: &str) -> i64
        ensures { result ≡ meaning.value_named name.now self.now }
    {
        find_in(&self.all, name)
    }

    /// Assigns a word to a local.
    #[tactic(auto, using(crate::proofs::Ends::ends))]
    pub fn assign(&mut self, name: &str, value: i64)
        ensures { self.new ≡ meaning.assigned name.now value self.old }
    {
        if let Some(at) = place_in(&self.all, name) {
            set_in(&mut self.all, at, value);
        }
    }
}

#[tactic(auto, using(crate::proofs::Ends::ends))]
fn find_in(all: &[Entry<'_>], name: &str) -> i64
    ensures { result ≡ meaning.value_named name.now (seen_locals all.now) }
{
    match all.split_last() {
        None => 0,
        Some((entry, others)) => {
            if name == entry.name {
                entry.value
            } else {
                find_in(others, name)
            }
        }
    }
}

/// The place of the newest local of that name.
fn place_in(all: &[Entry<'_>], name: &str) -> Option<usize>
    ensures { Found name.now all.now result }
{
    match all.split_last() {
        None => None,
        Some((entry, others)) => {
            if name == entry.name {
                Some(others.len())
            } else {
                place_in(others, name)
            }
        }
    }
}

#[tactic(auto, using(crate::proofs::Ends::ends))]
fn set_in(all: &mut Vec<Entry<'_>>, at: usize, value: i64)
    requires { at < length all.old.items }
    ensures { all.new.items ≡ with_entry_value all.old.items at value }
{
    all[at].value = value;
}

/// The locals of a function at its start: its parameters, with the words of their arguments.
pub fn bound<'a>(
    alloc: Global,
    program: &Program<'a>,
    parameters: &'a [Parameter],
    arguments: &[i64],
) -> Result<Locals<'a>, AllocError>
    ensures { IfOk result (λ locals. locals ≡ meaning.bound (tables_in program.now)
        (map parameter_of parameters.now) arguments.now []) }
{
    let mut locals = Locals::new(alloc);
    let mut left = arguments;
    for parameter in parameters {
        let (value, others) = first_of(left);
        let declared = program.declared_type(&parameter.ty);
        locals = locals.with(alloc, parameter.name.text.as_str(), declared, value)?;
        left = others;
    }
    Ok(locals)
}

/// The first of some words, or 0 if there is none, and the others.
fn first_of(words: &[i64]) -> (i64, &[i64])
    ensures first { result.0 ≡ slice_index_or words.now 0 (pos 0) }
    ensures others { result.1.now ≡ drop 1 words.now }
{
    match words.split_first() {
        None => (0, words),
        Some((first, others)) => (*first, others),
    }
}
