//! The variables that are visible at a place of a function, with their registers.

ghost use Rattle.std.specs.Prelude.{◌≡◌, [], OnOk, map, reverse};
ghost use Rattle.lower.specs.Names as names;
ghost use Rattle.lower.specs.inside.Names as inside_names;

use crate::names::NOWHERE;
use c_types::{Scopes, ValueType};
use std::alloc::{AllocError, Global};
use std::marker::Model;

/// A variable and its register.
#[derive(Drop)]
struct Local<'a> {
    name: &'a str,
    register: u32,
}

/// The variables that one scope declares, in order.
#[derive(Drop)]
struct Locals<'a> {
    all: Vec<Local<'a>>,
}

impl<'a> Model for Locals<'a> {
    ghost use Rattle.std.specs.Prelude.{List, map};
    ghost use Rattle.lower.specs.Names as names;

    ghost Value = { List names.LocalRegister };

    ghost view = { λ l. map (λ x. record { name = x.name.now; register = x.register })
        l.all.items };
}

impl<'a> Locals<'a> {
    fn new(alloc: Global) -> Self
        ensures { result ≡ [] }
    {
        Locals {
            all: Vec::new(alloc),
        }
    }

    fn push(&mut self, name: &'a str, register: u32) -> Result<(), AllocError>
        ensures { OnOk result (self.new ≡ names.with_local name.now register self.old) }
    {
        self.all.push(Local { name, register })?;
        Ok(())
    }

    fn find(&self, name: &str) -> Option<u32>
        ensures { result ≡ names.register_in name.now self.now }
    {
        find_local(&self.all, name)
    }
}

fn find_local(all: &[Local<'_>], name: &str) -> Option<u32>
    ensures { result ≡ names.register_in name.now
        (map (λ x. record { name = x.name.now; register = x.register }) all.now) }
{
    for local in all {
        if name == local.name {
            return Some(local.register);
        }
    }
    None
}

/// The open scopes, with the register of each variable.
#[derive(Drop)]
pub struct Variables<'a> {
    scopes: Scopes<'a>,
    locals: Vec<Locals<'a>>,
}

impl<'a> Model for Variables<'a> {
    ghost use Rattle.std.specs.Prelude.{reverse};
    ghost use Rattle.lower.specs.Names as names;

    ghost Value = { names.Variables };

    ghost view = { λ v. record { scopes = v.scopes; locals = reverse v.locals.items } };
}

impl<'a> Variables<'a> {
    /// No open scope. It takes no memory.
    pub fn new(alloc: Global) -> Self
        ensures { result ≡ record { scopes = []; locals = [] } }
    {
        Variables {
            scopes: Scopes::new(alloc),
            locals: Vec::new(alloc),
        }
    }

    /// The types of the variables.
    pub fn scopes(&self) -> &Scopes<'a>
        ensures { result.now ≡ self.now.scopes }
    {
        &self.scopes
    }

    /// Opens a scope inside the others.
    pub fn open(&mut self, alloc: Global) -> Result<(), AllocError>
        ensures { OnOk result (self.new ≡ names.inner_variables self.old) }
    {
        self.locals.push(Locals::new(alloc))?;
        self.scopes.open(alloc)
    }

    /// Closes the innermost scope.
    pub fn close(&mut self)
        ensures { self.new ≡ inside_names.outer_variables self.old }
    {
        self.scopes.close();
        self.locals.pop();
    }

    /// Declares a name in the innermost scope.
    pub fn declare(&mut self, name: &'a str, ty: ValueType, register: u32) -> Result<(), AllocError>
        ensures { OnOk result (self.new ≡ names.variable_declared name.now ty register self.old) }
    {
        self.scopes.declare(name, ty)?;
        match self.locals.pop() {
            None => Ok(()),
            Some(scope) => {
                let mut scope = scope;
                scope.push(name, register)?;
                self.locals.push(scope)?;
                Ok(())
            }
        }
    }

    /// The register of the innermost variable of that name.
    pub fn register_of(&self, name: &str) -> u32
        ensures { result ≡ names.register_of name.now self.now }
    {
        match find_in(&self.locals, name) {
            None => NOWHERE,
            Some(register) => register,
        }
    }
}

fn find_in(scopes: &[Locals<'_>], name: &str) -> Option<u32>
    ensures { result ≡ names.variable_register name.now (reverse scopes.now) }
{
    match scopes.split_last() {
        None => None,
        Some((scope, others)) => match scope.find(name) {
            None => find_in(others, name),
            Some(register) => Some(register),
        },
    }
}
