//! The variables that can be seen at a place of a function.

ghost use Rattle.std.specs.Prelude.{◌≡◌, [], OnOk, is_some, reverse};
ghost use Rattle.c_types.specs.Expressions as expressions;
ghost use Rattle.c_types.specs.Statements as statements;
ghost use Rattle.c_types.specs.Tables.{index_of};

use crate::names::Names;
use crate::value_type::ValueType;
use std::alloc::{AllocError, Global};
use std::marker::Model;

/// The variables that one scope declares, in order, seen as their names and types.
#[derive(Drop)]
pub struct Scope<'a> {
    names: Names<'a>,
    types: Vec<ValueType>,
}

impl<'a> Model for Scope<'a> {
    ghost use Rattle.c_types.specs.Expressions as declared;

    ghost Value = { declared.Scope };

    ghost view = { λ s. record { names = s.names; types = s.types.items } };
}

impl<'a> Scope<'a> {
    fn new(alloc: Global) -> Self
        ensures { result ≡ record { names = []; types = [] } }
    {
        Scope {
            names: Names::new(alloc),
            types: Vec::new(alloc),
        }
    }

    fn push(&mut self, name: &'a str, ty: ValueType) -> Result<(), AllocError>
        ensures { OnOk result (self.new ≡ statements.scope_with name.now ty self.old) }
    {
        self.types.push(ty)?;
        self.names.push(name)?;
        Ok(())
    }

    fn has(&self, name: &str) -> bool
        ensures { result ≡ is_some (index_of name.now self.now.names) }
    {
        self.names.find(name).is_some()
    }

    fn find(&self, name: &str) -> Option<ValueType>
        ensures { result ≡ expressions.type_in name.now self.now }
    {
        match self.names.find(name) {
            None => None,
            Some(at) => self.types.get(at as usize).copied(),
        }
    }
}

/// The open scopes, seen as the list of them from the innermost out.
#[derive(Drop)]
pub struct Scopes<'a> {
    open: Vec<Scope<'a>>,
}

impl<'a> Model for Scopes<'a> {
    ghost use Rattle.std.specs.Prelude.{List, reverse};
    ghost use Rattle.c_types.specs.Expressions as declared;

    ghost Value = { List declared.Scope };

    ghost view = { λ s. reverse s.open.items };
}

impl<'a> Scopes<'a> {
    /// No open scope. It takes no memory.
    pub fn new(alloc: Global) -> Self
        ensures { result ≡ [] }
    {
        Scopes {
            open: Vec::new(alloc),
        }
    }

    /// Opens a scope inside the others.
    pub fn open(&mut self, alloc: Global) -> Result<(), AllocError>
        ensures { OnOk result (self.new ≡ statements.inner_scopes self.old) }
    {
        self.open.push(Scope::new(alloc))?;
        Ok(())
    }

    /// Closes the innermost scope.
    pub fn close(&mut self)
        ensures { self.new ≡ statements.outer_scopes self.old }
    {
        self.open.pop();
    }

    /// Whether the innermost scope has the name.
    pub fn is_declared(&self, name: &str) -> bool
        ensures { result ≡ statements.is_declared name.now self.now }
    {
        match self.open.last() {
            None => false,
            Some(scope) => scope.has(name),
        }
    }

    /// Declares a name in the innermost scope. If a scope declares a name twice, the first
    /// declaration counts.
    pub fn declare(&mut self, name: &'a str, ty: ValueType) -> Result<(), AllocError>
        ensures { OnOk result (self.new ≡ statements.scope_declared name.now ty self.old) }
    {
        match self.open.pop() {
            None => Ok(()),
            Some(scope) => {
                let mut scope = scope;
                scope.push(name, ty)?;
                self.open.push(scope)?;
                Ok(())
            }
        }
    }

    /// The type of the innermost variable of that name.
    pub fn find(&self, name: &str) -> Option<ValueType>
        ensures { result ≡ expressions.variable_type name.now self.now }
    {
        find_in(&self.open, name)
    }
}

fn find_in(scopes: &[Scope<'_>], name: &str) -> Option<ValueType>
    ensures { result ≡ expressions.variable_type name.now (reverse scopes.now) }
{
    match scopes.split_last() {
        None => None,
        Some((scope, others)) => match scope.find(name) {
            None => find_in(others, name),
            Some(ty) => Some(ty),
        },
    }
}
