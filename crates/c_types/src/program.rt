//! A program's structs, root declarations and functions, to be looked up by name.

ghost use Rattle.std.specs.Prelude.{◌≡◌, IfOk, is_some, map, option_map, slice_get};
ghost use Rattle.c_tree.specs.ExprTree.{ident_of};
ghost use Rattle.c_tree.specs.StmtTree as stmt;
ghost use Rattle.c_tree.specs.ItemTree.{FunctionTree, function_tree, items_in};
ghost use Rattle.c_types.specs.Tables as tables;
ghost use Rattle.c_types.specs.Tables.{StructTree};
ghost use Rattle.c_types.specs.Views.{root_of, struct_tree, tables_in};

use crate::layout::{Layout, is_at};
use crate::names::Names;
use crate::value_type::ValueType;
use c_tree::item::{Function, Item, RootDecl};
use c_tree::stmt::TypeName;
use pool_map::{OBJECT_WORDS, POINTED_ROOT};
use std::alloc::{AllocError, Global};
use std::marker::Model;

/// A program's structs, root declarations and functions, in the order of the text, seen as the
/// lists of them.
#[derive(Drop)]
pub struct Program<'a> {
    structs: Vec<Layout<'a>>,
    roots: Vec<&'a RootDecl>,
    functions: Vec<&'a Function>,
    struct_names: Names<'a>,
    function_names: Names<'a>,
}

impl<'a> Model for Program<'a> {
    ghost use Rattle.std.specs.Prelude.{◌≡◌, map};
    ghost use Rattle.std.specs.Coded.{codes};
    ghost use Rattle.c_tree.specs.contracts.expr.Expr as expression;
    ghost use Rattle.c_tree.specs.contracts.stmt.Stmt as statement;
    ghost use Rattle.c_tree.specs.ItemTree.{FunctionTree, function_tree};
    ghost use Rattle.c_types.specs.Tables.{StructTree};
    ghost use Rattle.c_types.specs.Views.{Gathered, root_of};

    ghost Value = { Gathered };

    ghost coded = { Prim.hlevel (codes, expression.the_row.coded, statement.the_row.coded) };

    ghost view = { λ p. record {
      structs = p.structs.items;
      roots = map (λ r. root_of r.now) p.roots.items;
      functions = map (λ f. f.now) p.functions.items;
    } };

    ghost invariant = { λ p.
        (p.struct_names ≡ map (λ (s : StructTree). s.name.text) p.structs.items)
        × (p.function_names ≡ map (λ (f : FunctionTree). f.name.text)
        (map function_tree (map (λ f. f.now) p.functions.items))) };
}

impl<'a> Program<'a> {
    /// Gathers the items of a tree.
    pub fn new(alloc: Global, items: &'a [Item]) -> Result<Self, AllocError>
        ensures { IfOk result (λ p. tables_in p ≡ tables.tables_of (items_in items.now)) }
    {
        let structs = gather_structs(alloc, items)?;
        let roots = gather_roots(alloc, items)?;
        let functions = gather_functions(alloc, items)?;
        let struct_names = struct_names(alloc, &structs)?;
        let function_names = function_names(alloc, &functions)?;
        Ok(Program {
            structs,
            roots,
            functions,
            struct_names,
            function_names,
        })
    }

    /// The structs, in the order of the text.
    pub fn structs(&self) -> &[Layout<'a>]
        ensures { result.now ≡ self.now.structs }
    {
        &self.structs
    }

    /// The declarations of the root, of which an accepted program has one.
    pub fn roots(&self) -> &[&'a RootDecl]
        ensures { map (λ r. root_of r.now) result.now ≡ self.now.roots }
    {
        &self.roots
    }

    /// The functions, in the order of the text.
    pub fn functions(&self) -> &[&'a Function]
        ensures { map (λ f. f.now) result.now ≡ self.now.functions }
    {
        &self.functions
    }

    /// The place of the first struct of that name.
    pub fn struct_named(&self, name: &str) -> Option<u64>
        ensures { result ≡ tables.struct_named (tables_in self.now) name.now }
    {
        self.struct_names.find(name)
    }

    /// The place of the first function of that name.
    pub fn place_of_function(&self, name: &str) -> Option<u64>
        ensures { result ≡ tables.index_of name.now (tables.function_names (tables_in self.now)) }
    {
        self.function_names.find(name)
    }

    /// The first function of that name.
    #[tactic(auto, using(crate::proofs::Gathered::gathered))]
    pub fn function_named(&self, name: &str) -> Option<&'a Function>
        ensures { option_map (λ f. function_tree f.now) result ≡ tables.function_named
            (tables_in self.now) name.now }
    {
        let at = self.function_names.find(name)?;
        match self.functions.get(at as usize) {
            None => None,
            Some(function) => Some(*function),
        }
    }

    /// The place of the root's struct, if both are declared.
    #[tactic(auto, using(crate::proofs::Gathered::gathered))]
    pub fn root_struct(&self) -> Option<u64>
        ensures { result ≡ tables.root_struct (tables_in self.now) }
    {
        match self.roots.first() {
            None => None,
            Some(root) => self.struct_names.find(root.name.text.as_str()),
        }
    }

    /// Whether anything declares the root.
    pub fn has_root(&self) -> bool
        ensures { result ≡ is_some (slice_get self.now.roots 0) }
    {
        !self.roots.is_empty()
    }

    /// The struct at a place.
    pub fn struct_at(&self, at: u64) -> Option<&Layout<'a>>
        ensures { option_map (λ l. l.now) result ≡ slice_get self.now.structs at }
    {
        self.structs.get(at as usize)
    }

    /// The words of the struct at a place.
    pub fn words_at(&self, at: u64) -> u64
        ensures { result ≡ tables.words_at (tables_in self.now) at }
    {
        match self.struct_at(at) {
            None => 0,
            Some(layout) => layout.words(),
        }
    }

    /// The most words of the struct at a place if something points to it.
    pub fn pointed_limit(&self, at: u64) -> u64
        ensures { result ≡ tables.pointed_limit (tables.root_struct (tables_in self.now)) at }
    {
        pointed_limit(self.root_struct(), at)
    }

    /// The number of the struct at a place, which isn't too large: the kind of its objects.
    pub fn number_at(&self, at: u64) -> u64
        ensures { result ≡ tables.number_at (tables_in self.now) at }
    {
        numbered_up_to(self.root_struct(), at, &self.structs)
    }

    /// The type of a pointer to the struct of that name.
    pub fn pointer_type(&self, name: &str) -> ValueType
        ensures { result ≡ tables.pointer_type (tables_in self.now) name.now }
    {
        match self.struct_named(name) {
            None => ValueType::Any,
            Some(at) => {
                if self.words_at(at) <= self.pointed_limit(at) {
                    ValueType::Pointer(at)
                } else {
                    ValueType::Any
                }
            }
        }
    }

    /// The type of what is declared with this type.
    pub fn declared_type(&self, ty: &TypeName) -> ValueType
        ensures { result ≡ tables.declared_type (tables_in self.now) (stmt.type_tree ty.now) }
    {
        match ty {
            TypeName::Int(int) => ValueType::Int(*int),
            TypeName::Pointer(name) => self.pointer_type(name.text.as_str()),
        }
    }
}

fn gather_structs<'a>(alloc: Global, items: &'a [Item]) -> Result<Vec<Layout<'a>>, AllocError>
    ensures { IfOk result (λ v. v.items ≡ tables.structs_of (items_in items.now)) }
{
    let mut structs = Vec::new(alloc);
    for item in items {
        if let Item::Struct(definition) = item {
            structs.push(Layout::new(alloc, definition)?)?;
        }
    }
    Ok(structs)
}

fn gather_roots<'a>(alloc: Global, items: &'a [Item]) -> Result<Vec<&'a RootDecl>, AllocError>
    ensures { IfOk result (λ v. map (λ r. root_of r.now) v.items ≡ tables.roots_of
        (items_in items.now)) }
{
    let mut roots = Vec::new(alloc);
    for item in items {
        if let Item::Root(root) = item {
            roots.push(root)?;
        }
    }
    Ok(roots)
}

fn gather_functions<'a>(alloc: Global, items: &'a [Item]) -> Result<Vec<&'a Function>, AllocError>
    ensures { IfOk result (λ v. map function_tree (map (λ f. f.now) v.items) ≡ tables.function_trees
        (items_in items.now)) }
{
    let mut functions = Vec::new(alloc);
    for item in items {
        if let Item::Function(function) = item {
            functions.push(function)?;
        }
    }
    Ok(functions)
}

fn struct_names<'a>(alloc: Global, structs: &[Layout<'a>]) -> Result<Names<'a>, AllocError>
    ensures { IfOk result (λ n. n ≡ map (λ (s : StructTree). s.name.text) structs.now) }
{
    let mut names = Names::new(alloc);
    for layout in structs {
        names.push(layout.name().text.as_str())?;
    }
    Ok(names)
}

fn function_names<'a>(alloc: Global, functions: &[&'a Function]) -> Result<Names<'a>, AllocError>
    ensures { IfOk result (λ n. n ≡ map (λ (f : FunctionTree). f.name.text)
        (map function_tree (map (λ f. f.now) functions.now))) }
{
    let mut names = Names::new(alloc);
    for function in functions {
        names.push(function.name.text.as_str())?;
    }
    Ok(names)
}

/// The most words of the struct at a place if something points to it, by the place of the root's.
pub fn pointed_limit(root: Option<u64>, at: u64) -> u64
    ensures { result ≡ tables.pointed_limit root at }
{
    if is_at(root, at) {
        POINTED_ROOT
    } else {
        OBJECT_WORDS
    }
}

fn numbered_up_to(root: Option<u64>, place: u64, structs: &[Layout<'_>]) -> u64
    ensures { result ≡ tables.numbered_up_to root place 0 structs.now }
{
    let mut number = 0u64;
    let mut at = 0u64;
    for layout in structs {
        if at <= place && layout.words() <= pointed_limit(root, at) {
            number += 1;
        }
        at += 1;
    }
    number
}
