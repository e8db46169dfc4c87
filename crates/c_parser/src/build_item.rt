//! Items, built from tokens that were accepted before.

ghost use Rattle.std.specs.Prelude.{List, ◌≡◌, ◌<◌, ◌≤◌, ◌+◌, length, map, IfOk, OnOk, option_map};
ghost use Rattle.std.specs.Prelude.{true, false};
ghost use Rattle.c_tree.specs.Kinds as kinds;
ghost use Rattle.c_tree.specs.StmtTree.{type_tree};
ghost use Rattle.c_tree.specs.ItemTree.{ItemTree, field_tree, parameter_of, item_of, items_in};
ghost use Rattle.c_tree.specs.ItemSpelling.{SpellsField, SpellsFields, Signature, ResultType};
ghost use Rattle.c_tree.specs.ItemSpelling.{SpellsTransaction, SpellsFunction, SpellsItem};
ghost use Rattle.c_tree.specs.ItemSpelling.{SpellsProgram};
ghost use Rattle.c_parser.specs.inside.Fixes.{Fixes, IsFollowed, IsOfKind, BeginsResult};
ghost use Rattle.c_parser.specs.inside.Pieces.{goes_on, SpellsParameter, ParametersTo};
ghost use Rattle.c_parser.specs.inside.Pieces.{SpellsStruct, SpellsRoot, Defines, DefinesNone};

use crate::build_stmt::{block, type_name};
use c_lexer::TokenList;
use c_tree::item::{Field, Function, Item, Length, Marked, Parameter, RootDecl, StructDef};
use c_tree::stmt::TypeName;
use c_tree::{Kind, kind_at, name_at, place_after, value_at};
use std::alloc::{AllocError, Global};

/// A field and its semicolon.
#[tactic(auto, using(crate::proofs::FixesItem::field_reads))]
fn field(alloc: Global, tokens: &TokenList, at: u64) -> Result<(Field, u64), AllocError>
    ensures stays { IfOk result (λ r. at ≤ r.1) }
    ensures fixes { IfOk result (λ r.
        Fixes (SpellsField tokens.now.tokens at) r.1 (field_tree r.0)) }
    ensures moves { IfOk result (λ r. at < length tokens.now.tokens → at < r.1) }
{
    let (ty, place) = type_name(alloc, tokens, at)?;
    let name = name_at(alloc, tokens, place)?;
    let next = place_after(tokens, place);
    if kind_at(tokens, next) == Kind::OpenSquare {
        let number = place_after(tokens, next);
        let length = Some(Length {
            value: value_at(tokens, number),
            place: number,
        });
        let end = place_after(tokens, place_after(tokens, place_after(tokens, number)));
        return Ok((Field { ty, name, length }, end));
    }
    Ok((
        Field {
            ty,
            name,
            length: None,
        },
        place_after(tokens, next),
    ))
}

/// Whether the token there is neither a closing brace nor the end.
fn has_field(tokens: &TokenList, at: u64) -> bool
    ensures value { result ≡ goes_on (kinds.kind_at tokens.now.tokens at) }
    ensures inside { result ≡ true → at < length tokens.now.tokens }
{
    match kind_at(tokens, at) {
        Kind::CloseBrace | Kind::End => false,
        _ => true,
    }
}

/// The fields from the place after an opening brace up to the closing one.
#[tactic(auto, using(crate::proofs::FixesItem::fields_reads))]
fn fields(alloc: Global, tokens: &TokenList, at: u64) -> Result<(Vec<Field>, u64), AllocError>
    ensures stays { IfOk result (λ r. at ≤ r.1) }
    ensures fixes { IfOk result (λ r.
        Fixes (IsFollowed tokens.now.tokens (IsOfKind Kind.CloseBrace)
        (SpellsFields tokens.now.tokens at)) r.1 (map field_tree r.0.items)) }
{
    let mut all = Vec::new(alloc);
    let mut place = at;
    'each: while has_field(tokens, place) {
        let (one, next) = field(alloc, tokens, place)?;
        all.push(one)?;
        place = next;
    }
    Ok((all, place))
}

#[tactic(auto, using(crate::proofs::FixesItem::parameter_read))]
fn parameter(alloc: Global, tokens: &TokenList, at: u64) -> Result<(Parameter, u64), AllocError>
    ensures stays { IfOk result (λ r. at ≤ r.1) }
    ensures fixes { IfOk result (λ r. Fixes (SpellsParameter tokens.now.tokens at) r.1
        (parameter_of r.0)) }
{
    let (ty, place) = type_name(alloc, tokens, at)?;
    let name = name_at(alloc, tokens, place)?;
    Ok((Parameter { ty, name }, place_after(tokens, place)))
}

/// At least one parameter, up to the closing bracket.
#[tactic(auto, using(crate::proofs::FixesItem::parameters_reads))]
fn some_parameters(
    alloc: Global,
    tokens: &TokenList,
    at: u64,
) -> Result<(Vec<Parameter>, u64), AllocError>
    ensures stays { IfOk result (λ r. at ≤ r.1) }
    ensures fixes { IfOk result (λ r.
        Fixes (ParametersTo tokens.now.tokens at) r.1 (map parameter_of r.0.items)) }
{
    let mut all = Vec::new(alloc);
    let (one, next) = parameter(alloc, tokens, at)?;
    all.push(one)?;
    let mut place = next;
    'others: while kind_at(tokens, place) == Kind::Comma {
        let (one, next) = parameter(alloc, tokens, place_after(tokens, place))?;
        all.push(one)?;
        place = next;
    }
    Ok((all, place))
}

/// The parameters of a function, from the place after the opening bracket to the place after the
/// closing one.
#[tactic(auto, using(crate::proofs::FixesItem::signatures))]
fn parameters(
    alloc: Global,
    tokens: &TokenList,
    at: u64,
) -> Result<(Vec<Parameter>, u64), AllocError>
    ensures stays { IfOk result (λ r. at ≤ r.1) }
    ensures fixes { IfOk result (λ r.
        Fixes (Signature tokens.now.tokens at) r.1 (map parameter_of r.0.items)) }
{
    match kind_at(tokens, at) {
        Kind::CloseRound => Ok((Vec::new(alloc), place_after(tokens, at))),
        Kind::Void => Ok((
            Vec::new(alloc),
            place_after(tokens, place_after(tokens, at)),
        )),
        _ => {
            let (all, close) = some_parameters(alloc, tokens, at)?;
            Ok((all, place_after(tokens, close)))
        }
    }
}

/// A function's result, absent if it is `void`.
#[tactic(auto, using(crate::proofs::FixesItem::results))]
fn result_type(
    alloc: Global,
    tokens: &TokenList,
    at: u64,
) -> Result<(Option<TypeName>, u64), AllocError>
    ensures stays { IfOk result (λ r. at ≤ r.1) }
    ensures fixes { IfOk result (λ r.
        Fixes (ResultType tokens.now.tokens at) r.1 (option_map type_tree r.0)) }
    ensures moves { IfOk result (λ r. at < length tokens.now.tokens → at < r.1) }
{
    if kind_at(tokens, at) == Kind::Void {
        return Ok((None, place_after(tokens, at)));
    }
    let (ty, end) = type_name(alloc, tokens, at)?;
    Ok((Some(ty), end))
}

/// A function, from its result on.
#[tactic(auto, using(crate::proofs::FixesItem::function_read))]
fn function(
    alloc: Global,
    tokens: &TokenList,
    at: u64,
    tx: bool,
    mark: Marked,
) -> Result<(Item, u64), AllocError>
    ensures stays { IfOk result (λ r. at ≤ r.1) }
    ensures fixes { IfOk result (λ r. Fixes (SpellsFunction tokens.now.tokens tx mark at) r.1
        (item_of r.0)) }
    ensures moves { IfOk result (λ r. at < length tokens.now.tokens → at < r.1) }
{
    let (result_type, place) = result_type(alloc, tokens, at)?;
    let name = name_at(alloc, tokens, place)?;
    let open = place_after(tokens, place);
    let (parameters, brace) = parameters(alloc, tokens, place_after(tokens, open))?;
    let (body, end) = block(alloc, tokens, place_after(tokens, brace))?;
    let function = Function {
        tx,
        mark,
        result_type,
        name,
        parameters,
        body,
    };
    Ok((Item::Function(function), end))
}

/// The mark of a transaction, and the place after it.
#[tactic(auto, using(crate::proofs::FixesItem::marks_read))]
fn transaction(tokens: &TokenList, at: u64) -> (Marked, u64)
    ensures stays { at ≤ result.1 }
    ensures fixes { Fixes (IsFollowed tokens.now.tokens BeginsResult
        (SpellsTransaction tokens.now.tokens at)) result.1 result.0 }
    ensures moves { at < length tokens.now.tokens → at < result.1 }
{
    let place = place_after(tokens, at);
    match kind_at(tokens, place) {
        Kind::Abort => (Marked::Abort, place_after(tokens, place)),
        Kind::Const => (Marked::Const, place_after(tokens, place)),
        _ => (Marked::Plain, place),
    }
}

/// A struct, from its `struct` on.
#[tactic(auto, using(crate::proofs::FixesItem::struct_read))]
fn struct_def(alloc: Global, tokens: &TokenList, at: u64) -> Result<(Item, u64), AllocError>
    ensures stays { IfOk result (λ r. at ≤ r.1) }
    ensures fixes { IfOk result (λ r. Fixes (SpellsStruct tokens.now.tokens at) r.1 (item_of r.0)) }
    ensures moves { IfOk result (λ r. at < length tokens.now.tokens → at < r.1) }
{
    let place = place_after(tokens, at);
    let name = name_at(alloc, tokens, place)?;
    let open = place_after(tokens, place);
    let (fields, close) = fields(alloc, tokens, place_after(tokens, open))?;
    let end = place_after(tokens, place_after(tokens, close));
    Ok((Item::Struct(StructDef { name, fields }), end))
}

/// The declaration of the root, from its `persistent` on.
#[tactic(auto, using(crate::proofs::FixesItem::root_read))]
fn root_decl(alloc: Global, tokens: &TokenList, at: u64) -> Result<(Item, u64), AllocError>
    ensures stays { IfOk result (λ r. at ≤ r.1) }
    ensures fixes { IfOk result (λ r. Fixes (SpellsRoot tokens.now.tokens at) r.1 (item_of r.0)) }
    ensures moves { IfOk result (λ r. at < length tokens.now.tokens → at < r.1) }
{
    let place = place_after(tokens, place_after(tokens, at));
    let name = name_at(alloc, tokens, place)?;
    let root = place_after(tokens, place);
    let end = place_after(tokens, place_after(tokens, root));
    Ok((Item::Root(RootDecl { name, place: root }), end))
}

/// Whether the tokens there are `struct NAME {`.
#[tactic(auto, using(crate::proofs::FixesItem::defining))]
fn defines(tokens: &TokenList, at: u64) -> bool
    ensures some { result ≡ true → Defines tokens.now.tokens at }
    ensures none { result ≡ false → DefinesNone tokens.now.tokens at }
{
    let third = place_after(tokens, place_after(tokens, at));
    kind_at(tokens, at) == Kind::Struct && kind_at(tokens, third) == Kind::OpenBrace
}

/// An item, and the place after it.
#[tactic(auto, using(crate::proofs::FixesItem::items_of))]
fn item(alloc: Global, tokens: &TokenList, at: u64) -> Result<(Item, u64), AllocError>
    ensures stays { IfOk result (λ r. at ≤ r.1) }
    ensures fixes { IfOk result (λ r. Fixes (SpellsItem tokens.now.tokens at) r.1 (item_of r.0)) }
    ensures moves { IfOk result (λ r. at < length tokens.now.tokens → at < r.1) }
{
    if defines(tokens, at) {
        return struct_def(alloc, tokens, at);
    }
    match kind_at(tokens, at) {
        Kind::Persistent => root_decl(alloc, tokens, at),
        Kind::Tx => {
            let (mark, place) = transaction(tokens, at);
            function(alloc, tokens, place, true, mark)
        }
        _ => function(alloc, tokens, at, false, Marked::Plain),
    }
}

/// The items of a program.
#[tactic(auto, using(crate::proofs::FixesItem::items_reads))]
pub fn items(alloc: Global, tokens: &TokenList) -> Result<Vec<Item>, AllocError>
    ensures spelled { IfOk result (λ all. (xs : List ItemTree) → SpellsProgram tokens.now.tokens xs
        → items_in all.items ≡ xs) }
{
    let mut all = Vec::new(alloc);
    let mut place = 0;
    'each: while place < tokens.len() {
        let (one, next) = item(alloc, tokens, place)?;
        all.push(one)?;
        place = next;
    }
    Ok(all)
}
