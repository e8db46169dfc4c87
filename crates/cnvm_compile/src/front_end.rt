//! The front end: from a program's text to its tokens, to those that its constants leave, to their
//! tree, and to a tree that breaks no typing rule.

ghost use Rattle.std.specs.Prelude.{◌≡◌, ◌≤◌, [], Ok, IfOk, IfErr, length};
ghost use Rattle.c_lexer.specs.Cuts.{answer};
ghost use Rattle.c_lexer.specs.TokenList.{line_at};
ghost use Rattle.c_constants.specs.Left.{LeavesTokens};
ghost use Rattle.c_constants.specs.Passes as passes;
ghost use Rattle.c_types.specs.Fault.{breaks};
ghost use Rattle.cnvm_compile.specs.FrontEnd.{IsTree, IsOnlyTreeOf, AcceptsText, RefusesText};
ghost use Rattle.cnvm_compile.specs.inside.FrontEnd.{IsOnlyTree, RefusesConstants};
ghost use Rattle.cnvm_compile.specs.inside.FrontEnd.{RefusesList, RefusesTree};

use c_constants::{ConstFault, constants};
use c_lexer::{LexFault, TokenList, tokens};
use c_parser::{ParseFault, parse};
use c_tree::Ast;
use c_types::{TypeFault, Typed, check};
use std::alloc::Global;

/// Why a text is no program. Want of memory in any stage is `NoMemory`, and no other variant holds
/// it.
#[derive(Clone, Copy)]
pub enum ProgramFault {
    /// It has no tokens.
    Lex(LexFault),
    /// Its constants have no values.
    Constants(ConstFault),
    /// The tokens that its constants leave have no tree. The number is the refused token's line.
    Parse(ParseFault, u64),
    /// Its tree breaks a typing rule.
    Types(TypeFault),
    NoMemory,
}

/// The checked tree of a text.
#[tactic(auto, using(crate::proofs::Trees::refused))]
pub(crate) fn typed_of(alloc: Global, text: &[u8]) -> Result<Typed, ProgramFault>
    ensures accepted { IfOk result (λ typed. AcceptsText text.now typed) }
    ensures only { IfOk result (λ typed. IsOnlyTreeOf text.now typed) }
    ensures refused { IfErr result (λ fault. RefusesText text.now fault) }
{
    let list = list_of(alloc, text)?;
    let ast = tree_of(alloc, &list)?;
    let typed = checked(alloc, ast)?;
    Ok(typed)
}

/// The tokens that the constants of a text leave.
#[tactic(auto, using(crate::proofs::Trees::listed))]
fn list_of(alloc: Global, text: &[u8]) -> Result<TokenList, ProgramFault>
    ensures ok { IfOk result (λ list. LeavesTokens text.now list) }
    ensures err { IfErr result (λ fault. RefusesText text.now fault) }
{
    let all = tokens_of(alloc, text)?;
    left_of(alloc, &all)
}

/// The tokens of a text.
fn tokens_of(alloc: Global, text: &[u8]) -> Result<TokenList, ProgramFault>
    ensures ok { IfOk result (λ all. answer text.now ≡ Ok all) }
    ensures err { IfErr result (λ fault. RefusesText text.now fault) }
{
    match tokens(alloc, text) {
        Ok(list) => Ok(list),
        Err(LexFault::NoMemory) => Err(ProgramFault::NoMemory),
        Err(fault) => Err(ProgramFault::Lex(fault)),
    }
}

/// The tokens that the constants of a list leave.
fn left_of(alloc: Global, all: &TokenList) -> Result<TokenList, ProgramFault>
    ensures ok { IfOk result (λ list. passes.tokens_left all.now ≡ Ok list) }
    ensures err { IfErr result (λ fault. RefusesConstants all.now fault) }
{
    match constants(alloc, all) {
        Ok(list) => Ok(list),
        Err(ConstFault::NoMemory) => Err(ProgramFault::NoMemory),
        Err(fault) => Err(ProgramFault::Constants(fault)),
    }
}

/// The tree of a list of tokens.
fn tree_of(alloc: Global, list: &TokenList) -> Result<Ast, ProgramFault>
    ensures ok { IfOk result (λ ast. IsTree list.now ast) }
    ensures only { IfOk result (λ ast. IsOnlyTree list.now ast) }
    ensures err { IfErr result (λ fault. RefusesList list.now fault) }
{
    match parse(alloc, list) {
        Ok(ast) => Ok(ast),
        Err(ParseFault::Syntax(place)) => Err(refused_at(list, ParseFault::Syntax(place), place)),
        Err(ParseFault::TooDeep(place)) => {
            Err(refused_at(list, ParseFault::TooDeep(place), place))
        }
        Err(ParseFault::NoMemory) => Err(ProgramFault::NoMemory),
    }
}

/// The refusal of the token at that place, with its line.
fn refused_at(list: &TokenList, fault: ParseFault, place: u64) -> ProgramFault
    requires { place ≤ length list.now.tokens }
    ensures { result ≡ ProgramFault.Parse fault (line_at list.now place) }
{
    ProgramFault::Parse(fault, list.line(place))
}

/// The tree, if it breaks no typing rule.
fn checked(alloc: Global, ast: Ast) -> Result<Typed, ProgramFault>
    ensures kept { IfOk result (λ typed. breaks ast ≡ []) }
    ensures tree { IfOk result (λ typed. typed ≡ ast) }
    ensures err { IfErr result (λ fault. RefusesTree ast fault) }
{
    match check(alloc, ast) {
        Ok(typed) => Ok(typed),
        Err(TypeFault::NoMemory) => Err(ProgramFault::NoMemory),
        Err(fault) => Err(ProgramFault::Types(fault)),
    }
}
