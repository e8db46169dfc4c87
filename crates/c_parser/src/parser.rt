//! The parser.

ghost use Rattle.std.specs.Prelude.{ℕ, List, ◌≡◌, ◌+◌, IfOk, IfErr, OnOk, length, map};
ghost use Rattle.c_parser.specs.Exact.{LightBefore, ParseGives, NoneBegins, SomeBegins, SomeSinks};
ghost use Rattle.c_parser.specs.declared.fault.ParseFault.TheVariants.{Syntax, TooDeep};
ghost use Rattle.c_tree.specs.ItemTree.{ItemTree};
ghost use Rattle.c_tree.specs.Program.{tree_of};
ghost use Rattle.c_parser.specs.Weight.{spelled_weights};
ghost use Rattle.c_tree.specs.ItemSpelling.{SpellsProgram};

use crate::build_item::items;
use crate::fault::ParseFault;
use crate::judge::judge;
use c_lexer::TokenList;
use c_tree::Ast;
use std::alloc::Global;

/// The tree of a program, or the first token that is refused.
///
/// The tokens are judged first, one by one; the tree is then built from the accepted tokens.
pub fn parse(alloc: Global, tokens: &TokenList) -> Result<Ast, ParseFault>
    ensures lines { IfOk result (λ p. p.lines ≡ map (λ placed. placed.line) tokens.now.tokens) }
    ensures last { IfOk result (λ p. p.last ≡ tokens.now.last) }
    // The answered tree is the one that the tokens spell, and no token is too heavy.
    ensures found { IfOk result (λ p. SpellsProgram tokens.now.tokens (tree_of p)) }
    ensures light { OnOk result ((xs : List ItemTree)
        (spelled : SpellsProgram tokens.now.tokens xs)
        → LightBefore (spelled_weights spelled) (length tokens.now.tokens)) }
    // If some tree spells the tokens, and none is too heavy, the answer is that tree, or memory
    // runs out.
    ensures only { (xs : List ItemTree) (spelled : SpellsProgram tokens.now.tokens xs)
        → LightBefore (spelled_weights spelled) (length tokens.now.tokens)
        → ParseGives result xs }
    // No program begins with the tokens up to a refused one.
    ensures none { IfErr result (λ f. (t : ℕ) → f ≡ Syntax t
        → NoneBegins tokens.now.tokens (t + 1)) }
    // Some program begins with the tokens before a refused one, and none of them is too heavy.
    ensures some { IfErr result (λ f. (t : ℕ) → f ≡ Syntax t → SomeBegins tokens.now.tokens t) }
    // Some program begins with the tokens up to one that is too deep, which is the first that is
    // too heavy.
    ensures deep { IfErr result (λ f. (t : ℕ) → f ≡ TooDeep t → SomeSinks tokens.now.tokens t) }
{
    judge(alloc, tokens)?;
    let items = items(alloc, tokens)?;
    Ok(Ast::new(alloc, items, tokens)?)
}
