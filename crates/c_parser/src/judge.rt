//! Whether a list of tokens is a program, and which token is refused if it isn't.

ghost use Rattle.std.specs.Prelude.{ℕ, List, [], ◌∷◌, ◌≡◌, ◌≤◌, ◌+◌, OnOk, IfOk, IfErr, Some, None};
ghost use Rattle.c_parser.specs.inside.Wants as wants;
ghost use Rattle.c_parser.specs.inside.Stacks.{weight};
ghost use Rattle.c_parser.specs.inside.Run.{parse_run, parser_stepped, Accepted, ParseRefuses};

use crate::fault::ParseFault;
use crate::want::{Taken, Want, Wants};
use c_lexer::TokenList;
use c_tree::{Kind, kind_at};
use std::alloc::{AllocError, Global};

/// Lets the wants take a token, and says whether it may come here.
fn step(stack: &mut Wants, kind: Kind) -> Result<bool, AllocError>
    requires { weight stack.old ≤ 64 }
    ensures { IfOk result (λ b. parser_stepped b stack.new ≡ wants.parser_step stack.old kind) }
{
    'next: while let Some(want) = stack.pop() {
        match stack.meet(want, kind)? {
            Taken::Refused => return Ok(false),
            Taken::Taken => return Ok(true),
            Taken::Yielded => {}
        }
    }
    Ok(kind == Kind::End)
}

/// Accepts exactly the lists that spell some program and nowhere weigh over 64; otherwise names the
/// first token that continues no program or is too deep.
#[tactic(auto, using(crate::proofs::Steps::judging))]
pub fn judge(alloc: Global, tokens: &TokenList) -> Result<(), ParseFault>
    ensures accepted { OnOk result (parse_run (Some 64) tokens.now.tokens 0 (Want.Items ∷ [])
        ≡ Accepted) }
    ensures refused { IfErr result
        (λ f. ParseRefuses f (parse_run (Some 64) tokens.now.tokens 0 (Want.Items ∷ []))) }
{
    let mut stack = Wants::new(alloc);
    stack.push(Want::Items)?;
    for at in 0..tokens.len() {
        if !step(&mut stack, kind_at(tokens, at))? {
            return Err(ParseFault::Syntax(at));
        }
        if stack.is_heavy() {
            return Err(ParseFault::TooDeep(at));
        }
    }
    if step(&mut stack, Kind::End)? {
        return Ok(());
    }
    Err(ParseFault::Syntax(tokens.len()))
}
