//! The tokens that a text leaves to the grammar.

ghost use Rattle.std.specs.Prelude.{◌≡◌, ◌⊎◌};
ghost use Rattle.c_constants.specs.Passes as passes;

use crate::declaration::one_name_each;
use crate::fault::ConstFault;
use crate::pass::constants_left;
use c_lexer::TokenList;
use std::alloc::Global;

/// The tokens that the definitions of constants leave, with one name in each declaration, each with
/// its place in the text; or the first refusal. Want of memory may be answered for any list.
pub fn constants(alloc: Global, tokens: &TokenList) -> Result<TokenList, ConstFault>
    ensures exact { (result ≡ Err ConstFault.NoMemory) ⊎ (result ≡ passes.tokens_left tokens.now) }
{
    let left = constants_left(alloc, tokens)?;
    one_name_each(alloc, &left)
}
