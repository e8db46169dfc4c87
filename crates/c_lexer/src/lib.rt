//! The tokens of a program text. It rests on `nvm_base`. Its one contract for the crates above:
//! `tokens` answers exactly the tokens that a text spells, each with its line and the number of
//! bytes before it, or the first refusal with its place.
#![tactic(auto)]

mod byte;
mod comment;
mod fault;
mod list;
mod mark;
mod number;
mod piece;
mod scan;
mod spot;
mod token;
mod word;

pub use fault::LexFault;
pub use list::TokenList;
pub use scan::{MOST_BYTES, MOST_TOKENS, tokens};
pub use token::{Mark, Placed, Token, Word};
