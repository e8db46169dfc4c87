//! Tables of texts: their tokens, the tokens that their constants leave, and their trees. It stands
//! on `c_constants` and `c_parser` and holds nothing but tests.
#![tactic(auto)]

#[cfg(test)]
mod constants;
#[cfg(test)]
mod tokens;
#[cfg(test)]
mod tree_text;
#[cfg(test)]
mod trees;
