// The tokens of a source.
#![tactic(auto)]

mod begun;
mod fill;
mod front;
mod lexer;
mod list;
mod scan;
mod texts;
mod types;
mod words;

pub use lexer::Lexer;
pub use list::TokenList;
pub use types::{Keyword, Mark, Placed, Token, Trouble};
