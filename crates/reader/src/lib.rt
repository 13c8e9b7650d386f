// Reading a script: recursive descent over the tokens of a source.
#![tactic(auto)]

mod binding;
mod blocks;
mod code;
mod cursor;
mod declarators;
mod expect;
mod functions;
mod operators;
mod read_script;
mod reading;
mod refusal;
mod statements;
mod terms;
mod tokens_left;
mod write;

pub use read_script::ReadScript;
pub use refusal::{ReadRefusal, Reason};
