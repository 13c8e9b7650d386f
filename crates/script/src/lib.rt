// The flat code of a script, which reader, checker and run share.
#![tactic(auto)]

ghost use Rattle.script.specs.Laws.{FlatLosesNothing};

mod types;

pub use types::{BuiltIn, Comparison, Declarator, Function, Instr, Name, Node, Operator, Type};

// The tree can be told from the flat code.
pub fn flat_loses_nothing()
    ensures { FlatLosesNothing }
{}
