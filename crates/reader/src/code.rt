// The flat code that reading writes, in memory that is reserved beforehand.
ghost use Rattle.std.specs.Prelude.{◌≤◌, vec_capacity};

use script::{Declarator, Function, Node};

// Readers take a cursor beside it, and say what room both leave (`Spare`, `Roomy`): a struct of both would hold a `&mut`
// to the script's code, and each method would have to promise that it stays the same one. `depth` and offsets differ
// from call to call.
#[derive(Drop)]
pub(crate) struct Code {
    pub(crate) nodes: Vec<Node>,
    pub(crate) functions: Vec<Function>,
    pub(crate) formals: Vec<Declarator>,
    ghost nodes_room: { 4096 ≤ vec_capacity nodes },
    ghost functions_room: { 342 ≤ vec_capacity functions },
    ghost formals_room: { 1024 ≤ vec_capacity formals },
}

// What was read where a parenthesis may hold an expression or a condition.
#[derive(Clone, Copy)]
pub(crate) enum Thing {
    Expression,
    Condition,
}
