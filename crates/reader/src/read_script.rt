// A script that was read: its source and its code.
ghost use Rattle.std.specs.Prelude.{◌≤◌, vec_len, vec_capacity};
ghost use Rattle.reader.specs.Whole.{IsScript};

use crate::code::Code;

#[derive(Drop)]
pub struct ReadScript {
    pub(crate) source: Vec<u8>,
    pub(crate) code: Code,
    ghost source_room: { 8192 ≤ vec_capacity source },
    ghost script: { ∥ IsScript source.items code.nodes.items code.functions.items code.formals.items ∥₁ },
    ghost source_few: { vec_len source ≤ 8192 },
    ghost nodes_few: { vec_len code.nodes ≤ 4096 },
    ghost functions_few: { vec_len code.functions ≤ 341 },
    ghost formals_few: { vec_len code.formals ≤ 1024 },
}
