// Writing nodes, for which there is room.
ghost use Rattle.std.specs.Prelude.{◌<◌, ◌≤◌, vec_len, vec_capacity};
ghost use Rattle.reader.specs.Terms.{Wrote, Inserted};

use crate::code::Code;
use script::Node;

impl Code {
    pub(crate) fn push(&mut self, node: Node)
        requires { vec_len self.old.nodes < vec_capacity self.old.nodes }
        ensures { Wrote node self.old self.new }
    {
        self.nodes.push_reserved(node);
    }

    // Writes a node before the node `i`: a place in code that grows is a number, since a slice from it would borrow the code.
    pub(crate) fn insert(&mut self, i: usize, node: Node)
        requires within { i ≤ vec_len self.old.nodes }
        requires room { vec_len self.old.nodes < vec_capacity self.old.nodes }
        ensures { Inserted i node self.old self.new }
    {
        self.nodes.insert(i, node).unwrap();
    }
}
