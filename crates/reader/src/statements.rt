// Statements that hold no others, and the parts of those that do.
ghost use Rattle.std.specs.Prelude.{suc, ◌-◌, ◌≤◌};
ghost use Rattle.script.specs.Flat.{flat_stmt};
ghost use Rattle.grammar.specs.Parse.{expression, declaration, assignment};
ghost use Rattle.reader.specs.Reading.{Spare};
ghost use Rattle.reader.specs.Statements.{Goes, States, Ends, Tests};

use crate::code::Code;
use crate::cursor::Cursor;
use crate::refusal::ReadRefusal;
use script::{Name, Node};
use tokens::Mark;

impl Code {
    // An expression and a semicolon, which a node ends.
    pub(crate) fn ended(
        &mut self,
        cursor: &mut Cursor,
        depth: usize,
        at: usize,
        node: Node,
    ) -> Result<(), ReadRefusal>
        requires { Spare 2 cursor.old self.old }
        ensures { Ends depth at node cursor.old cursor.new self.old self.new result }
    {
        self.push(Node::Begin { at });
        self.expression(cursor, depth)?;
        cursor.expect(Mark::Semicolon, depth)?;
        self.push(node);
        Ok(())
    }

    pub(crate) fn declaration(
        &mut self,
        cursor: &mut Cursor,
        depth: usize,
    ) -> Result<(), ReadRefusal>
        requires { Spare 0 cursor.old self.old }
        ensures { States (λ g. declaration depth (expression (g - 1) depth)) flat_stmt cursor.old cursor.new self.old self.new result }
    {
        let at = cursor.here.at;
        let declarator = cursor.declarator(depth)?;
        cursor.expect(Mark::Assign, depth)?;
        self.ended(cursor, depth, at, Node::Declare { declarator })
    }

    // An assignment or a call, after its name.
    pub(crate) fn assignment(
        &mut self,
        cursor: &mut Cursor,
        depth: usize,
        name: Name,
    ) -> Result<(), ReadRefusal>
        requires { Spare 2 cursor.old self.old }
        ensures { Goes 2 (λ g. assignment depth g (expression g depth) (expression g (suc depth)) name) flat_stmt cursor.old cursor.new self.old self.new result }
    {
        if cursor.at_mark(Mark::Assign) {
            cursor.take(depth)?;
            return self.ended(cursor, depth, name.at, Node::Assign { name });
        }
        cursor.expect(Mark::LeftParen, depth)?;
        self.push(Node::Begin { at: name.at });
        let actuals = self.actuals(cursor, depth)?;
        cursor.expect(Mark::Semicolon, depth)?;
        self.push(Node::CallStatement { name, actuals });
        Ok(())
    }

    // A condition in parentheses; the answer is where the code after it begins.
    pub(crate) fn test(
        &mut self,
        cursor: &mut Cursor,
        depth: usize,
        at: usize,
    ) -> Result<usize, ReadRefusal>
        requires spare { Spare 2 cursor.old self.old }
        requires deep { depth ≤ 64 }
        ensures { Tests depth at cursor.old cursor.new self.old self.new result }
    {
        cursor.expect(Mark::LeftParen, depth)?;
        self.push(Node::Begin { at });
        self.condition(cursor, depth + 1)?;
        cursor.expect(Mark::RightParen, depth)?;
        Ok(self.nodes.len())
    }
}
