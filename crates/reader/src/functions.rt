// Functions, and a program of them.
ghost use Rattle.std.specs.Prelude.{◌≡◌, ◌==◌};
ghost use Rattle.grammar.specs.Combine.{kind_at};
ghost use Rattle.reader.specs.Cursor.{left};
ghost use Rattle.reader.specs.Functions.{Roomy, ReadsFormal, ReadsFormals, ReadsFunction, ReadsProgram};

use crate::code::Code;
use crate::cursor::Cursor;
use crate::refusal::ReadRefusal;
use script::{Function, Node};
use tokens::{Mark, Token};

impl Cursor<'_> {
    fn at_end(&self) -> bool
        ensures { result ≡ (kind_at (left self.now) == 0) }
    {
        matches!(self.here.token, Token::End)
    }
}

impl Code {
    // A formal, written as a node and as a formal.
    fn formal(&mut self, cursor: &mut Cursor) -> Result<(), ReadRefusal>
        requires { Roomy cursor.old self.old }
        ensures { ReadsFormal cursor.old cursor.new self.old self.new result }
    {
        let formal = cursor.declarator(1)?;
        self.formals.push_reserved(formal);
        self.push(Node::Formal { formal });
        Ok(())
    }

    // The formals of a function, after their opening parenthesis, with the closing one.
    fn formals_after(&mut self, cursor: &mut Cursor) -> Result<(), ReadRefusal>
        requires { Roomy cursor.old self.old }
        ensures { ReadsFormals cursor.old cursor.new self.old self.new result }
    {
        if cursor.at_mark(Mark::RightParen) {
            return cursor.take(0);
        }
        loop {
            self.formal(cursor)?;
            if !cursor.at_mark(Mark::Comma) {
                return cursor.expect(Mark::RightParen, 0);
            }
            cursor.take(1)?;
        }
    }

    fn function(&mut self, cursor: &mut Cursor) -> Result<(), ReadRefusal>
        requires { Roomy cursor.old self.old }
        ensures { ReadsFunction cursor.old cursor.new self.old self.new result }
    {
        let first = self.formals.len();
        let head = cursor.declarator(0)?;
        cursor.expect(Mark::LeftParen, 0)?;
        self.push(Node::Enter { head });
        self.formals_after(cursor)?;
        cursor.expect(Mark::LeftBrace, 0)?;
        let formals = self.formals.len() - first;
        let entry = self.nodes.len();
        self.statements(cursor, 1)?;
        let close = cursor.here.at;
        cursor.expect(Mark::RightBrace, 0)?;
        self.push(Node::Leave { at: close });
        self.functions.push_reserved(Function {
            head,
            first,
            formals,
            entry,
            close,
        });
        Ok(())
    }

    // A program: functions, as long as one begins, and the end of the source.
    pub(crate) fn program(&mut self, cursor: &mut Cursor) -> Result<(), ReadRefusal>
        requires { Roomy cursor.old self.old }
        ensures { ReadsProgram cursor.old cursor.new self.old self.new result }
    {
        while cursor.at_declaration() {
            self.function(cursor)?;
        }
        if !cursor.at_end() {
            return Err(cursor.wrong());
        }
        Ok(())
    }
}
