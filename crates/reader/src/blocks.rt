// Statements that hold others.
ghost use Rattle.std.specs.Prelude.{suc, ◌≤◌, true};
ghost use Rattle.script.specs.Tree.{while, block};
ghost use Rattle.script.specs.Flat.{flat_stmt, flat_stmts};
ghost use Rattle.tokens.specs.declared.types.Mark.TheVariants.{RightBrace};
ghost use Rattle.grammar.specs.Combine.{after, ret, want};
ghost use Rattle.grammar.specs.Parse.{condition as condition-at, statement as statement-at, statements as statements-at, tests as tests-of, otherwise};
ghost use Rattle.reader.specs.Reading.{Spare};
ghost use Rattle.reader.specs.Statements.{Goes, States, flat_body};

use crate::code::Code;
use crate::cursor::Cursor;
use crate::refusal::ReadRefusal;
use script::Node;
use tokens::{Keyword, Mark, Token};

impl Code {
    #[cycle(blocks)]
    pub(crate) fn statement(&mut self, cursor: &mut Cursor, depth: usize) -> Result<(), ReadRefusal>
        requires { Spare 0 cursor.old self.old }
        ensures { States (λ g. statement-at g depth) flat_stmt cursor.old cursor.new self.old self.new result }
    {
        if let Some(name) = cursor.name() {
            cursor.take(depth)?;
            return self.assignment(cursor, depth, name);
        }
        let at = cursor.here.at;
        match cursor.here.token {
            Token::Keyword(Keyword::If) => {
                cursor.take(depth)?;
                self.choice(cursor, depth, at)
            }
            Token::Keyword(Keyword::While) => {
                cursor.take(depth)?;
                self.repetition(cursor, depth, at)
            }
            Token::Keyword(Keyword::Free) => {
                cursor.take(depth)?;
                self.ended(cursor, depth, at, Node::Free)
            }
            Token::Keyword(Keyword::Print) => {
                cursor.take(depth)?;
                self.ended(cursor, depth, at, Node::Print)
            }
            Token::Keyword(Keyword::Return) => {
                cursor.take(depth)?;
                self.ended(cursor, depth, at, Node::Return)
            }
            Token::Mark(Mark::LeftBrace) => {
                cursor.take(depth)?;
                self.block(cursor, depth, at)
            }
            _ => self.declaration(cursor, depth),
        }
    }

    // An if, after its keyword. What it skips is written once its length is known.
    #[cycle(blocks)]
    fn choice(&mut self, cursor: &mut Cursor, depth: usize, at: usize) -> Result<(), ReadRefusal>
        requires spare { Spare 2 cursor.old self.old }
        requires deep { depth ≤ 64 }
        ensures { Goes 2 (λ g. tests-of depth (condition-at true g (suc depth)) (statement-at g (suc depth)) (otherwise depth at (statement-at g (suc depth)))) flat_stmt cursor.old cursor.new self.old self.new result }
    {
        let start = self.test(cursor, depth, at)?;
        self.body(cursor, depth + 1)?;
        let skip = self.nodes.len() - start;
        if !cursor.at_keyword(Keyword::Else) {
            self.insert(start, Node::Then { skip });
            return Ok(());
        }
        cursor.take(depth)?;
        self.insert(start, Node::Then { skip: skip + 1 });
        let other = self.nodes.len();
        self.body(cursor, depth + 1)?;
        let passed = self.nodes.len() - other;
        self.insert(other, Node::Else { skip: passed });
        Ok(())
    }

    // A while, after its keyword.
    #[cycle(blocks)]
    fn repetition(
        &mut self,
        cursor: &mut Cursor,
        depth: usize,
        at: usize,
    ) -> Result<(), ReadRefusal>
        requires spare { Spare 2 cursor.old self.old }
        requires deep { depth ≤ 64 }
        ensures { Goes 2 (λ g. tests-of depth (condition-at true g (suc depth)) (statement-at g (suc depth)) (λ x y. ret (while at x y))) flat_stmt cursor.old cursor.new self.old self.new result }
    {
        let begin = self.nodes.len();
        let start = self.test(cursor, depth, at)?;
        self.body(cursor, depth + 1)?;
        let skip = self.nodes.len() - start + 1;
        self.insert(start, Node::Loop { skip });
        let back = self.nodes.len() - begin;
        self.push(Node::Back { skip: back });
        Ok(())
    }

    // A statement that is a scope of its own.
    #[cycle(blocks)]
    fn body(&mut self, cursor: &mut Cursor, depth: usize) -> Result<(), ReadRefusal>
        requires { Spare 1 cursor.old self.old }
        ensures { Goes 1 (λ g. statement-at g depth) flat_body cursor.old cursor.new self.old self.new result }
    {
        self.statement(cursor, depth)?;
        self.push(Node::EndScope);
        Ok(())
    }

    // A block, after its opening brace.
    #[cycle(blocks)]
    fn block(&mut self, cursor: &mut Cursor, depth: usize, at: usize) -> Result<(), ReadRefusal>
        requires spare { Spare 2 cursor.old self.old }
        requires deep { depth ≤ 64 }
        ensures { Goes 2 (λ g. after (statements-at g (suc depth)) (λ x. want depth RightBrace (ret (block at x)))) flat_stmt cursor.old cursor.new self.old self.new result }
    {
        self.push(Node::BeginBlock { at });
        self.statements(cursor, depth + 1)?;
        cursor.expect(Mark::RightBrace, depth)?;
        self.push(Node::EndScope);
        Ok(())
    }

    // Statements, as long as one begins.
    #[cycle(blocks)]
    pub(crate) fn statements(
        &mut self,
        cursor: &mut Cursor,
        depth: usize,
    ) -> Result<(), ReadRefusal>
        requires { Spare 0 cursor.old self.old }
        ensures { Goes 0 (λ g. statements-at g depth) flat_stmts cursor.old cursor.new self.old self.new result }
    {
        while cursor.at_statement() {
            self.statement(cursor, depth)?;
        }
        Ok(())
    }
}
