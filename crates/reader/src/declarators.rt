// The head of a declaration, and what a token at hand begins.
ghost use Rattle.std.specs.Prelude.{◌≡◌};
ghost use Rattle.grammar.specs.Combine.{kind_at};
ghost use Rattle.grammar.specs.Parse.{declares, begins, typed, declarator};
ghost use Rattle.reader.specs.Cursor.{left};
ghost use Rattle.reader.specs.Reading.{IsType};
ghost use Rattle.reader.specs.Statements.{Declares};

use crate::cursor::Cursor;
use crate::refusal::ReadRefusal;
use script::{Declarator, Type};
use tokens::{Keyword, Mark, Token};

impl Cursor<'_> {
    // The type whose keyword is at hand, if it is one.
    pub(crate) fn type_here(&self) -> Option<Type>
        ensures { IsType (left self.now) result }
    {
        match self.here.token {
            Token::Keyword(Keyword::Int) => Some(Type::Int),
            Token::Keyword(Keyword::Ref) => Some(Type::Ref),
            Token::Keyword(Keyword::Q) => Some(Type::Q),
            _ => None,
        }
    }

    // A declaration begins here.
    pub(crate) fn at_declaration(&self) -> bool
        ensures { result ≡ declares (kind_at (left self.now)) }
    {
        matches!(
            self.here.token,
            Token::Keyword(Keyword::Mutable | Keyword::Int | Keyword::Ref | Keyword::Q)
        )
    }

    // A statement begins here. A match: all keywords but two begin one, and a pattern would name the other nine.
    pub(crate) fn at_statement(&self) -> bool
        ensures { result ≡ begins (kind_at (left self.now)) }
    {
        match self.here.token {
            Token::Name(_) | Token::Mark(Mark::LeftBrace) => true,
            Token::Keyword(keyword) => !matches!(keyword, Keyword::Else | Keyword::Nil),
            _ => false,
        }
    }

    // A type and a name.
    fn typed(&mut self, depth: usize, mutable: bool) -> Result<Declarator, ReadRefusal>
        ensures { Declares (typed depth mutable) self.old self.new result }
    {
        let Some(ty) = self.type_here() else {
            return Err(self.wrong());
        };
        self.take(depth)?;
        let Some(name) = self.name() else {
            return Err(self.wrong());
        };
        self.take(depth)?;
        Ok(Declarator { mutable, ty, name })
    }

    // The head of a declaration: `mutable` or nothing, a type and a name.
    pub(crate) fn declarator(&mut self, depth: usize) -> Result<Declarator, ReadRefusal>
        ensures { Declares (declarator depth) self.old self.new result }
    {
        if self.at_keyword(Keyword::Mutable) {
            self.take(depth)?;
            return self.typed(depth, true);
        }
        self.typed(depth, false)
    }
}
