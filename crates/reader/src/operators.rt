// Which operator or comparison the token at hand is.
ghost use Rattle.std.specs.Prelude.{◌≡◌, ◌<◌, true};
ghost use Rattle.grammar.specs.Combine.{kind_at};
ghost use Rattle.grammar.specs.Parse.{joining, joins};
ghost use Rattle.reader.specs.Cursor.{left};
ghost use Rattle.reader.specs.Binding.{join_rank, IsBinary, IsOperator};
ghost use Rattle.reader.specs.Terms.{IsComparison};

use crate::binding::{Binding, Join};
use crate::cursor::Cursor;
use script::{Comparison, Operator};
use tokens::{Mark, Token};

impl<'a> Cursor<'a> {
    // The binary operator at hand, and how tightly it binds.
    fn binary(&self) -> Option<(Operator, Binding)>
        ensures { IsBinary (left self.now) result }
    {
        match self.here.token {
            Token::Mark(Mark::Star) => Some((Operator::Multiply, Binding::Product)),
            Token::Mark(Mark::Plus) => Some((Operator::Add, Binding::Sum)),
            Token::Mark(Mark::Minus) => Some((Operator::Subtract, Binding::Sum)),
            Token::Mark(Mark::Dot) => Some((Operator::Dot, Binding::Dot)),
            _ => None,
        }
    }

    // The binary operator at hand, if it binds so tightly.
    pub(crate) fn operator_at(&self, binding: Binding) -> Option<Operator>
        ensures { IsOperator binding (left self.now) result }
    {
        let (operator, binds) = self.binary()?;
        (binds == binding).then_some(operator)
    }

    // The `&&` or `||` at hand.
    fn joining(&self) -> Option<Join>
        ensures { join_rank result ≡ joining (kind_at (left self.now)) }
    {
        match self.here.token {
            Token::Mark(Mark::AndAnd) => Some(Join::And),
            Token::Mark(Mark::OrOr) => Some(Join::Or),
            _ => None,
        }
    }

    // The `&&` or `||` at hand binds so tightly.
    pub(crate) fn joins(&self, join: Join) -> bool
        ensures value { result ≡ joins (join_rank (Some join)) (kind_at (left self.now)) }
        ensures token { result ≡ true → 1 < kind_at (left self.now) }
    {
        self.joining() == Some(join)
    }

    pub(crate) fn comparison(&self) -> Option<Comparison>
        ensures { IsComparison (left self.now) result }
    {
        match self.here.token {
            Token::Mark(Mark::LessEqual) => Some(Comparison::LessEqual),
            Token::Mark(Mark::GreaterEqual) => Some(Comparison::GreaterEqual),
            Token::Mark(Mark::EqualEqual) => Some(Comparison::Equal),
            Token::Mark(Mark::NotEqual) => Some(Comparison::NotEqual),
            Token::Mark(Mark::Less) => Some(Comparison::Less),
            Token::Mark(Mark::Greater) => Some(Comparison::Greater),
            _ => None,
        }
    }
}
