// Expressions and conditions. In a condition a parenthesis may hold either, and only a later token tells: one reader reads both.
ghost use Rattle.std.specs.Prelude.{suc, ◌<◌, ◌≤◌, true, vec_len};
ghost use Rattle.script.specs.Flat.{flat, flat_cond};
ghost use Rattle.grammar.specs.Parse.{expression, condition, actuals, named, operand, negation};
ghost use Rattle.reader.specs.Binding.{rank, join_rank};
ghost use Rattle.reader.specs.Reading.{Spare, Reads, ReadsActuals};
ghost use Rattle.reader.specs.Terms.{Deeper, Goes, Gives, Follows, Compares, operands, levels, chained, inside, bracketed, conditions, joining_on, flat_got, got_is, flat_found, found_is};

use crate::binding::{Binding, Join};
use crate::code::{Code, Thing};
use crate::cursor::Cursor;
use crate::refusal::ReadRefusal;
use script::{Name, Node};
use tokens::{Keyword, Mark, Token};

// One deeper; no token may stand beyond 64, so that there is no need to count on.
fn deeper(depth: usize) -> usize
    ensures { Deeper depth result }
{
    if depth < 64 { depth + 1 } else { 65 }
}

impl Code {
    // An expression.
    #[tactic(auto, using(crate::proofs::Operands::refused_whole, crate::proofs::Operands::read_whole))]
    pub(crate) fn expression(
        &mut self,
        cursor: &mut Cursor,
        depth: usize,
    ) -> Result<(), ReadRefusal>
        requires { Spare 0 cursor.old self.old }
        ensures { Reads (λ g. expression g depth) flat cursor.old cursor.new self.old self.new result }
    {
        self.level(cursor, depth, false, Some(Binding::Dot))?;
        Ok(())
    }

    // A condition.
    #[tactic(auto, using(crate::proofs::Operands::refused_whole, crate::proofs::Operands::read_whole))]
    pub(crate) fn condition(&mut self, cursor: &mut Cursor, depth: usize) -> Result<(), ReadRefusal>
        requires { Spare 0 cursor.old self.old }
        ensures { Reads (λ g. condition true g depth) flat_cond cursor.old cursor.new self.old self.new result }
    {
        self.conditions(cursor, depth, true, Some(Join::Or))?;
        Ok(())
    }

    // The actuals of a call, after its opening parenthesis, with the closing one; the answer is their number.
    #[cycle(terms)]
    pub(crate) fn actuals(
        &mut self,
        cursor: &mut Cursor,
        depth: usize,
    ) -> Result<usize, ReadRefusal>
        requires { Spare 0 cursor.old self.old }
        ensures { ReadsActuals (λ g. actuals depth g (expression g (suc depth))) cursor.old cursor.new self.old self.new result }
    {
        if cursor.at_mark(Mark::RightParen) {
            cursor.take(depth)?;
            return Ok(0);
        }
        let inner = deeper(depth);
        // `level` and no `expression`, here and in `compared`: that would be one function more in the cycle of proofs.
        self.level(cursor, inner, false, Some(Binding::Dot))?;
        let mut count = 1;
        while cursor.at_mark(Mark::Comma) {
            cursor.take(inner)?;
            self.level(cursor, inner, false, Some(Binding::Dot))?;
            count += 1;
        }
        cursor.expect(Mark::RightParen, depth)?;
        Ok(count)
    }

    // A variable or a call, after its name.
    #[cycle(terms)]
    fn named(&mut self, cursor: &mut Cursor, depth: usize, name: Name) -> Result<(), ReadRefusal>
        requires { Spare 2 cursor.old self.old }
        ensures { Goes 2 (λ g. named depth (suc g) (expression (suc g) (suc depth)) name) flat cursor.old cursor.new self.old self.new result }
    {
        if !cursor.at_mark(Mark::LeftParen) {
            self.push(Node::Variable { name });
            return Ok(());
        }
        cursor.take(depth)?;
        self.push(Node::Begin { at: name.at });
        let count = self.actuals(cursor, depth)?;
        self.push(Node::Call {
            name,
            actuals: count,
        });
        Ok(())
    }

    // What stands in parentheses. `merged`, here and below, says that it may be a condition too, and `must` that it has to be one:
    // the grammar's own arguments, by which the type of what is read goes.
    #[cycle(terms)]
    fn inside(
        &mut self,
        cursor: &mut Cursor,
        depth: usize,
        merged: bool,
    ) -> Result<Thing, ReadRefusal>
        requires { Spare 0 cursor.old self.old }
        ensures { Gives 0 (λ g. inside merged (suc g) depth) (flat_got merged) (got_is merged) cursor.old cursor.new self.old self.new result }
    {
        if merged {
            return self.conditions(cursor, depth, false, Some(Join::Or));
        }
        self.level(cursor, depth, false, Some(Binding::Dot))
    }

    // A cast or a group, after its opening parenthesis.
    // `depth ≤ 64` is in five contracts, since a token was passed there: a type for it would be taken apart again at each
    // mark that is wanted at `depth`.
    #[cycle(terms)]
    fn bracket(
        &mut self,
        cursor: &mut Cursor,
        depth: usize,
        merged: bool,
        at: usize,
    ) -> Result<Thing, ReadRefusal>
        requires ready { Spare 0 cursor.old self.old }
        requires deep { depth ≤ 64 }
        ensures { Gives 0 (λ g. bracketed merged depth (operand (suc g) (suc depth)) (inside merged (suc g) (suc depth)) at) (flat_got merged) (got_is merged) cursor.old cursor.new self.old self.new result }
    {
        if let Some(to) = cursor.type_here() {
            cursor.take(depth)?;
            cursor.expect(Mark::RightParen, depth)?;
            self.push(Node::Begin { at });
            self.operand(cursor, depth + 1, false)?; // a cast takes one operand, as a prefix does
            self.push(Node::Cast { at, to });
            return Ok(Thing::Expression);
        }
        let thing = self.inside(cursor, depth + 1, merged)?;
        cursor.expect(Mark::RightParen, depth)?;
        Ok(thing)
    }

    #[cycle(terms)]
    fn operand(
        &mut self,
        cursor: &mut Cursor,
        depth: usize,
        merged: bool,
    ) -> Result<Thing, ReadRefusal>
        requires { Spare 0 cursor.old self.old }
        ensures { Gives 0 (λ g. operands merged g depth) (flat_got merged) (got_is merged) cursor.old cursor.new self.old self.new result }
    {
        if let Some(name) = cursor.name() {
            cursor.take(depth)?;
            self.named(cursor, depth, name)?;
            return Ok(Thing::Expression);
        }
        let at = cursor.here.at;
        match cursor.here.token {
            Token::Constant(value) => {
                cursor.take(depth)?;
                self.push(Node::Constant { at, value });
                Ok(Thing::Expression)
            }
            Token::Keyword(Keyword::Nil) => {
                cursor.take(depth)?;
                self.push(Node::Nil { at });
                Ok(Thing::Expression)
            }
            Token::Mark(Mark::Minus) => {
                cursor.take(depth)?;
                self.push(Node::Begin { at });
                self.operand(cursor, depth + 1, false)?;
                self.push(Node::Negate { at });
                Ok(Thing::Expression)
            }
            Token::Mark(Mark::LeftParen) => {
                cursor.take(depth)?;
                self.bracket(cursor, depth, merged, at)
            }
            _ => Err(cursor.wrong()),
        }
    }

    // A chain of binary operators, or an operand.
    #[cycle(terms)]
    fn level(
        &mut self,
        cursor: &mut Cursor,
        depth: usize,
        merged: bool,
        binding: Option<Binding>,
    ) -> Result<Thing, ReadRefusal>
        requires { Spare 0 cursor.old self.old }
        ensures { Gives 0 (λ g. levels merged (rank binding) g depth) (flat_got merged) (got_is merged) cursor.old cursor.new self.old self.new result }
    {
        let Some(binding) = binding else {
            return self.operand(cursor, depth, merged);
        };
        let start = cursor.here.at;
        let from = self.nodes.len();
        match self.level(cursor, depth, merged, binding.tighter())? {
            Thing::Condition => Ok(Thing::Condition),
            Thing::Expression => {
                self.chain(cursor, depth, binding, start, from)?;
                Ok(Thing::Expression)
            }
        }
    }

    // The rest of a chain of binary operators, after its first operand: that begins at the offset `start`, which only
    // this function takes, and its code at the node `from`. That `from` lies within the code is in three contracts: no
    // type can hold that of code which is another value.
    #[cycle(terms)]
    fn chain(
        &mut self,
        cursor: &mut Cursor,
        depth: usize,
        binding: Binding,
        start: usize,
        from: usize,
    ) -> Result<(), ReadRefusal>
        requires ready { Spare 0 cursor.old self.old }
        requires within { from ≤ vec_len self.old.nodes }
        ensures { Follows (λ g. chained depth (rank (Some binding)) start g g) flat from cursor.old cursor.new self.old self.new result }
    {
        while let Some(operator) = cursor.operator_at(binding) {
            let at = cursor.here.at;
            cursor.take(depth)?;
            self.insert(from, Node::Begin { at });
            self.level(cursor, depth, false, binding.tighter())?;
            self.push(Node::Binary {
                at,
                start,
                operator,
            });
        }
        Ok(())
    }

    // A negation or a comparison; where it need not be a condition, an expression.
    #[cycle(terms)]
    fn negation(
        &mut self,
        cursor: &mut Cursor,
        depth: usize,
        must: bool,
    ) -> Result<Thing, ReadRefusal>
        requires { Spare 0 cursor.old self.old }
        ensures { Gives 0 (λ g. negation must (suc g) depth) (flat_found must) (found_is must) cursor.old cursor.new self.old self.new result }
    {
        let at = cursor.here.at;
        if cursor.at_mark(Mark::Not) {
            cursor.take(depth)?;
            self.push(Node::Begin { at });
            self.negation(cursor, depth + 1, true)?;
            self.push(Node::Not);
            return Ok(Thing::Condition);
        }
        let from = self.nodes.len();
        match self.level(cursor, depth, true, Some(Binding::Dot))? {
            Thing::Condition => Ok(Thing::Condition),
            Thing::Expression => self.compared(cursor, depth, must, from),
        }
    }

    // A comparison after its left side, whose code begins at the node `from`.
    #[cycle(terms)]
    fn compared(
        &mut self,
        cursor: &mut Cursor,
        depth: usize,
        must: bool,
        from: usize,
    ) -> Result<Thing, ReadRefusal>
        requires ready { Spare 0 cursor.old self.old }
        requires within { from ≤ vec_len self.old.nodes }
        ensures { Compares must depth from cursor.old cursor.new self.old self.new result }
    {
        let at = cursor.here.at;
        if let Some(comparison) = cursor.comparison() {
            cursor.take(depth)?;
            self.insert(from, Node::Begin { at });
            self.level(cursor, depth, false, Some(Binding::Dot))?;
            self.push(Node::Compare { comparison });
            return Ok(Thing::Condition);
        }
        if must {
            Err(cursor.wrong())
        } else {
            Ok(Thing::Expression)
        }
    }

    // A chain of conditions, or a negation or a comparison. Not `level` over another enum: what goes on, what begins
    // there and where a node is put are others.
    #[cycle(terms)]
    fn conditions(
        &mut self,
        cursor: &mut Cursor,
        depth: usize,
        must: bool,
        join: Option<Join>,
    ) -> Result<Thing, ReadRefusal>
        requires { Spare 0 cursor.old self.old }
        ensures { Gives 0 (λ g. conditions must (join_rank join) g depth) (flat_found must) (found_is must) cursor.old cursor.new self.old self.new result }
    {
        let Some(join) = join else {
            return self.negation(cursor, depth, must);
        };
        let from = self.nodes.len();
        match self.conditions(cursor, depth, must, join.tighter())? {
            Thing::Expression => Ok(Thing::Expression),
            Thing::Condition => {
                self.joined(cursor, depth, join, from)?;
                Ok(Thing::Condition)
            }
        }
    }

    // The rest of a chain of conditions, after its first one, whose code begins at the node `from`.
    #[cycle(terms)]
    fn joined(
        &mut self,
        cursor: &mut Cursor,
        depth: usize,
        join: Join,
        from: usize,
    ) -> Result<(), ReadRefusal>
        requires ready { Spare 0 cursor.old self.old }
        requires within { from ≤ vec_len self.old.nodes }
        ensures { Follows (λ g. joining_on depth (join_rank (Some join)) g g) flat_cond from cursor.old cursor.new self.old self.new result }
    {
        while cursor.joins(join) {
            let at = cursor.here.at;
            cursor.take(depth)?;
            self.insert(from, Node::Begin { at });
            let middle = self.nodes.len();
            self.conditions(cursor, depth, true, join.tighter())?;
            let skip = self.nodes.len() - middle;
            self.insert(middle, join.node(skip));
        }
        Ok(())
    }
}
