// The grammar, and what is proved of reading by it.
#![tactic(auto)]

ghost use Rattle.grammar.specs.Parse.{outcome};
ghost use Rattle.grammar.specs.Refusals.{Right};
ghost use Rattle.grammar.specs.Parentheses.{ParenthesesTell};

// Nothing is computed here: the contract says that the reading of specs/Parse.antt is right.
pub fn reading_stands()
    ensures right { Right outcome }
    ensures parentheses { ParenthesesTell }
{}
