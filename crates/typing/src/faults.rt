// The least fault so far, with those that are found.
ghost use Rattle.std.specs.Prelude.{◌≡◌};
ghost use Rattle.typing.specs.Faults.{number_of, fault, note, noted, unfit, unless, unseen, seen, assign_faults, type_at};

use crate::types::{CheckRefusal, LeastFault, Operand, Reason, Variable, Want};
use script::Type;

impl CheckRefusal {
    // The number of the refusal.
    pub fn number(self) -> u8
        ensures { result ≡ number_of self.reason }
    {
        self.reason as u8
    }
}

impl LeastFault {
    pub fn note(&mut self, fault: CheckRefusal)
        ensures { self.new.found ≡ note self.old.found fault }
    {
        let least = self.found.map_or(fault, |found| found.min(fault));
        self.found = Some(least);
    }

    // What does not hold is a fault at this offset.
    pub fn demand(&mut self, holds: bool, at: usize, reason: Reason)
        ensures { self.new.found ≡ noted self.old.found (unless holds at reason) }
    {
        if !holds {
            self.refuse(at, reason);
        }
    }

    pub(crate) fn refuse(&mut self, at: usize, reason: Reason)
        ensures { self.new.found ≡ note self.old.found (fault at reason) }
    {
        self.note(CheckRefusal { at, reason });
    }

    // An operand that is not what is wanted is a fault at its first byte.
    pub fn want(&mut self, operand: Operand, wanted: Want)
        ensures { self.new.found ≡ noted self.old.found (unfit operand.ty wanted operand.start) }
    {
        let holds = operand.ty.is_none_or(|ty| wanted.is_met_by(ty));
        self.demand(holds, operand.start, Reason::Unfit);
    }

    // A name that is declared is not in view. What a name means and where it stands are two things to a caller, who has
    // them apart: no struct.
    pub fn want_unseen(&mut self, variable: Option<Variable>, at: usize)
        ensures { self.new.found ≡ noted self.old.found (seen variable at) }
    {
        self.demand(variable.is_none(), at, Reason::InView);
    }

    // A variable that is used is in view.
    pub fn want_seen(&mut self, variable: Option<Variable>, at: usize)
        ensures { self.new.found ≡ noted self.old.found (unseen variable at) }
    {
        self.demand(variable.is_some(), at, Reason::NotInView);
    }

    pub fn want_assignable(&mut self, variable: Option<Variable>, at: usize, operand: Operand)
        ensures { self.new.found ≡ noted self.old.found (assign_faults variable at operand) }
    {
        match variable {
            None => self.refuse(at, Reason::NotInView),
            Some(Variable { declared, .. }) => {
                self.want(operand, Want::Fit { ty: declared.ty });
                self.demand(declared.mutable, at, Reason::Immutable);
            }
        }
    }
}

pub fn type_seen(variable: Option<Variable>) -> Option<Type>
    ensures { result ≡ type_at variable }
{
    variable.map(|found| found.declared.ty)
}
