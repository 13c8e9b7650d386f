// Types: what fits what, and what operators take and give.
ghost use Rattle.std.specs.Prelude.{◌≡◌};
ghost use Rattle.typing.specs.Types.{fits, castable, meets, wants, gives, allowed};
ghost use Rattle.typing.specs.Faults.{fitted, negate_type, cast_type, binary_type};
ghost use Rattle.typing.specs.View.{is_statement};

use crate::types::{CallPlace, Operand, Want};
use script::{Operator, Type};

fn does_fit(ty: Type, wanted: Type) -> bool
    ensures { result ≡ fits ty wanted }
{
    wanted == Type::Q || ty == wanted
}

fn can_cast(ty: Type, to: Type) -> bool
    ensures { result ≡ castable ty to }
{
    ty == Type::Q || does_fit(ty, to)
}

impl Want {
    pub(crate) fn is_met_by(self, ty: Type) -> bool
        ensures { result ≡ meets ty self }
    {
        match self {
            Want::Fit { ty: wanted } => does_fit(ty, wanted),
            Want::Cast { to } => can_cast(ty, to),
        }
    }

    // The type is known and is what is wanted.
    pub(crate) fn is_met_by_known(self, ty: Option<Type>) -> bool
        ensures { result ≡ fitted ty self }
    {
        ty.is_some_and(|known| self.is_met_by(known))
    }
}

impl Operand {
    pub(crate) fn is_fit_for(&self, ty: Type) -> bool
        ensures { result ≡ fitted self.now.ty (Want.Fit ty) }
    {
        Want::Fit { ty }.is_met_by_known(self.ty)
    }
}

// What both operands must fit, and the type of the result.
fn types_of(operator: Operator) -> (Type, Type)
    ensures wanted { result.0 ≡ wants operator }
    ensures given { result.1 ≡ gives operator }
{
    match operator {
        Operator::Multiply | Operator::Add | Operator::Subtract => (Type::Int, Type::Int),
        Operator::Dot => (Type::Q, Type::Ref),
    }
}

// What both operands must fit.
pub fn operator_wants(operator: Operator) -> Type
    ensures { result ≡ wants operator }
{
    types_of(operator).0
}

pub fn type_of_negation(operand: Option<Type>) -> Option<Type>
    ensures { result ≡ negate_type operand }
{
    let fits_int = Want::Fit { ty: Type::Int }.is_met_by_known(operand);
    fits_int.then_some(Type::Int)
}

pub fn type_of_cast(to: Type, operand: Option<Type>) -> Option<Type>
    ensures { result ≡ cast_type to operand }
{
    Want::Cast { to }.is_met_by_known(operand).then_some(to)
}

pub fn type_of_binary(operator: Operator, left: Option<Type>, right: Option<Type>) -> Option<Type>
    ensures { result ≡ binary_type operator left right }
{
    let (ty, given) = types_of(operator);
    let wanted = Want::Fit { ty };
    let both_fit = wanted.is_met_by_known(left) && wanted.is_met_by_known(right);
    both_fit.then_some(given)
}

// A call at this place may stand in a function of the first mutability and call one of the second.
pub(crate) fn is_allowed(place: CallPlace, caller: bool, called: bool) -> bool
    ensures { result ≡ allowed (is_statement place) caller called }
{
    if called {
        caller
    } else {
        place == CallPlace::Expression
    }
}
