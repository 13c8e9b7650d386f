// Calls: what functions take and give, and what is wrong with a call.
ghost use Rattle.std.specs.Prelude.{◌≡◌, ◌==◌, length, map, cond, take, drop};
ghost use Rattle.script.specs.declared.types.«Type».{«Type» as Ty};
ghost use Rattle.typing.specs.Types.{built_in_gives, built_in_mutable, built_in_takes, takes, result_of, is_mutable};
ghost use Rattle.typing.specs.Faults.{noted, one, misfits, all_fit, call_faults, call_type, main_of, main_faults, one_int, name_at};
ghost use Rattle.typing.specs.View.{ctx_of, is_statement, actuals_of};

use crate::fits::is_allowed;
use crate::names::find_named;
use crate::types::{Call, CallPlace, Callee, LeastFault, Operand, Reason, Table, Want};
use script::{BuiltIn, Declarator, Function, Type};

// What a function takes: a built-in's types, or a definition's formals.
trait Typed {
    ghost type_of: { Self → Ty };

    fn ty(&self) -> Type
        ensures { result ≡ type_of self.now };
}

impl Typed for Type {
    ghost type_of = { λ ty. ty };

    fn ty(&self) -> Type {
        *self
    }
}

impl Typed for Declarator {
    ghost type_of = { λ declarator. declarator.ty };

    fn ty(&self) -> Type {
        self.ty
    }
}

// What a built-in gives and takes, and whether it is mutable.
#[derive(Clone, Copy)]
struct Signature {
    gives: Type,
    mutable: bool,
    takes: &'static [Type],
}

fn signature_of(built_in: BuiltIn) -> Signature
    ensures gives { result.gives ≡ built_in_gives built_in }
    ensures mutable { result.mutable ≡ built_in_mutable built_in }
    ensures takes { result.takes.now ≡ built_in_takes built_in }
{
    match built_in {
        BuiltIn::Left | BuiltIn::Right => Signature {
            gives: Type::Q,
            mutable: false,
            takes: &[Type::Ref],
        },
        BuiltIn::IsAtom | BuiltIn::IsNil => Signature {
            gives: Type::Int,
            mutable: false,
            takes: &[Type::Q],
        },
        BuiltIn::SetLeft | BuiltIn::SetRight => Signature {
            gives: Type::Int,
            mutable: true,
            takes: &[Type::Ref, Type::Q],
        },
    }
}

impl Callee {
    fn gives(self) -> Type
        ensures { result ≡ result_of self }
    {
        match self {
            Callee::BuiltIn { built_in } => signature_of(built_in).gives,
            Callee::Defined { function, .. } => function.head.ty,
        }
    }

    fn is_mutable(self) -> bool
        ensures { result ≡ is_mutable self }
    {
        match self {
            Callee::BuiltIn { built_in } => signature_of(built_in).mutable,
            Callee::Defined { function, .. } => function.head.mutable,
        }
    }
}

// The actuals fit, and there is one for each formal.
fn all_fit<T: Typed>(actuals: &[Operand], formals: &[T]) -> bool
    ensures { result ≡ all_fit actuals.now (map T.type_of formals.now) }
{
    actuals.len() == formals.len()
        && actuals
            .iter()
            .zip(formals)
            .all(|(actual, formal)| actual.is_fit_for(formal.ty()))
}

// One formal, of type int.
fn is_one_int(formals: &[Declarator]) -> bool
    ensures { result ≡ one_int (map (λ declarator. declarator.ty) formals.now) }
{
    matches!(formals, [only] if only.ty == Type::Int)
}

impl LeastFault {
    // The faults of actuals that do not fit, as far as there are formals.
    fn want_fitting<T: Typed>(&mut self, actuals: &[Operand], formals: &[T])
        ensures { self.new.found ≡ noted self.old.found (misfits actuals.now (map T.type_of formals.now)) }
    {
        for (actual, formal) in actuals.iter().zip(formals) {
            self.want(*actual, Want::Fit { ty: formal.ty() });
        }
    }

    // A call has as many actuals as there are formals, and they fit.
    fn want_actuals<T: Typed>(&mut self, call: &Call, formals: &[T])
        ensures { self.new.found ≡ noted self.old.found (cond (call.now.count == length formals.now) (misfits (actuals_of call.now) (map T.type_of formals.now)) (one call.now.name.at Reason.WrongCount)) }
    {
        if call.count == formals.len() {
            self.want_fitting(call.actuals(), formals);
        } else {
            self.refuse(call.name.at, Reason::WrongCount);
        }
    }
}

impl Call<'_> {
    fn actuals(&self) -> &[Operand]
        ensures { result.now ≡ actuals_of self.now }
    {
        let first = self.operands.len().saturating_sub(self.count);
        &self.operands[first..]
    }
}

impl Table<'_> {
    // The faults that a call has by itself.
    #[tactic(auto, using(crate::proofs::Fitting::types_of_is, crate::proofs::Fitting::types_of_long))]
    pub fn note_call(&self, call: &Call, least: &mut LeastFault)
        ensures { least.new.found ≡ noted least.old.found (call_faults (ctx_of self.now) (is_statement call.now.place) call.now.in_mutable call.now.name call.now.count call.now.callee (actuals_of call.now)) }
    {
        let at = call.name.at;
        match call.callee {
            None => least.refuse(at, Reason::NoFunction),
            Some(callee) => {
                let allowed = is_allowed(call.place, call.in_mutable, callee.is_mutable());
                least.demand(allowed, at, Reason::Mutability);
                match callee {
                    Callee::BuiltIn { built_in } => least.want_actuals(
                        call,
                        signature_of(built_in).takes,
                    ),
                    Callee::Defined { function, .. } => least.want_actuals(
                        call,
                        function.formals_in(self.formals),
                    ),
                }
            }
        }
    }

    // The match stands in `note_call` too: a built-in's formals are types and a definition's are declarators, so no one
    // slice is both.
    fn do_actuals_fit(&self, call: &Call, callee: Callee) -> bool
        ensures { result ≡ all_fit (actuals_of call.now) (takes (ctx_of self.now) callee) }
    {
        match callee {
            Callee::BuiltIn { built_in } => all_fit(call.actuals(), signature_of(built_in).takes),
            Callee::Defined { function, .. } => all_fit(
                call.actuals(),
                function.formals_in(self.formals),
            ),
        }
    }

    // The type of a call inside an expression, if it has no fault.
    pub fn type_of_call(&self, call: &Call) -> Option<Type>
        ensures { result ≡ call_type (ctx_of self.now) call.now.in_mutable call.now.callee (actuals_of call.now) }
    {
        let callee = call.callee?;
        let allowed = is_allowed(CallPlace::Expression, call.in_mutable, callee.is_mutable());
        (allowed && self.do_actuals_fit(call, callee)).then_some(callee.gives())
    }

    // What is wrong with `main`.
    pub fn note_main(&self, least: &mut LeastFault)
        ensures { least.new.found ≡ noted least.old.found (main_faults (ctx_of self.now) (main_of (ctx_of self.now))) }
    {
        match find_named(self.source, self.functions, b"main") {
            None => least.refuse(self.source.len(), Reason::NoMain),
            Some((_, main)) => {
                let holds = is_one_int(main.formals_in(self.formals));
                least.demand(holds, main.head.name.at, Reason::NoMain);
            }
        }
    }
}
