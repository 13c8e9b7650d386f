// What the static rules speak of.
use script::{BuiltIn, Declarator, Function, Name, Type};

// A variable in view: its place from the bottom of the call's values, and how it was declared.
#[derive(Clone, Copy)]
pub struct Variable {
    pub slot: usize,
    pub declared: Declarator,
}

// What a name means in a call.
#[derive(Clone, Copy)]
pub enum Callee {
    BuiltIn { built_in: BuiltIn },
    Defined { index: usize, function: Function },
}

// An expression that was gone through: its type, or none where a fault lies inside it, and its first byte.
#[derive(Clone, Copy)]
pub struct Operand {
    pub ty: Option<Type>,
    pub start: usize,
}

// How a call stands in a script: inside an expression, or as a statement.
#[derive(Clone, Copy, Debug, PartialEq, Eq)]
pub enum CallPlace {
    Expression,
    Statement,
}

// A call whose actuals were gone through: they are the last `count` of the operands. `in_mutable`: it stands in a
// mutable function. A count and no slice of the actuals: it may be above the number of operands, and such a call is
// judged too.
#[derive(Clone, Copy)]
pub struct Call<'o> {
    pub name: Name,
    pub callee: Option<Callee>,
    pub place: CallPlace,
    pub in_mutable: bool,
    pub count: usize,
    pub operands: &'o [Operand],
}

// What is wanted of an expression: that it fits a type, or that it can be cast to one.
#[derive(Clone, Copy)]
pub enum Want {
    Fit { ty: Type },
    Cast { to: Type },
}

// Why a script does not pass, each with its number.
#[derive(Clone, Copy, Debug, PartialEq, Eq, PartialOrd, Ord)]
pub enum Reason {
    NameTaken = 10,
    NoMain = 11,
    TooMany = 12,
    InView = 13,
    NotInView = 14,
    NoFunction = 15,
    WrongCount = 16,
    Unfit = 17,
    Immutable = 18,
    Mutability = 19,
    NoReturn = 20,
}

// A fault. The one that comes first is the lesser one.
#[derive(Clone, Copy, Debug, PartialEq, Eq, PartialOrd, Ord)]
pub struct CheckRefusal {
    pub at: usize,
    pub reason: Reason,
}

// The least fault that was found so far.
#[derive(Clone, Copy, Debug, Default, PartialEq, Eq)]
pub struct LeastFault {
    pub found: Option<CheckRefusal>,
}

// A source and the table of its functions, their formals one after the other. No `impl Model`: with a lifetime it could
// not be `Copy`.
#[derive(Clone, Copy)]
pub struct Table<'s> {
    pub source: &'s [u8],
    pub functions: &'s [Function],
    pub formals: &'s [Declarator],
}
