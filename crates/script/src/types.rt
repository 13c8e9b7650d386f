// What the reader writes and the checker and the run go through.
ghost use Rattle.std.specs.Prelude.{◌≡◌, take, drop, Some};
ghost use Rattle.script.specs.Spelling.{spelled, type_text};

use std::fmt;

#[derive(Clone, Copy, Debug, PartialEq, Eq)]
pub enum Type {
    Int,
    Ref,
    Q,
}

impl Type {
    // The keyword that names the type. Beside `Display`, which is slow where bytes are written.
    pub fn text(self) -> &'static str
        ensures { result.now ≡ type_text self }
    {
        match self {
            Type::Int => "int",
            Type::Ref => "Ref",
            Type::Q => "Q",
        }
    }
}

impl fmt::Display for Type {
    ghost output = { λ ty. Some (type_text ty) };

    fn fmt<W: fmt::Write>(&self, f: &mut fmt::Formatter<W>) -> fmt::Result {
        f.write_str(self.text())
    }
}

// At most `len` items from `at` on.
fn part<T>(items: &[T], at: usize, len: usize) -> &[T]
    ensures { result.now ≡ take len (drop at items.now) }
{
    let rest = items.get(at..).unwrap_or(&[]);
    rest.get(..len).unwrap_or(rest)
}

// A name: the bytes of the source that spell it. A range and not a slice: a script owns its source, and a record cannot borrow from itself.
#[derive(Clone, Copy, Debug, PartialEq, Eq)]
pub struct Name {
    pub at: usize,
    pub len: usize,
}

impl Name {
    // The bytes of the source that spell the name, as far as the source has them.
    pub fn spelling(self, source: &[u8]) -> &[u8]
        ensures { result.now ≡ spelled source.now self }
    {
        part(source, self.at, self.len)
    }
}

// What a function, a formal or a variable is declared as.
#[derive(Clone, Copy, Debug, PartialEq, Eq)]
pub struct Declarator {
    pub mutable: bool,
    pub ty: Type,
    pub name: Name,
}

#[derive(Clone, Copy, Debug, PartialEq, Eq)]
pub enum Operator {
    Multiply,
    Add,
    Subtract,
    Dot,
}

#[derive(Clone, Copy, Debug, PartialEq, Eq)]
pub enum Comparison {
    LessEqual,
    GreaterEqual,
    Equal,
    NotEqual,
    Less,
    Greater,
}

// An entry of a script's flat code, which is run in place: so a part of a tree is not boxed, and is found by a skip. An offset stands for the node
// that begins there; a skip counts the entries that it passes.
#[derive(Clone, Copy, Debug, PartialEq, Eq)]
pub enum Node {
    Nil {
        at: usize,
    },
    Constant {
        at: usize,
        value: u64,
    },
    Variable {
        name: Name,
    },
    Begin {
        at: usize,
    },
    Negate {
        at: usize,
    },
    Cast {
        at: usize,
        to: Type,
    },
    Binary {
        at: usize,
        start: usize,
        operator: Operator,
    },
    Call {
        name: Name,
        actuals: usize,
    },
    Compare {
        comparison: Comparison,
    },
    Not,
    And {
        skip: usize,
    },
    Or {
        skip: usize,
    },
    Declare {
        declarator: Declarator,
    },
    Assign {
        name: Name,
    },
    CallStatement {
        name: Name,
        actuals: usize,
    },
    Free,
    Print,
    Return,
    BeginBlock {
        at: usize,
    },
    Then {
        skip: usize,
    },
    Else {
        skip: usize,
    },
    Loop {
        skip: usize,
    },
    Back {
        skip: usize,
    },
    EndScope,
    Enter {
        head: Declarator,
    },
    Formal {
        formal: Declarator,
    },
    Leave {
        at: usize,
    },
}

// A function of a script: its declaration, its formals as a range of the script's formals (a script cannot borrow from itself), where its
// statements begin in the flat code, and the offset of its closing brace.
#[derive(Clone, Copy, Debug, PartialEq, Eq)]
pub struct Function {
    pub head: Declarator,
    pub first: usize,
    pub formals: usize,
    pub entry: usize,
    pub close: usize,
}

impl Function {
    // The function's own formals among those of its script.
    pub fn formals_in(self, formals: &[Declarator]) -> &[Declarator]
        ensures { result.now ≡ take self.formals (drop self.first formals.now) }
    {
        part(formals, self.first, self.formals)
    }
}

#[derive(Clone, Copy, Debug, PartialEq, Eq)]
pub enum BuiltIn {
    Left,
    Right,
    IsAtom,
    IsNil,
    SetLeft,
    SetRight,
}

// An entry of a checked script's code, run in place as it is: entry for entry the flat code, with its names resolved. A slot counts from the bottom of the call's values, a
// function is the index of its definition. `Heading` stands for a function's declaration and its formals; it is never run, and nor is `Leave`.
#[derive(Clone, Copy, Debug)]
pub enum Instr {
    Nil {
        at: usize,
    },
    Constant {
        at: usize,
        value: i64,
    },
    Variable {
        at: usize,
        slot: usize,
    },
    Begin {
        at: usize,
    },
    Negate,
    Cast {
        at: usize,
        to: Type,
    },
    Binary {
        at: usize,
        operator: Operator,
    },
    Call {
        at: usize,
        function: usize,
        actuals: usize,
    },
    CallBuiltIn {
        at: usize,
        built_in: BuiltIn,
    },
    Compare {
        comparison: Comparison,
    },
    Not,
    SkipUnless {
        skip: usize,
    },
    SkipIf {
        skip: usize,
    },
    Skip {
        skip: usize,
    },
    Back {
        skip: usize,
    },
    Declare,
    Assign {
        at: usize,
        slot: usize,
    },
    CallStatement {
        at: usize,
        function: usize,
        actuals: usize,
    },
    BuiltInStatement {
        at: usize,
        built_in: BuiltIn,
    },
    Free {
        at: usize,
    },
    Print {
        at: usize,
    },
    Return {
        at: usize,
    },
    EndScope {
        at: usize,
        drops: usize,
    },
    Heading,
    Leave,
}
