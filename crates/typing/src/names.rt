// Names: what they mean.
ghost use Rattle.std.specs.Prelude.{◌≡◌, option_map, find};
ghost use Rattle.std.specs.List.{enumerate_from};
ghost use Rattle.script.specs.declared.types.Name.{Name};
ghost use Rattle.typing.specs.Names.{named, find_function, built_in_named, left_out, reserved, callee, look, taken};
ghost use Rattle.typing.specs.Faults.{slot_of};
ghost use Rattle.typing.specs.View.{ctx_of};

use crate::types::{Callee, Table, Variable};
use script::{BuiltIn, Declarator, Function, Name};

// What is declared under a name.
pub(crate) trait Named {
    ghost name_of: { Self → Name };

    fn name(&self) -> Name
        ensures { result ≡ name_of self.now };
}

impl Named for Declarator {
    ghost name_of = { λ declarator. declarator.name };

    fn name(&self) -> Name {
        self.name
    }
}

impl Named for Function {
    ghost name_of = { λ function. function.head.name };

    fn name(&self) -> Name {
        self.head.name
    }
}

fn is_named(source: &[u8], name: Name, text: &[u8]) -> bool
    ensures { result ≡ named source.now name text.now }
{
    name.spelling(source) == text
}

// The first item of that name, and its place.
pub(crate) fn find_named<'a, T: Named>(
    source: &[u8],
    items: &'a [T],
    text: &[u8],
) -> Option<(usize, &'a T)>
    ensures { option_map (λ p. (p.0, p.1.now)) result ≡ find (λ p. named source.now (T.name_of p.1) text.now) (enumerate_from 0 items.now) }
{
    items
        .iter()
        .enumerate()
        .find(|(_, item)| is_named(source, item.name(), text))
}

const BUILT_INS: [(&[u8], BuiltIn); 6] = [
    (b"left", BuiltIn::Left),
    (b"right", BuiltIn::Right),
    (b"isAtom", BuiltIn::IsAtom),
    (b"isNil", BuiltIn::IsNil),
    (b"setLeft", BuiltIn::SetLeft),
    (b"setRight", BuiltIn::SetRight),
];

fn built_in_named(text: &[u8]) -> Option<BuiltIn>
    ensures { result ≡ built_in_named text.now }
{
    BUILT_INS
        .iter()
        .find(|(name, _)| text == *name)
        .map(|(_, built_in)| *built_in)
}

// The names of the built-ins that are left out of the language.
const LEFT_OUT: [&[u8]; 3] = [b"acq", b"rel", b"randomInt"];

fn is_left_out(text: &[u8]) -> bool
    ensures { result ≡ left_out text.now }
{
    LEFT_OUT.contains(&text)
}

fn is_reserved(text: &[u8]) -> bool
    ensures { result ≡ reserved text.now }
{
    is_left_out(text) || built_in_named(text).is_some()
}

// The first function of that name.
fn find_function(source: &[u8], functions: &[Function], text: &[u8]) -> Option<Callee>
    ensures { result ≡ find_function source.now functions.now text.now 0 }
{
    find_named(source, functions, text).map(|(index, function)| Callee::Defined {
        index,
        function: *function,
    })
}

impl Table<'_> {
    // The variable that a name means where these are in view.
    pub fn find_variable(&self, variables: &[Declarator], name: Name) -> Option<Variable>
        ensures { result ≡ look (ctx_of self.now) variables.now name }
    {
        let text = name.spelling(self.source);
        find_named(self.source, variables, text).map(|(slot, declared)| Variable {
            slot,
            declared: *declared,
        })
    }

    // What a name means in a call.
    pub fn called(&self, name: Name) -> Option<Callee>
        ensures { result ≡ callee (ctx_of self.now) name }
    {
        let text = name.spelling(self.source);
        if is_left_out(text) {
            return None;
        }
        built_in_named(text)
            .map(|built_in| Callee::BuiltIn { built_in })
            .or_else(|| find_function(self.source, self.functions, text))
    }

    // Function `index` may not have this name.
    pub fn is_taken(&self, index: usize, name: Name) -> bool
        ensures { result ≡ taken (ctx_of self.now) index name }
    {
        let text = name.spelling(self.source);
        let before = self.functions.get(..index).unwrap_or(self.functions);
        is_reserved(text) || find_function(self.source, before, text).is_some()
    }
}

// 0 where there is none, as its promise has it: who must tell the two has the `Option` that is asked of.
pub fn slot_seen(variable: Option<Variable>) -> usize
    ensures { result ≡ slot_of variable }
{
    variable.map_or(0, |found| found.slot)
}
