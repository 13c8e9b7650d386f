// Each source of a table is read, and what comes of it is compared as text: the words of its flat code in order, or the refusal.
use reader::{ReadRefusal, ReadScript};
use script::{Comparison, Name, Node, Operator};
use std::alloc::{AllocError, Global};
use std::test::Fail;
use text_check::check_text;

// The words of operators, comparisons and nodes here are the tests' own, beside what they expect.
fn operator_text(operator: Operator) -> &'static str {
    match operator {
        Operator::Multiply => "*",
        Operator::Add => "+",
        Operator::Subtract => "-",
        Operator::Dot => ".",
    }
}

fn comparison_text(comparison: Comparison) -> &'static str {
    match comparison {
        Comparison::LessEqual => "<=",
        Comparison::GreaterEqual => ">=",
        Comparison::Equal => "==",
        Comparison::NotEqual => "!=",
        Comparison::Less => "<",
        Comparison::Greater => ">",
    }
}

fn spelling(source: &[u8], name: Name) -> &str {
    let bytes = name.spelling(source);
    if bytes.len() < name.len {
        return "?";
    }
    std::str::from_utf8(bytes).unwrap_or("?")
}

fn statement_text(node: Node) -> &'static str {
    match node {
        Node::Declare { .. } => "declare",
        Node::Assign { .. } => "assign",
        Node::CallStatement { .. } => "do",
        Node::Free => "free",
        Node::Print => "print",
        Node::Return => "return",
        Node::BeginBlock { .. } => "{",
        Node::Then { .. } => "then",
        Node::Else { .. } => "else",
        Node::Loop { .. } => "loop",
        Node::Back { .. } => "back",
        Node::EndScope => "}",
        _ => "",
    }
}

fn node_text<'a>(source: &'a [u8], node: Node) -> &'a str {
    match node {
        Node::Nil { .. } => "nil",
        Node::Constant { .. } => "n",
        Node::Variable { name } => spelling(source, name),
        Node::Negate { .. } => "neg",
        Node::Cast { .. } => "cast",
        Node::Binary { operator, .. } => operator_text(operator),
        Node::Call { name, .. } => spelling(source, name),
        Node::Compare { comparison } => comparison_text(comparison),
        Node::Not => "!",
        Node::And { .. } => "&&",
        Node::Or { .. } => "||",
        _ => statement_text(node),
    }
}

fn code_text(heap: Global, script: &ReadScript) -> Result<String, AllocError> {
    let mut text = String::new(heap);
    for node in script.nodes() {
        let word = node_text(script.source(), *node);
        if !word.is_empty() {
            if !text.is_empty() {
                text.push_str(" ")?;
            }
            text.push_str(word)?;
        }
    }
    Ok(text)
}

fn refusal_text(heap: Global, refusal: ReadRefusal) -> Result<String, AllocError> {
    let number = refusal.number();
    let at = refusal.at;
    format!(in heap; "{number} at {at}")
}

// What a source is read as; without its words where they would be too many.
fn read_text(heap: Global, source: &[u8], in_words: bool) -> Result<String, AllocError> {
    let mut script = ReadScript::new(heap)?;
    match script.read(source) {
        Ok(()) if in_words => code_text(heap, &script),
        Ok(()) => String::from_str(heap, "read"),
        Err(refusal) => refusal_text(heap, refusal),
    }
}

// The tests of tokens have these two lines over another text: what both share is a library, `check_text`. A source, its
// text and its label stay parameters: rows are not all built alike.
fn check_read(heap: Global, source: &[u8], words: &str, what: &str) -> Result<(), Fail> {
    let text = read_text(heap, source, true)?;
    check_text(text.as_str(), words, what)
}

// Each row is a part of a source, between the same front and back.
fn check_rows(heap: Global, front: &str, rows: &[(&str, &str)], back: &str) -> Result<(), Fail> {
    for (part, words) in rows {
        let source = format!(in heap; "{front}{part}{back}")?;
        let what = format!(in heap; "the source is {source:?}")?;
        check_read(heap, source.as_bytes(), words, &what)?;
    }
    Ok(())
}

// Each row is a body, so that it begins at offset 18.
fn check_bodies(heap: Global, rows: &[(&str, &str)]) -> Result<(), Fail> {
    check_rows(heap, "int main(int a) { ", rows, " }")
}

const EXPRESSIONS: [(&str, &str); 12] = [
    ("return a . b + c;", "a b c + . return"),
    ("return - a * b;", "a neg b * return"),
    ("return (int) - a . b;", "a neg cast b . return"),
    ("return 1 - 2 - 3;", "n n - n - return"),
    ("return 1.2.3;", "n n . n . return"),
    ("return 1 - (2 - 3);", "n n n - - return"),
    ("return a + 2 * 3;", "a n n * + return"),
    ("return ((a));", "a return"),
    (
        "return f(a, g(), nil) + a--1;",
        "a g nil f a + n neg - return",
    ),
    ("return (Q) (Ref) nil;", "nil cast cast return"),
    ("return (a) + (b);", "a b + return"),
    ("return -(a . b);", "a b . neg return"),
];

const CONDITIONS: [(&str, &str); 12] = [
    (
        "if (! a < b && c < d) return 1;",
        "a b < ! && c d < then n return }",
    ),
    ("if (((a)) < (b)) return 1;", "a b < then n return }"),
    ("if (((a < b))) return 1;", "a b < then n return }"),
    (
        "if (a <= b || a >= b && a == b) return 1;",
        "a b <= || a b >= && a b == then n return }",
    ),
    (
        "if ((a <= b || a != b) && a > b) return 1;",
        "a b <= || a b != && a b > then n return }",
    ),
    (
        "if ((a + 1) * 2 < 3) return 1;",
        "a n + n * n < then n return }",
    ),
    ("while (!(a < b)) { }", "a b < ! loop { } } back"),
    ("if (!!a < b) return 1;", "a b < ! ! then n return }"),
    ("if ((a) < f((b))) return 1;", "a b f < then n return }"),
    ("if ((int) a < b) return 1;", "a cast b < then n return }"),
    ("if (((int) a) < b) return 1;", "a cast b < then n return }"),
    (
        "if ((a . b) == (c)) return 1;",
        "a b . c == then n return }",
    ),
];

const STATEMENTS: [(&str, &str); 10] = [
    (
        "mutable Q b = nil; b = a; f(a, b); f(); free b; print b;",
        "nil declare a assign a b do do b free b print",
    ),
    (
        "if (a < 1) if (a < 2) return 1; else return 2;",
        "a n < then a n < then n return } else n return } }",
    ),
    (
        "if (a < 1) { if (a < 2) return 1; } else return 2;",
        "a n < then { a n < then n return } } } else n return }",
    ),
    (
        "if (a < 1) return 1; else if (a < 2) return 2; else return 3;",
        "a n < then n return } else a n < then n return } else n return } }",
    ),
    (
        "while (a < 1) if (a < 2) a = 1; else a = 2;",
        "a n < loop a n < then n assign } else n assign } } back",
    ),
    ("{ { } } { int b = 1; }", "{ { } } { n declare }"),
    (
        "int b = 1; Ref c = nil; Q d = a;",
        "n declare nil declare a declare",
    ),
    ("if (a < 1) int b = 1;", "a n < then n declare }"),
    ("return 1; return 2;", "n return n return"),
    ("", ""),
];

#[test]
fn readings(rt: HostRuntime) -> Result<(), Fail> {
    let heap = rt.alloc();
    check_bodies(heap, &EXPRESSIONS)?;
    check_bodies(heap, &CONDITIONS)?;
    check_bodies(heap, &STATEMENTS)
}

const WRONG: [(&str, &str); 16] = [
    ("if ((a < b) < c) return 1;", "4 at 30"),
    ("if ((a) ) return 1;", "4 at 26"),
    ("if ((!a)) return 1;", "4 at 25"),
    ("if (a) return 1;", "4 at 23"),
    ("if ((a + b ;", "4 at 29"),
    ("if ((a < b) + 1 < c) return 1;", "4 at 30"),
    ("return (a < 1);", "4 at 28"),
    ("return a &&& 1;", "4 at 27"),
    ("if (a == 0 &&& a == 1) return 1;", "2 at 31"),
    ("return 9223372036854775808;", "3 at 25"),
    ("return [a];", "2 at 25"),
    ("return 1int;", "4 at 26"),
    ("/*/ return a;", "2 at 18"),
    ("else return 1;", "4 at 18"),
    ("int 1 = 2;", "4 at 22"),
    ("f(a,);", "4 at 22"),
];

const SOURCES: [(&str, &str); 22] = [
    ("", ""),
    (" \t\n/* a */", ""),
    ("@", "2 at 0"),
    ("&&&", "4 at 0"),
    ("99999999999999999999", "3 at 0"),
    ("int", "4 at 3"),
    ("int main", "4 at 8"),
    ("int main(", "4 at 9"),
    ("int main(int", "4 at 12"),
    ("int main(int a", "4 at 14"),
    ("int main(int a)", "4 at 15"),
    ("int main(int a) {", "4 at 17"),
    ("int main(int a) { return", "4 at 24"),
    ("int main(int a) { return a", "4 at 26"),
    ("int main(int a) { return a;", "4 at 27"),
    ("int main(int a) { return a; }", "a return"),
    ("int main(int a) { return a; } /* x", "2 at 30"),
    ("int main(int a) { return a; } ;", "4 at 30"),
    ("int f(a) { }", "4 at 6"),
    ("int f(int a, ) { }", "4 at 13"),
    ("mutable f() { }", "4 at 8"),
    ("int f() { } mutable Q g(mutable Ref a, int b) { }", ""),
];

#[test]
fn refusals(rt: HostRuntime) -> Result<(), Fail> {
    let heap = rt.alloc();
    check_bodies(heap, &WRONG)?;
    check_rows(heap, "", &SOURCES, "")?;
    check_read(heap, b"int f() { \xff", "2 at 10", "a byte above 127")
}

// How often the front and the back stand, the front, what is between them, the back, and what comes of it.
type Nested<'a> = (usize, &'a str, &'a str, &'a str, &'a str);

// Each row is a body between the same begin and end.
fn check_nested(heap: Global, begin: &str, rows: &[Nested], end: &str) -> Result<(), Fail> {
    for (count, front, middle, back, verdict) in rows {
        let fronts = front.repeat(heap, *count)?;
        let backs = back.repeat(heap, *count)?;
        let source = format!(in heap; "int main(int a) {{ {begin}{fronts}{middle}{backs} {end}")?;
        let what = format!(in heap; "{count} times {front:?} and {middle:?}")?;
        let text = read_text(heap, source.as_bytes(), false)?;
        check_text(text.as_str(), verdict, &what)?;
    }
    Ok(())
}

#[test]
fn limits(rt: HostRuntime) -> Result<(), Fail> {
    let heap = rt.alloc();
    let rows = [
        (64, "{", "", "}", "read"),
        (63, "{", "return a;", "}", "read"),
        (64, "{", "return a;", "}", "5 at 82"),
        (63, "if (a < 1) ", "return a;", "", "read"),
        (64, "if (a < 1) ", "return a;", "", "5 at 715"),
        (63, "while (a < 1) ", "return a;", "", "read"),
        (64, "while (a < 1) ", "return a;", "", "5 at 907"),
        (63, "if (a < 1) a = 1; else ", "return a;", "", "read"),
        (64, "if (a < 1) a = 1; else ", "return a;", "", "5 at 1471"),
        (32, "{ while (a < 1) ", "return a;", "}", "5 at 523"),
        (1018, "{ } ", "return a;", "", "read"),
        (1019, "{ } ", "return a;", "", "6 at 4104"),
        (1019, "{ } ", "return a @", "", "2 at 4103"),
        (1020, "{ } ", "return a;", "", "6 at 4105"),
        (1019, "{ } ", "return a; +", "", "4 at 4104"),
        (1020, "{ } ", "return 9223372036854775808;", "", "3 at 4105"),
        (
            988,
            "{ } ",
            "return ((((((((((((((((((((((((((((((((((((((((((((((((((((((((((((((((a",
            "",
            "5 at 4041",
        ),
    ];
    check_nested(heap, "", &rows, "}")?;
    let long = vec![in heap; b' '; 8193]?;
    check_read(heap, &long, "1 at 8192", "8,193 blanks")?;
    check_read(heap, &long[0..8192], "", "8,192 blanks")
}

// Parentheses, prefixes, casts and calls inside a return.
#[test]
fn deep_expressions(rt: HostRuntime) -> Result<(), Fail> {
    let heap = rt.alloc();
    let rows = [
        (63, "(", "a", ")", "read"),
        (64, "(", "a", ")", "5 at 89"),
        (63, "-", "a", "", "read"),
        (64, "-", "a", "", "5 at 89"),
        (63, "(int)", "a", "", "read"),
        (64, "(int)", "a", "", "5 at 345"),
        (63, "f(", "a", ")", "read"),
        (64, "f(", "a", ")", "5 at 153"),
        (32, "-(", "a", ")", "5 at 89"),
        (31, "(int)(", "a", ")", "read"),
    ];
    check_nested(heap, "return ", &rows, ";}")
}

// Negations and parentheses inside a condition, whose own parenthesis counts too.
#[test]
fn deep_conditions(rt: HostRuntime) -> Result<(), Fail> {
    let heap = rt.alloc();
    let rows = [
        (62, "!", "a < 1) return 1;", "", "read"),
        (63, "!", "a < 1) return 1;", "", "5 at 85"),
        (62, "(", "a < 1", ")", "4 at 152"),
        (63, "(", "a < 1", ")", "5 at 85"),
    ];
    check_nested(heap, "if (", &rows, "}")
}

// A refused read leaves the script of an empty source.
#[test]
fn refusal_empties(rt: HostRuntime) -> Result<(), Fail> {
    let heap = rt.alloc();
    let mut script = ReadScript::new(heap)?;
    assert!(rt; script.read(b"int main(int a) { return a; }").is_ok());
    assert_eq!(rt; script.functions().len(), 1);
    assert_eq!(rt; script.formals().len(), 1);
    assert!(rt; script.read(b"int main(int a) { return }").is_err());
    assert_eq!(rt; script.source().len(), 0);
    assert_eq!(rt; script.nodes().len(), 0);
    assert_eq!(rt; script.functions().len(), 0);
    assert_eq!(rt; script.formals().len(), 0);
    Ok(())
}
