// Each source of a table is lexed, and what its items are is compared as text: kind, spelling and offset of each.
use byte_class::{class_at, class_by_formula};
use position::{Position, position_of};
use refusal_line::refusal_line;
use std::alloc::{AllocError, Global};
use std::test::Fail;
use text_check::check_text;
use tokens::{Keyword, Lexer, Mark, Placed, Token, TokenList, Trouble};

// The words of troubles and items here are the tests' own, beside what they expect.
fn trouble_text(trouble: Trouble) -> &'static str {
    match trouble {
        Trouble::NoToken => "no token",
        Trouble::OpenComment => "open comment",
        Trouble::LargeConstant => "large constant",
    }
}

// The bytes of a token are ASCII, so that the replacement is never seen.
fn spelled(bytes: &[u8]) -> &str {
    std::str::from_utf8(bytes).unwrap_or("?")
}

fn labelled(heap: Global, kind: &str, word: &str, at: usize) -> Result<String, AllocError> {
    format!(in heap; "{kind}{word} at {at}")
}

fn item_text(heap: Global, placed: Placed) -> Result<String, AllocError> {
    let at = placed.at;
    match placed.token {
        Token::Name(name) => labelled(heap, "name ", spelled(name), at),
        Token::Constant(n) => format!(in heap; "constant {n} at {at}"),
        Token::Keyword(keyword) => labelled(heap, "keyword ", spelled(keyword.text()), at),
        Token::Mark(mark) => labelled(heap, "mark ", spelled(mark.text()), at),
        Token::End => format!(in heap; "end at {at}"),
        Token::Trouble(trouble) => labelled(heap, trouble_text(trouble), "", at),
    }
}

fn items_text(heap: Global, source: &[u8]) -> Result<String, AllocError> {
    let mut list = TokenList::new(heap)?;
    list.fill(source);
    let mut text = String::new(heap);
    for placed in list.items() {
        if !text.is_empty() {
            text.push_str(", ")?;
        }
        text.push_str(&item_text(heap, *placed)?)?;
    }
    Ok(text)
}

// The tests of reading have these two lines over another text: what both share is a library, `check_text`. A source, its
// items and its label stay parameters: rows are not all built alike.
fn check_items(heap: Global, source: &[u8], items: &str, what: &str) -> Result<(), Fail> {
    let text = items_text(heap, source)?;
    check_text(text.as_str(), items, what)
}

fn check_rows(heap: Global, rows: &[(&str, &str)]) -> Result<(), Fail> {
    for (source, items) in rows {
        let what = format!(in heap; "the source is {source:?}")?;
        check_items(heap, source.as_bytes(), items, &what)?;
    }
    Ok(())
}

// Each word of the list is one token of the kind.
fn check_alone(heap: Global, kind: &str, words: &str) -> Result<(), Fail> {
    for word in words.split_whitespace() {
        let end = word.len();
        let items = format!(in heap; "{kind} {word} at 0, end at {end}")?;
        check_items(heap, word.as_bytes(), &items, word)?;
    }
    Ok(())
}

#[test]
fn table_follows_the_formula(rt: HostRuntime) {
    for b in 0..=255u8 {
        assert_eq!(rt; class_at(b), class_by_formula(b), "the byte {b}");
    }
}

const KEYWORDS: &str = "mutable int Ref Q if else while free print return nil";

const NAMES: &str = "int1 Refs Q1 _ q INT _0 main";

const MARKS: &str = "( ) { } , ; = + - * . < > <= >= == != ! && ||";

#[test]
fn words_and_marks(rt: HostRuntime) -> Result<(), Fail> {
    let heap = rt.alloc();
    check_alone(heap, "keyword", KEYWORDS)?;
    check_alone(heap, "name", NAMES)?;
    check_alone(heap, "mark", MARKS)
}

const LONGEST: [(&str, &str); 12] = [
    ("a<=b", "name a at 0, mark <= at 1, name b at 3, end at 4"),
    (
        "a< =b",
        "name a at 0, mark < at 1, mark = at 3, name b at 4, end at 5",
    ),
    (
        "a===b",
        "name a at 0, mark == at 1, mark = at 3, name b at 4, end at 5",
    ),
    (
        "a--1",
        "name a at 0, mark - at 1, mark - at 2, constant 1 at 3, end at 4",
    ),
    ("1int", "constant 1 at 0, keyword int at 1, end at 4"),
    ("< =", "mark < at 0, mark = at 2, end at 3"),
    ("> =", "mark > at 0, mark = at 2, end at 3"),
    ("= =", "mark = at 0, mark = at 2, end at 3"),
    ("! =", "mark ! at 0, mark = at 2, end at 3"),
    ("& &", "no token at 0"),
    ("| |", "no token at 0"),
    ("&&&", "mark && at 0, no token at 2"),
];

#[test]
fn longest_token(rt: HostRuntime) -> Result<(), Fail> {
    check_rows(rt.alloc(), &LONGEST)
}

const GAPS: [(&str, &str); 15] = [
    ("", "end at 0"),
    (" \t\r\n", "end at 4"),
    ("/**/", "end at 4"),
    ("/*/ x", "open comment at 0"),
    ("a /*", "name a at 0, open comment at 2"),
    ("/* * / */", "end at 9"),
    ("/* a */ b", "name b at 8, end at 9"),
    ("/***/ x", "name x at 6, end at 7"),
    ("/* /* */ */", "mark * at 9, no token at 10"),
    ("&", "no token at 0"),
    ("|", "no token at 0"),
    ("a/b", "name a at 0, no token at 1"),
    ("/", "no token at 0"),
    ("%", "no token at 0"),
    ("\0", "no token at 0"),
];

#[test]
fn gaps_and_other_bytes(rt: HostRuntime) -> Result<(), Fail> {
    let heap = rt.alloc();
    check_items(heap, b"\xff", "no token at 0", "the byte 255")?;
    check_items(
        heap,
        b"/*\x00\xff*/a",
        "name a at 6, end at 7",
        "any byte in a comment",
    )?;
    check_rows(heap, &GAPS)
}

const CONSTANTS: [(&str, &str); 11] = [
    ("0", "constant 0 at 0, end at 1"),
    ("000", "constant 0 at 0, end at 3"),
    ("007", "constant 7 at 0, end at 3"),
    (
        "9223372036854775807",
        "constant 9223372036854775807 at 0, end at 19",
    ),
    (
        "0009223372036854775807",
        "constant 9223372036854775807 at 0, end at 22",
    ),
    (
        "000000000000000000000000000007",
        "constant 7 at 0, end at 30",
    ),
    ("9223372036854775808", "large constant at 0"),
    ("0009223372036854775808", "large constant at 0"),
    ("18446744073709551617", "large constant at 0"),
    ("123456789012345678901234567890", "large constant at 0"),
    (
        "1 9223372036854775808",
        "constant 1 at 0, large constant at 2",
    ),
];

#[test]
fn constants(rt: HostRuntime) -> Result<(), Fail> {
    check_rows(rt.alloc(), &CONSTANTS)
}

// So many semicolons and then the tail.
fn semicolons(heap: Global, count: usize, tail: &str) -> Result<Vec<u8>, AllocError> {
    let mut source = vec![in heap; b';'; count]?;
    source.extend_from_slice(tail.as_bytes())?;
    Ok(source)
}

fn check_last(
    heap: Global,
    source: &[u8],
    count: usize,
    last: &str,
    what: &str,
) -> Result<(), Fail> {
    let mut list = TokenList::new(heap)?;
    list.fill(b"what the list had before");
    list.fill(source);
    let items = list.items();
    let found = items.len();
    if found != count {
        return Err(Fail::new(format_args!("{what}: {found} items, not {count}")));
    }
    let placed = items.last().ok_or("the list is empty")?;
    let text = item_text(heap, *placed)?;
    check_text(text.as_str(), last, what)
}

#[test]
fn limits(rt: HostRuntime) -> Result<(), Fail> {
    let heap = rt.alloc();
    let blanks = vec![in heap; b' '; 8192]?;
    check_items(heap, &blanks, "end at 8192", "blanks alone")?;
    let rows = [
        (2047, "", 2048, "end at 2047"),
        (2048, "", 2049, "end at 2048"),
        (2048, "@", 2049, "no token at 2048"),
        (2049, "", 2049, "mark ; at 2048"),
        (2049, "@", 2049, "mark ; at 2048"),
        (8192, "", 2049, "mark ; at 2048"),
    ];
    for (marks, tail, count, last) in rows {
        let source = semicolons(heap, marks, tail)?;
        let what = format!(in heap; "{marks} marks and then '{tail}'")?;
        check_last(heap, &source, count, last, &what)?;
    }
    Ok(())
}

fn check_next(heap: Global, lexer: &mut Lexer, item: &str, is_last: bool) -> Result<(), Fail> {
    let placed = lexer.next_token();
    let text = item_text(heap, placed)?;
    check_text(text.as_str(), item, "the next token")?;
    if placed.token.is_last() == is_last {
        return Ok(());
    }
    Err(Fail::new(format_args!("{item}: last where it should not be, or the reverse")))
}

#[test]
fn last_item_stays(rt: HostRuntime) -> Result<(), Fail> {
    let heap = rt.alloc();
    let rows = [
        ("a", "end at 1"),
        ("a @", "no token at 2"),
        ("a /*", "open comment at 2"),
        ("a 9223372036854775808", "large constant at 2"),
    ];
    for (source, last) in rows {
        let mut lexer = Lexer::new(source.as_bytes());
        check_next(heap, &mut lexer, "name a at 0", false)?;
        check_next(heap, &mut lexer, last, true)?;
        check_next(heap, &mut lexer, last, true)?;
    }
    assert_eq!(rt; Trouble::NoToken.number(), 2);
    assert_eq!(rt; Trouble::OpenComment.number(), 2);
    assert_eq!(rt; Trouble::LargeConstant.number(), 3);
    Ok(())
}

#[test]
fn positions(rt: HostRuntime) {
    let rows = [
        ("", 0, 1, 1),
        ("", 7, 1, 1),
        ("ab\ncd", 0, 1, 1),
        ("ab\ncd", 2, 1, 3),
        ("ab\ncd", 3, 2, 1),
        ("ab\ncd", 5, 2, 3),
        ("ab\ncd", 99, 2, 3),
        ("a\r\nb", 2, 1, 3),
        ("a\r\nb", 3, 2, 1),
        ("\n\n", 1, 2, 1),
        ("\n\n", 2, 3, 1),
    ];
    for (source, offset, line, column) in rows {
        assert_eq!(rt;
            position_of(source.as_bytes(), offset),
            Position { line, column },
            "offset {offset} of {source:?}"
        );
    }
}

#[test]
fn lines_of_refusals(rt: HostRuntime) -> Result<(), Fail> {
    let heap = rt.alloc();
    let rows = [
        (
            "ab\ncd @",
            6,
            Trouble::NoToken,
            "2:4: refused with 2 at offset 6: no token begins with this byte\n",
        ),
        (
            "a /*",
            2,
            Trouble::OpenComment,
            "1:3: refused with 2 at offset 2: this comment is never closed\n",
        ),
        (
            "9223372036854775808",
            0,
            Trouble::LargeConstant,
            "1:1: refused with 3 at offset 0: this constant is above 9223372036854775807\n",
        ),
    ];
    for (source, at, trouble, expected) in rows {
        let words = format!(in heap; "{trouble}")?;
        check_text(words.as_str(), trouble.words(), "a trouble that is shown")?;
        let line = refusal_line(
            heap,
            source.as_bytes(),
            trouble.number(),
            at,
            words.as_str(),
        )?;
        check_text(line.as_str(), expected, source)?;
    }
    Ok(())
}

#[test]
fn marks_are_told_apart(rt: HostRuntime) {
    let less = Token::Mark(Mark::Less);
    assert!(rt; less.is_mark(Mark::Less));
    assert!(rt; !less.is_mark(Mark::LessEqual));
    assert!(rt; !Token::Keyword(Keyword::If).is_mark(Mark::Less));
    assert!(rt; !Token::End.is_mark(Mark::Less));
}
