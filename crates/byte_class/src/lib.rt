// The class of a byte: by a table of 256 entries, which the lexer looks up, and by the formula that the table follows.
#![tactic(auto)]

ghost use Rattle.std.specs.Prelude.{◌≡◌};
ghost use Rattle.byte_class.specs.Classes.{class_of};

use Class::{
    Ampersand, Bang, Blank, Comma, Digit, Dot, Equals, Greater, LeftBrace, LeftParen, Less, Letter,
    Minus, Other, Pipe, Plus, RightBrace, RightParen, Semicolon, Slash, Star,
};

#[derive(Clone, Copy, Debug, PartialEq, Eq)]
pub enum Class {
    Letter,
    Digit,
    Blank,
    LeftParen,
    RightParen,
    LeftBrace,
    RightBrace,
    Comma,
    Semicolon,
    Equals,
    Plus,
    Minus,
    Star,
    Dot,
    Less,
    Greater,
    Bang,
    Ampersand,
    Pipe,
    Slash,
    Other,
}

// The class of each byte. A static, since a const would be built anew wherever it is read.
static CLASSES: [Class; 256] = [
    Other, Other, Other, Other, Other, Other, Other, Other, Other, Blank, Blank, Other, Other,
    Blank, Other, Other, Other, Other, Other, Other, Other, Other, Other, Other, Other, Other,
    Other, Other, Other, Other, Other, Other, Blank, Bang, Other, Other, Other, Other, Ampersand,
    Other, LeftParen, RightParen, Star, Plus, Comma, Minus, Dot, Slash, Digit, Digit, Digit, Digit,
    Digit, Digit, Digit, Digit, Digit, Digit, Other, Semicolon, Less, Equals, Greater, Other,
    Other, Letter, Letter, Letter, Letter, Letter, Letter, Letter, Letter, Letter, Letter, Letter,
    Letter, Letter, Letter, Letter, Letter, Letter, Letter, Letter, Letter, Letter, Letter, Letter,
    Letter, Letter, Letter, Other, Other, Other, Other, Letter, Other, Letter, Letter, Letter,
    Letter, Letter, Letter, Letter, Letter, Letter, Letter, Letter, Letter, Letter, Letter, Letter,
    Letter, Letter, Letter, Letter, Letter, Letter, Letter, Letter, Letter, Letter, Letter,
    LeftBrace, Pipe, RightBrace, Other, Other, Other, Other, Other, Other, Other, Other, Other,
    Other, Other, Other, Other, Other, Other, Other, Other, Other, Other, Other, Other, Other,
    Other, Other, Other, Other, Other, Other, Other, Other, Other, Other, Other, Other, Other,
    Other, Other, Other, Other, Other, Other, Other, Other, Other, Other, Other, Other, Other,
    Other, Other, Other, Other, Other, Other, Other, Other, Other, Other, Other, Other, Other,
    Other, Other, Other, Other, Other, Other, Other, Other, Other, Other, Other, Other, Other,
    Other, Other, Other, Other, Other, Other, Other, Other, Other, Other, Other, Other, Other,
    Other, Other, Other, Other, Other, Other, Other, Other, Other, Other, Other, Other, Other,
    Other, Other, Other, Other, Other, Other, Other, Other, Other, Other, Other, Other, Other,
    Other, Other, Other, Other, Other, Other, Other, Other, Other, Other, Other, Other, Other,
    Other, Other, Other, Other,
];

// The class of a byte, by the formula.
pub fn class_by_formula(b: u8) -> Class
    ensures { result ≡ class_of b }
{
    match char::from(b) {
        'A'..='Z' | 'a'..='z' | '_' => Class::Letter,
        '0'..='9' => Class::Digit,
        '\t' | '\n' | '\r' | ' ' => Class::Blank,
        '(' => Class::LeftParen,
        ')' => Class::RightParen,
        '{' => Class::LeftBrace,
        '}' => Class::RightBrace,
        ',' => Class::Comma,
        ';' => Class::Semicolon,
        '=' => Class::Equals,
        '+' => Class::Plus,
        '-' => Class::Minus,
        '*' => Class::Star,
        '.' => Class::Dot,
        '<' => Class::Less,
        '>' => Class::Greater,
        '!' => Class::Bang,
        '&' => Class::Ampersand,
        '|' => Class::Pipe,
        '/' => Class::Slash,
        _ => Class::Other,
    }
}

// The class of a byte, by the table.
pub fn class_at(b: u8) -> Class
    ensures { result ≡ class_of b }
{
    CLASSES[b as usize]
}
