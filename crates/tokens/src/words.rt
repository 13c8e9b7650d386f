// The parts of a token that are longer than a mark: words, constants, and the comments between tokens.
ghost use Rattle.std.specs.Prelude.{◌≡◌, ℕ, ◌+◌, ◌<◌, ◌↔◌, [], ◌∷◌, IsTrue, IfSome, IfNone, codes, find};
ghost use Rattle.std.specs.Str.{bytes_eq};
ghost use Rattle.byte_class.specs.Classes.{digit};
ghost use Rattle.tokens.specs.Spelling.{keyword_text, wordy};
ghost use Rattle.tokens.specs.Scan.{ClosesAt, keyword_of, value_of};

use crate::types::Keyword;
use byte_class::{Class, class_at};

const LARGEST: u128 = 9223372036854775807;

pub(crate) fn is_word_byte(b: u8) -> bool
    ensures { result ≡ wordy b }
{
    matches!(class_at(b), Class::Letter | Class::Digit)
}

pub(crate) fn is_digit(b: u8) -> bool
    ensures { result ≡ digit b }
{
    matches!(class_at(b), Class::Digit)
}

fn is_closing(pair: &[u8]) -> bool
    ensures { IsTrue result ↔ (pair.now ≡ codes "*/") }
{
    pair == b"*/".as_slice()
}

// How many bytes of a comment that was opened stand before its first closing.
pub(crate) fn body_len(text: &[u8]) -> Option<usize>
    ensures some { IfSome result (λ n. ClosesAt text.now n × ((k : ℕ) → k < n → ¬ ClosesAt text.now k)) }
    ensures none { IfNone result ((k : ℕ) → ¬ ClosesAt text.now k) }
{
    text.windows(2).position(|pair| is_closing(pair))
}

// The keyword, if the word spells it.
fn spelled(keyword: Keyword, word: &[u8]) -> Option<Keyword>
    ensures { result ≡ find (λ k. bytes_eq word.now (keyword_text k)) (keyword ∷ []) }
{
    (keyword.text() == word).then_some(keyword)
}

// The keyword that is spelled so, if one is. By the length first: so a name is compared with three keywords at most.
pub(crate) fn keyword_of(word: &[u8]) -> Option<Keyword>
    ensures { result ≡ keyword_of word.now }
{
    match word.len() {
        1 => spelled(Keyword::Q, word),
        2 => spelled(Keyword::If, word),
        3 => spelled(Keyword::Int, word)
            .or(spelled(Keyword::Ref, word))
            .or(spelled(Keyword::Nil, word)),
        4 => spelled(Keyword::Else, word).or(spelled(Keyword::Free, word)),
        5 => spelled(Keyword::While, word).or(spelled(Keyword::Print, word)),
        6 => spelled(Keyword::Return, word),
        7 => spelled(Keyword::Mutable, word),
        _ => None,
    }
}

// The value of a run of digits, unless it is above the largest. By hand and no `parse`: the digits are bytes, and the clause holds of any bytes.
pub(crate) fn value_of(digits: &[u8]) -> Option<u64>
    ensures { result ≡ value_of digits.now }
{
    let mut value = 0;
    for d in digits {
        let next = u128::from(value) * 10 + u128::from(d.saturating_sub(b'0'));
        if next > LARGEST {
            return None;
        }
        value = next as u64;
    }
    Some(value)
}
