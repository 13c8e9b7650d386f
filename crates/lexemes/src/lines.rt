// The lines of a listing.
ghost use Rattle.std.specs.Prelude.{◌≡◌, List, ◌++◌, drop, IfOk, string_bytes, codes, decimal, OnOk};
ghost use Rattle.tokens.specs.Spelling.{Item, symbol_of, item_of};
ghost use Rattle.tokens.specs.Lexing.{Lexes};
ghost use Rattle.lexemes.specs.Listing.{digits_of, kind_text, spelling, after_blank, item_line, reason_line, reason_at, line_by, listing_of};
ghost use Rattle.lexemes.specs.Growing.{Grows};

use crate::refusal::Reason;
use std::alloc::{AllocError, Global};
use tokens::{Placed, Token, TokenList};

const MOST_BYTES: usize = 8192;

const MOST_TOKENS: usize = 2048;

// What stands at an offset and after it.
fn rest_at(source: &[u8], at: usize) -> &[u8]
    ensures { result.now ≡ drop at source.now }
{
    source.get(at..).unwrap_or(b"")
}

fn digits_of(text: &[u8]) -> &[u8]
    ensures { result.now ≡ digits_of text.now }
{
    let len = text.iter().take_while(|b| b.is_ascii_digit()).count();
    &text[..len]
}

// The listing's words, which no derive knows.
fn kind_of(token: Token) -> &'static str
    ensures { result.now ≡ kind_text (symbol_of token.entry) }
{
    match token {
        Token::Name(_) => "name",
        Token::Constant(_) => "constant",
        Token::Keyword(_) => "keyword",
        Token::Mark(_) => "mark",
        Token::End => "end",
        Token::Trouble(_) => "trouble",
    }
}

fn spelling_of<'a>(source: &'a [u8], placed: Placed<'a>) -> &'a [u8]
    ensures { result.now ≡ spelling source.now placed.entry.at (symbol_of placed.entry.token) }
{
    match placed.token {
        Token::Name(text) => text,
        Token::Constant(_) => digits_of(rest_at(source, placed.at)),
        Token::Keyword(keyword) => keyword.text(),
        Token::Mark(mark) => mark.text(),
        Token::End | Token::Trouble(_) => b"",
    }
}

// A `format!`, in a function of its own for its clause.
fn front_of(heap: Global, at: usize, kind: &str) -> Result<String, AllocError>
    ensures { IfOk result (λ s. string_bytes s ≡ decimal at ++ (codes " " ++ kind.now)) }
{
    format!(in heap; "{at} {kind}")
}

// Why the item at an index is refused, if it is.
fn reason_at(index: usize, token: Token) -> Option<Reason>
    ensures { result ≡ reason_at index (symbol_of token.entry) }
{
    match token {
        Token::Trouble(trouble) => Some(Reason::Trouble(trouble)),
        Token::End => None,
        _ if index < MOST_TOKENS => None,
        _ => Some(Reason::ManyTokens),
    }
}

// The listing of a source, as far as it is written. Bytes and no `String`: a name stands in it as the source spells it.
#[derive(Drop)]
struct Draft<'a> {
    heap: Global,
    source: &'a [u8],
    text: Vec<u8>,
}

impl<'a> Draft<'a> {
    fn push(&mut self, more: &[u8]) -> Result<(), AllocError>
        ensures { OnOk result (Grows self.old self.new more.now) }
    {
        self.text.extend_from_slice(more)?;
        Ok(())
    }

    fn push_after_blank(&mut self, word: &[u8]) -> Result<(), AllocError>
        ensures { OnOk result (Grows self.old self.new (after_blank word.now)) }
    {
        if word.is_empty() {
            return Ok(());
        }
        self.push(b" ")?;
        self.push(word)?;
        Ok(())
    }

    fn push_item(&mut self, placed: Placed) -> Result<(), AllocError>
        ensures { OnOk result (Grows self.old self.new (item_line self.old.source.now (item_of placed.entry))) }
    {
        let front = front_of(self.heap, placed.at, kind_of(placed.token))?;
        let spelling = spelling_of(self.source, placed);
        self.push(front.as_bytes())?;
        self.push_after_blank(spelling)?;
        self.push(b"\n")?;
        Ok(())
    }

    fn push_refusal(&mut self, reason: Reason, at: usize) -> Result<(), AllocError>
        ensures { OnOk result (Grows self.old self.new (reason_line self.old.source.now reason at)) }
    {
        let line = reason.line(self.heap, self.source, at)?;
        self.push(line.as_bytes())
    }

    fn push_line(&mut self, index: usize, placed: Placed) -> Result<(), AllocError>
        ensures { OnOk result (Grows self.old self.new (line_by self.old.source.now (item_of placed.entry) (reason_at index (symbol_of placed.entry.token)))) }
    {
        match reason_at(index, placed.token) {
            Some(reason) => self.push_refusal(reason, placed.at),
            None => self.push_item(placed),
        }
    }
}

// The listing of a source.
pub fn listing(heap: Global, source: &[u8]) -> Result<Vec<u8>, AllocError>
    ensures { IfOk result (λ v. (items : List Item) → Lexes 0 source.now items → v.items ≡ listing_of source.now items) }
{
    let mut draft = Draft {
        heap,
        source,
        text: Vec::new(heap),
    };
    if source.len() > MOST_BYTES {
        draft.push_refusal(Reason::LongSource, MOST_BYTES)?;
        return Ok(draft.text);
    }
    let mut list = TokenList::new(heap)?;
    list.fill(source);
    for (index, placed) in list.items().iter().enumerate() {
        draft.push_line(index, *placed)?;
    }
    Ok(draft.text)
}
