//! The next lexeme of a text: a gap, a token, or a position where no token begins.

ghost use Rattle.std.specs.Prelude.{◌≡◌, ◌<◌, ◌==◌, length, slice_index, true, false};
ghost use Rattle.cqp_grammar.specs.Lexemes.{Advances, Begins};
ghost use Rattle.cqp_grammar.specs.Spelling.{is_digit, is_letter, is_blank};

use crate::bytes::{digits_len, is_blank, is_digit, is_letter, line_len, word_len};
use crate::name_text::NameText;
use crate::number::value;
use crate::spelling::{first_symbol, reserved, symbol_len};
use crate::token::Token;

/// What stands next in a text, and how many bytes it takes.
#[derive(Drop)]
pub(crate) enum Lexeme<'a> {
    /// A blank or a comment.
    Gap { len: usize },
    Whole { token: Token<'a>, len: usize },
    /// No blank, comment or token begins here.
    Nothing,
}

/// The lexeme at an offset, of the bytes from there on.
pub(crate) fn lexeme_at(bytes: &[u8], at: u32) -> Lexeme
    requires { 0 < length bytes.now }
    ensures { Advances at bytes.now result }
{
    let first = bytes[0];
    if is_blank(first) {
        Lexeme::Gap { len: 1 }
    } else if is_letter(first) {
        word(bytes, at)
    } else if is_digit(first) {
        number(bytes, at)
    } else if first == b'-' {
        comment(bytes, at)
    } else {
        symbol(bytes, at)
    }
}

/// The word in front of the bytes.
fn word(bytes: &[u8], at: u32) -> Lexeme
    requires some { 0 < length bytes.now }
    requires letter { is_letter (slice_index bytes.now 0) ≡ true }
    ensures { Advances at bytes.now result }
{
    let len = word_len(bytes);
    let word = &bytes[..len];
    let token = match reserved(word) {
        Some(reserved) => Token::Reserved { reserved, at },
        None => Token::Name {
            text: NameText::new(word),
            at,
        },
    };
    Lexeme::Whole { token, len }
}

/// The number in front of the bytes.
fn number(bytes: &[u8], at: u32) -> Lexeme
    requires some { 0 < length bytes.now }
    requires digit { is_digit (slice_index bytes.now 0) ≡ true }
    ensures { Advances at bytes.now result }
{
    let len = digits_len(bytes);
    if len > 1 && bytes[0] == b'0' {
        return Lexeme::Nothing;
    }
    match value(&bytes[..len]) {
        Some(v) => Lexeme::Whole {
            token: Token::Number { v, at },
            len,
        },
        None => Lexeme::Nothing,
    }
}

/// The comment in front of the bytes.
fn comment(bytes: &[u8], at: u32) -> Lexeme
    requires some { 0 < length bytes.now }
    requires dash { slice_index bytes.now 0 ≡ 45 }
    ensures { Advances at bytes.now result }
{
    if bytes.len() > 1 && bytes[1] == b'-' {
        Lexeme::Gap {
            len: 2 + line_len(&bytes[2..]),
        }
    } else {
        Lexeme::Nothing
    }
}

/// The symbol in front of the bytes.
fn symbol(bytes: &[u8], at: u32) -> Lexeme
    requires some { 0 < length bytes.now }
    requires blank { is_blank (slice_index bytes.now 0) ≡ false }
    requires letter { is_letter (slice_index bytes.now 0) ≡ false }
    requires digit { is_digit (slice_index bytes.now 0) ≡ false }
    requires dash { (slice_index bytes.now 0 == 45) ≡ false }
    ensures { Advances at bytes.now result }
{
    match first_symbol(bytes) {
        Some(symbol) => Lexeme::Whole {
            token: Token::Symbol { symbol, at },
            len: symbol_len(symbol),
        },
        None => Lexeme::Nothing,
    }
}
