// The token at the head of a text, by its first byte.
ghost use Rattle.std.specs.Prelude.{◌≡◌, ◌<◌, ◌≤◌, ◌^◌, ◌==◌, SomeIff, true, length};
ghost use Rattle.std.specs.List.{list_all};
ghost use Rattle.std.specs.Char.{is_ascii_digit};
ghost use Rattle.std.specs.Str.Parse.{digits_value};
ghost use Rattle.thread_tokens.specs.Form.{Named, Quoted, first_passes, begins_name, begins_symbol, symbol_of, two_bytes};
ghost use Rattle.thread_tokens.specs.Piece.{blank_length, checked, piece, IsWithin};

use crate::blank::blank_length;
use crate::bytes::{
    begins_with_digit, begins_with_letter, begins_with_quote, name_length, number_length,
    string_length,
};
use crate::spelling::{mark_of, operator_of, word_of};
use crate::{Fault, Piece};
use arrayvec::ArrayVec;
use thread_tree::{Name, Text, Token};

/// A name of these bytes, which are no word of the language. They are so many.
fn named(length: usize, bytes: &[u8]) -> Piece
    ensures same { result ≡ checked length (Named bytes.now) }
{
    match ArrayVec::try_from(bytes) {
        Ok(bytes) => Piece::Name(length, Name { bytes }),
        Err(_) => Piece::Wrong(Fault::TooLong),
    }
}

/// The word or the name at the head of a text.
#[tactic(auto, using(crate::proofs::PieceLemmas::piece_name))]
fn name(text: &[u8]) -> Piece
    requires unseparated { blank_length text.now ≡ 0 }
    requires letter { first_passes begins_name text.now ≡ true }
    ensures same { result ≡ piece text.now }
{
    let length = name_length(text);
    let bytes = &text[..length];
    match word_of(bytes) {
        Some(word) => Piece::Token(length, Token::Word(word)),
        None => named(length, bytes),
    }
}

/// The number that digits write, or none where it is above 4,294,967,295.
fn value(digits: &[u8]) -> Option<u32>
    requires digits { list_all is_ascii_digit digits.now ≡ true }
    ensures value { SomeIff result (digits_value 10 digits.now < 2 ^ 32) (digits_value 10 digits.now) }
{
    let mut value: u64 = 0;
    for byte in digits {
        value = (value * 10 + u64::from(*byte - b'0')).min(1 << 32);
    }
    u32::try_from(value).ok()
}

/// The number at the head of a text.
#[tactic(auto, using(crate::proofs::PieceLemmas::digits_prefix, crate::proofs::PieceLemmas::piece_number, crate::proofs::PieceLemmas::piece_large))]
fn number(text: &[u8]) -> Piece
    requires unseparated { blank_length text.now ≡ 0 }
    requires digit { first_passes is_ascii_digit text.now ≡ true }
    ensures same { result ≡ piece text.now }
{
    let length = number_length(text);
    match value(&text[..length]) {
        Some(value) => Piece::Token(length, Token::Number(value)),
        None => Piece::Wrong(Fault::NumberTooLarge),
    }
}

/// A string of these bytes, whose quotes make it so long.
fn quoted(length: usize, bytes: &[u8]) -> Piece
    ensures same { result ≡ checked length (Quoted bytes.now) }
{
    match ArrayVec::try_from(bytes) {
        Ok(bytes) => Piece::Token(length, Token::Text(Text { bytes })),
        Err(_) => Piece::Wrong(Fault::TooLong),
    }
}

/// The string at the head of a text.
fn string(text: &[u8]) -> Piece
    requires unseparated { blank_length text.now ≡ 0 }
    requires quote { first_passes (λ byte. byte == 34) text.now ≡ true }
    ensures same { result ≡ piece text.now }
{
    let rest = &text[1..];
    let length = string_length(rest);
    if !begins_with_quote(&rest[length..]) {
        return Piece::Wrong(Fault::BadToken);
    }
    quoted(length + 2, &rest[..length])
}

/// The mark or the operator that is spelled so, if one is.
#[tactic(auto, unfolding(crate::specs::Form::symbol_of))]
fn symbol_of(bytes: &[u8]) -> Option<Token>
    ensures same { result ≡ symbol_of bytes.now }
{
    match mark_of(bytes) {
        Some(mark) => Some(Token::Mark(mark)),
        None => operator_of(bytes).map(Token::Operator),
    }
}

/// The mark or the operator that the first two bytes of a text spell.
fn two_bytes(text: &[u8]) -> Option<Token>
    ensures same { result ≡ two_bytes text.now }
{
    if text.len() < 2 {
        return None;
    }
    symbol_of(&text[..2])
}

/// The mark or the operator at the head of a text.
#[tactic(auto, using(crate::proofs::PieceLemmas::piece_two, crate::proofs::PieceLemmas::piece_one, crate::proofs::PieceLemmas::piece_none))]
fn symbol(text: &[u8]) -> Piece
    requires unseparated { blank_length text.now ≡ 0 }
    requires other { first_passes begins_symbol text.now ≡ true }
    ensures same { result ≡ piece text.now }
{
    if let Some(token) = two_bytes(text) {
        return Piece::Token(2, token);
    }
    match symbol_of(&text[..1]) {
        Some(token) => Piece::Token(1, token),
        None => Piece::Wrong(Fault::BadToken),
    }
}

/// What stands at the head of a text.
#[tactic(auto, using(crate::proofs::PieceLemmas::piece_blank, crate::proofs::PieceLemmas::blank_within, crate::proofs::PieceLemmas::piece_within))]
pub fn piece(text: &[u8]) -> Piece
    requires more { 0 < length text.now }
    ensures same { result ≡ piece text.now }
    ensures within { IsWithin (length text.now) result }
{
    let blank = blank_length(text);
    if blank > 0 {
        return Piece::Blank(blank);
    }
    if begins_with_letter(text) {
        return name(text);
    }
    if begins_with_digit(text) {
        return number(text);
    }
    if begins_with_quote(text) {
        return string(text);
    }
    symbol(text)
}
