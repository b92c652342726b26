//! A component's symbols, and the escapes among them, read where they are (LIS02-A2, Delimiters).

ghost use Rattle.std.specs.Prelude.{◌≡◌, ◌≤◌, ◌<◌, ◌++◌, ◌∷◌, [], IfOk, MatchOption, OnOk, Some, None, is_some};
ghost use Rattle.std.specs.Prelude.{length, take, unwrap_or};
ghost use Rattle.std.specs.List.{list_all};
ghost use Rattle.lis_record_values.specs.declared.symbols.Sym.TheVariants.{Raw};
ghost use Rattle.hex.specs.Hex.{decode_of, hex_digit_value, is_hex_digit};
ghost use Rattle.lis_record_values.specs.Escapes.{escape_of, letter_symbol, raw_symbols};
ghost use Rattle.lis_record_read.specs.FrontReading.{ArePairs, digit_symbols, symbols_left, symbols_of};
ghost use Rattle.lis_record_read.specs.inside.FrontReading.{BeginsWith};
ghost use Rattle.lis_record_values.specs.Relation.{Lacks};

use crate::text_parts::PaddedText;
use lis_bytes::{bits_of, place_of};
use lis_record_values::{Component, Delimiters, Sym};
use std::alloc::{AllocError, Global};
use std::marker::Model;

/// The symbol of an escape of one letter.
#[inline(always)]
pub fn letter_symbol(delimiters: Delimiters, letter: u8) -> Option<Sym>
    ensures { result ≡ letter_symbol delimiters letter }
{
    match letter {
        b'H' => Some(Sym::On),
        b'N' => Some(Sym::Off),
        b'F' => Some(Sym::Char(delimiters.field())),
        b'S' => Some(Sym::Char(delimiters.component())),
        b'R' => Some(Sym::Char(delimiters.repeat())),
        b'E' => Some(Sym::Char(delimiters.escape())),
        _ => None,
    }
}

// The value of a hexadecimal digit, in either case; 0 for any other byte.
fn digit_value(digit: u8) -> u8
    ensures value { result ≡ unwrap_or (hex_digit_value digit) 0 }
    ensures small { result < 16 }
{
    match digit {
        b'0'..=b'9' => digit - b'0',
        b'A'..=b'F' => digit - b'A' + 10,
        b'a'..=b'f' => digit - b'a' + 10,
        _ => 0,
    }
}

// Whether a byte is a hexadecimal digit, in either case.
fn is_digit(byte: u8) -> bool
    ensures { result ≡ is_hex_digit byte }
{
    matches!(byte, b'0'..=b'9' | b'A'..=b'F' | b'a'..=b'f')
}

// Whether all bytes are hexadecimal digits.
fn are_digits(text: &[u8]) -> bool
    ensures { result ≡ list_all is_hex_digit text.now }
{
    text.iter().all(|byte| is_digit(*byte))
}

// Whether a text is pairs of hexadecimal digits.
fn are_pairs(text: &[u8]) -> bool
    ensures { result ≡ is_some (raw_symbols (decode_of text.now)) }
{
    if text.len() % 2 != 0 {
        return false;
    }
    are_digits(text)
}

/// The byte of the first pair of digits, and the digits after it.
pub fn first_pair(digits: &[u8]) -> Option<(u8, &[u8])>
    requires { ArePairs digits.now }
    ensures { MatchOption result (digits.now ≡ [])
        (λ pair. (digit_symbols digits.now ≡ Raw pair.0 ∷ digit_symbols pair.1.now) × ArePairs pair.1.now) }
{
    let Some((high, following)) = digits.split_first() else {
        return None;
    };
    let Some((low, rest)) = following.split_first() else {
        return None;
    };
    Some((digit_value(*high) * 16 + digit_value(*low), rest))
}

/// The first symbol of what an escape means, and the digits of those after it; none where this is no escape.
#[tactic(auto, using(crate::proofs::Places::meant_pairs))]
pub fn escape_meaning(delimiters: Delimiters, inside: &[u8]) -> Option<(Sym, &[u8])>
    ensures { MatchOption result (escape_of delimiters inside.now ≡ None)
        (λ found. (escape_of delimiters inside.now ≡ Some (found.0 ∷ digit_symbols found.1.now))
        × ArePairs found.1.now) }
{
    let Some((letter, digits)) = inside.split_first() else {
        return None;
    };
    if digits.is_empty() {
        return match letter_symbol(delimiters, *letter) {
            Some(symbol) => Some((symbol, &[])),
            None => None,
        };
    }
    if *letter != b'X' {
        return None;
    }
    if !are_pairs(digits) {
        return None;
    }
    match first_pair(digits) {
        Some((byte, rest)) => Some((Sym::Raw(byte), rest)),
        None => None,
    }
}

// The first symbol after an escape byte, the digits of an escape that are left and the text after it. Where
// the escape byte begins no escape, it is itself, and the text is left.
#[inline(always)]
fn escape_symbol(delimiters: Delimiters, text: &[u8]) -> (Sym, &[u8], &[u8])
    ensures same { symbols_of delimiters (delimiters.escape ∷ text.now) ≡ result.0
        ∷ symbols_left delimiters result.1.now result.2.now }
    ensures pairs { ArePairs result.1.now }
{
    let escape = delimiters.escape();
    let Some(end) = place_of(text, escape) else {
        return (Sym::Char(escape), &[], text);
    };
    let (inside, rest) = text.split_at(end);
    match escape_meaning(delimiters, inside) {
        Some((symbol, digits)) => (symbol, digits, &rest[1..]),
        None => (Sym::Char(escape), &[], text),
    }
}

// The first symbol of a text, the digits of an escape that are left and the text after it.
#[inline(always)]
fn first_symbol(delimiters: Delimiters, text: &[u8]) -> Option<(Sym, &[u8], &[u8])>
    ensures { MatchOption result (symbols_of delimiters text.now ≡ [])
        (λ found. (symbols_of delimiters text.now ≡ found.0 ∷ symbols_left delimiters found.1.now found.2.now)
        × ArePairs found.1.now) }
{
    let Some((byte, rest)) = text.split_first() else {
        return None;
    };
    if *byte == delimiters.escape() {
        return Some(escape_symbol(delimiters, rest));
    }
    Some((Sym::Char(*byte), &[], rest))
}

/// The symbols of a component that is in a text, taken from the front.
#[derive(Drop)]
pub struct BorrowedSymbols<'a> {
    delimiters: Delimiters,
    digits: &'a [u8],
    text: &'a [u8],
}

impl<'a> Model for BorrowedSymbols<'a> {
    ghost use Rattle.lis_record_values.specs.Shape.{Symbols};
    ghost use Rattle.lis_record_read.specs.FrontReading.{ArePairs, symbols_left};

    ghost Value = { Symbols };

    ghost view = { λ s. symbols_left s.delimiters s.digits.now s.text.now };

    ghost invariant = { λ s. ArePairs s.digits.now };
}

impl<'a> BorrowedSymbols<'a> {
    /// The symbols of a component's text.
    pub fn of_text(delimiters: Delimiters, text: &'a [u8]) -> Self
        ensures { result ≡ symbols_of delimiters text.now }
    {
        BorrowedSymbols {
            delimiters,
            digits: &[],
            text,
        }
    }

    /// Takes the first symbol; none where no symbol is left.
    #[inline(always)]
    pub fn next(&mut self) -> Option<Sym>
        ensures { MatchOption result ((self.old ≡ []) × (self.new ≡ [])) (λ symbol. self.old ≡ symbol ∷ self.new) }
    {
        if let Some((byte, digits)) = first_pair(self.digits) {
            self.digits = digits;
            return Some(Sym::Raw(byte));
        }
        match first_symbol(self.delimiters, self.text) {
            Some((symbol, digits, text)) => {
                self.digits = digits;
                self.text = text;
                Some(symbol)
            }
            None => None,
        }
    }
}

// Adds the symbols of a text to a component.
#[inline(always)]
fn push_symbols(
    component: &mut Component,
    delimiters: Delimiters,
    text: &[u8],
) -> Result<(), AllocError>
    ensures { OnOk result (component.new ≡ component.old ++ symbols_of delimiters text.now) }
{
    let mut symbols = BorrowedSymbols::of_text(delimiters, text);
    while let Some(symbol) = symbols.next() {
        component.push(symbol)?;
    }
    Ok(())
}

// Reads a component from its front.
pub(crate) fn read_component(
    alloc: Global,
    delimiters: Delimiters,
    text: &[u8],
) -> Result<Component, AllocError>
    ensures { IfOk result (λ component. component ≡ symbols_of delimiters text.now) }
{
    // No symbol has less than a byte, so this is taken once.
    let mut component = Component::with_capacity(alloc, text.len())?;
    push_symbols(&mut component, delimiters, text)?;
    Ok(component)
}

// How many of a text's first sixteen bytes are before an escape byte.
#[inline(always)]
fn plain_front(delimiters: Delimiters, given: PaddedText<'_, '_>) -> usize
    requires room { 16 ≤ length given.padded.now }
    requires begins { BeginsWith given.padded.now given.text.now }
    ensures within { result ≤ length given.entry.text.now }
    ensures plain { Lacks delimiters.escape (take result given.entry.text.now) }
{
    let PaddedText { text, padded } = given;
    let bits = bits_of(padded, delimiters.escape());
    if bits == 0 {
        return text.len().min(16);
    }
    text.len().min(bits.trailing_zeros() as usize)
}

// Reads a component from its front, the bytes before its first escape byte at once.
#[inline(never)]
pub(crate) fn read_short_component(
    alloc: Global,
    delimiters: Delimiters,
    given: PaddedText<'_, '_>,
) -> Result<Component, AllocError>
    requires room { 16 ≤ length given.padded.now }
    requires begins { BeginsWith given.padded.now given.text.now }
    ensures { IfOk result (λ component. component ≡ symbols_of delimiters given.entry.text.now) }
{
    let plain = plain_front(delimiters, given);
    let mut component = Component::from_front(alloc, given.padded, plain)?;
    let (_, rest) = given.text.split_at(plain);
    push_symbols(&mut component, delimiters, rest)?;
    Ok(component)
}
