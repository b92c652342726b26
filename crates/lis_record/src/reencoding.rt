//! The encoding of what a text reports, taken from the text run by run (LIS02-A2, Delimiters).

ghost use Rattle.std.specs.Prelude.{◌≡◌, ◌<◌, ◌≤◌, ◌++◌, ◌∷◌, IfOk, IsTrue, None, OnErr, OnOk, drop, length};
ghost use Rattle.std.specs.Prelude.{take};
ghost use Rattle.std.specs.Io.{StartsWith};
ghost use Rattle.lis_record_values.specs.Text.{trailing_byte};
ghost use Rattle.lis_record_write.specs.Encoding.{encoded_component};
ghost use Rattle.lis_record_read.specs.FrontReading.{ArePairs, digit_symbols};
ghost use Rattle.lis_record.specs.inside.Reencoding.{reencoded};

use lis_bytes::place_of;
use lis_record_read::{escape_meaning, first_pair, letter_symbol};
use lis_record_values::{Delimiters, Sym};
use lis_record_write::add_symbol;
use std::alloc::AllocError;

// Adds the encoding of a text, in which delimiters are as they are.
#[inline(always)]
pub(crate) fn add_reencoded(
    out: &mut Vec<u8>,
    delimiters: Delimiters,
    text: &[u8],
) -> Result<(), AllocError>
    ensures ok { OnOk result (out.new.items ≡ out.old.items ++ reencoded delimiters text.now) }
    ensures err { OnErr result (StartsWith out.new.items out.old.items) }
{
    if place_of(text, delimiters.escape()).is_some() {
        return add_runs(out, delimiters, text);
    }
    out.extend_from_slice(text)?;
    Ok(())
}

// Adds a field delimiter and the encoding of what is after a text's first byte.
#[inline(always)]
pub(crate) fn add_following(
    out: &mut Vec<u8>,
    delimiters: Delimiters,
    text: &[u8],
) -> Result<(), AllocError>
    requires { 0 < length text.now }
    ensures ok { OnOk result (out.new.items
        ≡ out.old.items ++ delimiters.field ∷ reencoded delimiters (drop 1 text.now)) }
    ensures err { OnErr result (StartsWith out.new.items out.old.items) }
{
    let mark = delimiters.field();
    let Some((byte, following)) = text.split_first() else {
        unreachable!()
    };
    if let [only] = following
        && *only != delimiters.escape()
    {
        // As many fields have: no call copies so few bytes.
        out.extend_from_slice(&[mark, *only])?;
        return Ok(());
    }
    if *byte == mark {
        // As in each record that was read: so both are added at once.
        return add_reencoded(out, delimiters, text);
    }
    out.extend_from_slice(&[mark])?;
    add_runs(out, delimiters, following)
}

// The same, of a text with an escape byte: what is encoded as it is goes out at once.
#[inline(never)]
fn add_runs(out: &mut Vec<u8>, delimiters: Delimiters, text: &[u8]) -> Result<(), AllocError>
    ensures ok { OnOk result (out.new.items ≡ out.old.items ++ reencoded delimiters text.now) }
    ensures err { OnErr result (StartsWith out.new.items out.old.items) }
{
    let mut rest = text;
    loop {
        let (front, following) = rest.split_at(front_as_is(delimiters, rest));
        out.extend_from_slice(front)?;
        let Some((_escape, inside)) = following.split_first() else {
            return Ok(());
        };
        rest = add_escape(out, delimiters, inside)?;
    }
}

// How many bytes of a text are encoded as they are, up to its end or to an escape byte: those of escapes of one
// letter are.
#[inline(always)]
fn front_as_is(delimiters: Delimiters, text: &[u8]) -> usize
    ensures same { reencoded delimiters text.now
        ≡ take result text.now ++ reencoded delimiters (drop result text.now) }
    ensures next { trailing_byte delimiters.escape (drop result text.now) ≡ None }
    ensures bound { result ≤ length text.now }
{
    let mut passed = 0;
    let mut rest = text;
    while let Some(place) = place_of(rest, delimiters.escape()) {
        let (_front, following) = rest.split_at(place);
        let Some((_escape, inside)) = following.split_first() else {
            unreachable!()
        };
        if !begins_letter(delimiters, inside) {
            return passed + place;
        }
        let (_letter, others) = inside.split_at(2);
        passed += place + 3;
        rest = others;
    }
    text.len()
}

// Whether a text that follows an escape byte begins with the letter of an escape, and the byte that ends it.
#[inline(always)]
fn begins_letter(delimiters: Delimiters, text: &[u8]) -> bool
    ensures { IsTrue result → (2 ≤ length text.now) × (reencoded delimiters (delimiters.escape ∷ text.now)
        ≡ delimiters.escape ∷ take 2 text.now ++ reencoded delimiters (drop 2 text.now)) }
{
    // proof: an escape of one letter is encoded as it is, since delimiters are apart.
    let _ = delimiters.field();
    let [letter, end, ..] = text else {
        return false;
    };
    *end == delimiters.escape() && letter_symbol(delimiters, *letter).is_some()
}

// Adds what an escape byte in front of a text begins, and answers the text after it.
#[inline(always)]
fn add_escape<'a>(
    out: &mut Vec<u8>,
    delimiters: Delimiters,
    text: &'a [u8],
) -> Result<&'a [u8], AllocError>
    ensures same { IfOk result (λ rest. out.new.items ++ reencoded delimiters rest.now
        ≡ out.old.items ++ reencoded delimiters (delimiters.escape ∷ text.now)) }
    ensures shorter { IfOk result (λ rest. length rest.now ≤ length text.now) }
    ensures begins { StartsWith out.new.items out.old.items }
{
    // proof: an escape byte alone is encoded as an escape, since delimiters are apart.
    let _ = delimiters.field();
    let escape = delimiters.escape();
    if let Some(end) = place_of(text, escape) {
        let (inside, following) = text.split_at(end);
        if let Some((symbol, digits)) = escape_meaning(delimiters, inside) {
            add_symbol(out, delimiters, symbol)?;
            add_raw(out, delimiters, digits)?;
            return Ok(&following[1..]);
        }
    }
    out.extend_from_slice(&[escape, b'E', escape])?;
    Ok(text)
}

// Adds the raw bytes that pairs of digits are, each as an escape of its own.
#[inline(always)]
fn add_raw(out: &mut Vec<u8>, delimiters: Delimiters, digits: &[u8]) -> Result<(), AllocError>
    requires { ArePairs digits.now }
    ensures ok { OnOk result (out.new.items
        ≡ out.old.items ++ encoded_component delimiters (digit_symbols digits.now)) }
    ensures begins { StartsWith out.new.items out.old.items }
{
    let mut rest = digits;
    while let Some((byte, others)) = first_pair(rest) {
        add_symbol(out, delimiters, Sym::Raw(byte))?;
        rest = others;
    }
    Ok(())
}
