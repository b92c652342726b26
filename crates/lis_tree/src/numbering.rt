//! Findings on sequence numbers (LIS02-A2).
ghost use Rattle.std.specs.Prelude.{◌≡◌, ◌≢◌, ℕ, ◌+◌, ◌<◌, ◌∷◌, [], ◌++◌, List as Listed, Some, IfSome, IfOk, OnOk};
ghost use Rattle.std.specs.Prelude.{length};
ghost use Rattle.lis_record_values.specs.declared.kinds.Kind.{Kind as KindOf};
ghost use Rattle.lis_tree.specs.Findings.{HasNumbered, finding_on, findings_from, findings_of};
ghost use Rattle.std.specs.Option.{option_to_list};
ghost use Rattle.lis_record_values.specs.Shape.{RecordContent, field_at, plain_component};
ghost use Rattle.lis_bytes.specs.Capped.{capped};
ghost use Rattle.lis_tree.specs.Numbers.{CountsOf, expected_number, symbol_digit, digits_number, field_number};
ghost use Rattle.lis_tree.specs.Numbers.{is_number, is_numbered};
ghost use Rattle.lis_record_values.specs.declared.kinds.Kind.TheVariants as kinds;

use crate::message::Message;
use crate::walk::Walk;
use lis_bytes::List;
use lis_record::{BorrowedField, BorrowedRecord, BorrowedSymbols};
use lis_record_values::{Component, Field, Kind, Record, Sym};
use std::alloc::{AllocError, Global};

/// A record whose second field isn't the expected number.
#[derive(Clone, Copy, Debug, PartialEq, Eq)]
pub struct Finding {
    /// The number of the record in its message, from 1 for the header.
    pub place: u64,
    pub kind: Kind,
    /// The number that it should have: its position among the records of its kind under its parent.
    pub expected: u64,
}

/// A list of findings.
pub type Findings = List<Finding>;

/// How many records of each kind are after the parent of the next one.
#[derive(Clone, Copy)]
struct KindCounts {
    patients: u64,
    queries: u64,
    orders: u64,
    results: u64,
    comments: u64,
}

/// Counts one more of a record that has comments of its own, and answers how many there are.
#[inline(always)]
fn one_more(count: &mut u64, comments: &mut u64) -> u64
    ensures answer { result ≡ count.new }
    ensures counted { count.new ≡ capped (count.old + 1) }
    ensures anew { comments.new ≡ 0 }
{
    *count = count.saturating_add(1);
    *comments = 0;
    *count
}

impl KindCounts {
    fn none() -> Self
        ensures { CountsOf [] result }
    {
        KindCounts {
            patients: 0,
            queries: 0,
            orders: 0,
            results: 0,
            comments: 0,
        }
    }

    /// Counts a record of this kind, and answers the number that it should have.
    #[inline(always)]
    fn count(&mut self, kind: Kind) -> u64
        ensures expected { (earlier : Listed KindOf) → CountsOf earlier self.old
            → kind ≢ kinds.H → kind ≢ kinds.M → kind ≢ kinds.S → result ≡ capped (expected_number kind earlier) }
        ensures counted { (earlier : Listed KindOf) → CountsOf earlier self.old → CountsOf (kind ∷ earlier) self.new }
    {
        match kind {
            Kind::H => {
                self.patients = 0;
                self.queries = 0;
                self.comments = 0;
                1
            }
            Kind::P => {
                self.orders = 0;
                one_more(&mut self.patients, &mut self.comments)
            }
            Kind::Q => one_more(&mut self.queries, &mut self.comments),
            Kind::O => {
                self.results = 0;
                one_more(&mut self.orders, &mut self.comments)
            }
            Kind::R => one_more(&mut self.results, &mut self.comments),
            Kind::C => {
                self.comments = self.comments.saturating_add(1);
                self.comments
            }
            Kind::L => {
                self.comments = 0;
                1
            }
            Kind::M | Kind::S => 1,
        }
    }
}

/// The value of a symbol that is a digit.
#[inline(always)]
fn symbol_digit(symbol: &Sym) -> Option<u64>
    ensures value { result ≡ symbol_digit symbol.now }
    ensures small { IfSome result (λ digit. digit < 10) }
{
    match *symbol {
        Sym::Char(byte) => {
            if byte < b'0' || byte > b'9' {
                return None;
            }
            Some(u64::from(byte - b'0'))
        }
        Sym::Raw(_) | Sym::On | Sym::Off => None,
    }
}

/// The number that a component is, where it is one to nine digits.
fn component_number(component: &Component) -> Option<u64>
    ensures { result ≡ digits_number component.now }
{
    let count = component.len();
    if count < 1 || count > 9 {
        return None;
    }
    let mut number = 0u64;
    for place in 0..count {
        let Some(symbol) = component.get(place) else {
            return None;
        };
        let Some(digit) = symbol_digit(symbol) else {
            return None;
        };
        number = number * 10 + digit;
    }
    Some(number)
}

/// The number that a field is, where it is one repeat of one component.
fn field_number(field: &Field) -> Option<u64>
    ensures { result ≡ field_number (Some field.now) }
{
    if field.len() != 1 {
        return None;
    }
    let repeat = field.get(0)?;
    if repeat.len() != 1 {
        return None;
    }
    component_number(repeat.get(0)?)
}

/// Whether records of this kind carry a number that is examined.
#[inline(always)]
fn is_numbered(kind: Kind) -> bool
    ensures { result ≡ is_numbered kind }
{
    !matches!(kind, Kind::H | Kind::M | Kind::S)
}

/// The number that a record's second field is.
fn record_number(entry: &Record) -> Option<u64>
    ensures { result ≡ field_number (field_at entry.now 2) }
{
    let Some(field) = entry.field(2) else {
        return None;
    };
    field_number(field)
}

/// The number that the symbols of a component are, where they are one to nine digits.
fn symbols_number(symbols: BorrowedSymbols<'_>) -> Option<u64>
    ensures { result ≡ digits_number symbols.entry }
{
    let mut symbols = symbols;
    let mut number = 0u64;
    let mut count = 0u64;
    while let Some(symbol) = symbols.next() {
        if count == 9 {
            return None;
        }
        let Some(digit) = symbol_digit(&symbol) else {
            return None;
        };
        number = number * 10 + digit;
        count += 1;
    }
    if count == 0 { None } else { Some(number) }
}

/// The number that bytes are, where they are one to nine digits.
#[inline(always)]
fn bytes_number(bytes: &[u8]) -> Option<u64>
    ensures { result ≡ digits_number (plain_component bytes.now) }
{
    let mut rest = bytes;
    let mut number = 0u64;
    let mut count = 0u64;
    while let Some((byte, following)) = rest.split_first() {
        if count == 9 {
            return None;
        }
        let Some(digit) = symbol_digit(&Sym::Char(*byte)) else {
            return None;
        };
        number = number * 10 + digit;
        count += 1;
        rest = following;
    }
    if count == 0 { None } else { Some(number) }
}

/// The number that a borrowed field is, where it is one repeat of one component.
#[inline(always)]
fn borrowed_field_number(field: &BorrowedField<'_>) -> Option<u64>
    ensures { result ≡ field_number (Some field.now.content) }
{
    match field.only_component() {
        Some(bytes) => bytes_number(bytes),
        None => other_field_number(field),
    }
}

/// The same, where there may be more repeats or components, or an escape.
#[inline(never)]
fn other_field_number(field: &BorrowedField<'_>) -> Option<u64>
    ensures { result ≡ field_number (Some field.now.content) }
{
    if field.len() != 1 {
        return None;
    }
    let repeat = field.repeat(0)?;
    if repeat.len() != 1 {
        return None;
    }
    let component = repeat.component(0)?;
    symbols_number(component.symbols())
}

/// The number that a borrowed record's second field is.
#[inline(always)]
fn borrowed_number(entry: &BorrowedRecord<'_>) -> Option<u64>
    ensures { result ≡ field_number (field_at entry.now.content 2) }
{
    // A header's second field is its delimiters.
    if let Kind::H = entry.kind() {
        return None;
    }
    if let Some(digit) = entry.first_digit() {
        return bytes_number(&[digit]);
    }
    match entry.fields().next() {
        Some(field) => borrowed_field_number(&field),
        None => None,
    }
}

/// Whether a number is the expected one.
#[inline(always)]
fn is_number(number: Option<u64>, expected: u64) -> bool
    ensures { result ≡ is_number number expected }
{
    match number {
        None => false,
        Some(number) => number == expected,
    }
}

/// The finding on a record at this place whose second field is this number and should be the expected one, if there is
/// one.
#[inline(always)]
fn finding_on(kind: Kind, number: Option<u64>, expected: u64, place: u64) -> Option<Finding>
    ensures { (earlier : Listed KindOf) (n : ℕ) (r : RecordContent)
        → (kind ≢ kinds.H → kind ≢ kinds.M → kind ≢ kinds.S → expected ≡ capped (expected_number kind earlier))
        → place ≡ capped n → r.kind ≡ kind → field_number (field_at r 2) ≡ number
        → option_to_list result ≡ finding_on earlier n r }
{
    if !is_numbered(kind) {
        return None;
    }
    if is_number(number, expected) {
        return None;
    }
    Some(Finding {
        place,
        kind,
        expected,
    })
}

/// Examines the sequence numbers of a message's records one after another, from the header on, and keeps none of them
/// (LIS02-A2).
#[derive(Clone, Copy)]
pub struct Numbering {
    counts: KindCounts,
    /// How many records there are; it stays at the greatest number.
    count: u64,
}

impl Numbering {
    /// Before the header.
    pub fn new() -> Self
        ensures { HasNumbered result [] }
    {
        Numbering {
            counts: KindCounts::none(),
            count: 0,
        }
    }

    /// The place of the next record, from 1 for the header; it stays at the greatest number.
    pub fn next_place(&self) -> u64
        ensures { (records : Listed RecordContent) → HasNumbered self.now records
            → result ≡ capped (length records + 1) }
    {
        self.count.saturating_add(1)
    }

    /// Takes the next record, and answers the finding on its second field, if there is one: those on all records with
    /// it are those on the records before, and that.
    #[inline(always)]
    pub fn take(&mut self, entry: &BorrowedRecord<'_>) -> Option<Finding>
        ensures found { (records : Listed RecordContent) → HasNumbered self.old records
            → findings_from [] 1 (records ++ entry.now.content ∷ []) ≡ findings_from [] 1 records
            ++ option_to_list result }
        ensures numbered { (records : Listed RecordContent) → HasNumbered self.old records
            → HasNumbered self.new (records ++ entry.now.content ∷ []) }
    {
        let kind = entry.kind();
        let place = self.next_place();
        let expected = self.counts.count(kind);
        self.count = self.count.saturating_add(1);
        // Last, so that no finding is carried past these: one is seldom found.
        finding_on(kind, borrowed_number(entry), expected, place)
    }
}

/// Adds the finding, if there is one.
fn add(found: &mut Findings, finding: Option<Finding>) -> Result<(), AllocError>
    ensures { OnOk result (found.new ≡ found.old ++ option_to_list finding) }
{
    let Some(finding) = finding else {
        return Ok(());
    };
    found.push(finding)?;
    Ok(())
}

/// The records of a message whose second field isn't the expected number, in order. Headers, manufacturer and
/// scientific records aren't examined.
pub fn findings(alloc: Global, message: &Message) -> Result<Findings, AllocError>
    ensures { IfOk result (λ found. found ≡ findings_of message.now) }
{
    let mut found = Findings::new(alloc);
    let mut walk = Walk::new(message);
    let mut counts = KindCounts::none();
    let mut place: u64 = 1;
    while let Some(entry) = walk.next() {
        let kind = entry.kind();
        let expected = counts.count(kind);
        let finding = finding_on(kind, record_number(entry), expected, place);
        add(&mut found, finding)?;
        place = place.saturating_add(1);
    }
    Ok(found)
}
