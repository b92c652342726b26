//! The four delimiters that a header declares for its message (LIS02-A2, Delimiters).

ghost use Rattle.std.specs.Prelude.{◌≡◌, ◌∷◌, [], IfOk, IsOk, MatchResult, Some, None, not, position};
ghost use Rattle.lis_record_values.specs.Delimiters.{DelimiterBytes, IsDelimiters, delimiter_fault, delimiters_of};
ghost use Rattle.lis_record_values.specs.Delimiters.{is_punctuation, repeated_from, usual};

use std::marker::Model;
use thiserror::Error;

/// The bytes that separate fields, repeats and components, and the byte that begins and ends an escape.
#[derive(Clone, Copy, Debug, PartialEq, Eq)]
pub struct Delimiters {
    field: u8,
    repeat: u8,
    component: u8,
    escape: u8,
}

impl Model for Delimiters {
    ghost use Rattle.std.specs.Prelude.{◌≡◌};
    ghost use Rattle.lis_record_values.specs.Delimiters.{DelimiterBytes, IsDelimiters};

    ghost Value = { DelimiterBytes };

    ghost view = { λ d. record { field = d.field; repeat = d.repeat; component = d.component; escape = d.escape } };

    ghost invariant = { λ d. IsDelimiters (record {
      field = d.field;
      repeat = d.repeat;
      component = d.component;
      escape = d.escape;
    }) };

    ghost inverse = { λ d. record { field = d.field; repeat = d.repeat; component = d.component; escape = d.escape } };
}

/// Why four bytes are no delimiters. Places count from 0.
#[derive(Clone, Copy, Debug, PartialEq, Eq, Error)]
pub enum DelimiterFault {
    /// The byte at this place is no punctuation byte.
    #[error("the delimiter at place {0} is no punctuation")]
    NotPunctuation(usize),
    /// The byte at this place is at an earlier one too.
    #[error("the delimiter at place {0} is at an earlier one too")]
    Repeated(usize),
}

// Whether a byte is one of ! to /, : to @, [ to ` and { to ~.
#[tactic(auto, unfolding(crate::specs::Delimiters::is_punctuation))]
fn is_punctuation(byte: u8) -> bool
    ensures { result ≡ is_punctuation byte }
{
    matches!(byte, 33..=47 | 58..=64 | 91..=96 | 123..=126)
}

// The place of the first byte that equals an earlier one.
fn repeated_place(field: u8, repeat: u8, component: u8, escape: u8) -> Option<usize>
    ensures { result ≡ repeated_from [] 0 (field ∷ repeat ∷ component ∷ escape ∷ []) }
{
    if field == repeat {
        Some(1)
    } else if repeat == component || field == component {
        Some(2)
    } else if component == escape || repeat == escape || field == escape {
        Some(3)
    } else {
        None
    }
}

// The place of the first byte that is no punctuation.
fn foreign_place(bytes: &[u8]) -> Option<usize>
    ensures { result ≡ position (λ b. not (is_punctuation b)) bytes.now }
{
    bytes.iter().position(|byte| !is_punctuation(*byte))
}

// Why four bytes are no delimiters.
#[tactic(auto, unfolding(crate::specs::Delimiters::delimiter_fault))]
fn fault_of(field: u8, repeat: u8, component: u8, escape: u8) -> Option<DelimiterFault>
    ensures { result ≡ delimiter_fault (field ∷ repeat ∷ component ∷ escape ∷ []) }
{
    if let Some(place) = foreign_place(&[field, repeat, component, escape]) {
        return Some(DelimiterFault::NotPunctuation(place));
    }
    repeated_place(field, repeat, component, escape).map(DelimiterFault::Repeated)
}

impl Delimiters {
    // The bytes stay in registers, where a call would store each by itself and load all four at once.
    /// Delimiters of these four bytes, which are distinct punctuation bytes; else the place, from 0, of
    /// the first that is no punctuation, or of the first that is earlier too.
    #[inline(always)]
    pub fn new(field: u8, repeat: u8, component: u8, escape: u8) -> Result<Self, DelimiterFault>
        ensures found { IfOk result (λ d. (d ≡ delimiters_of field repeat component escape) × IsDelimiters d) }
        ensures only { IsDelimiters (delimiters_of field repeat component escape) → IsOk result }
        ensures fault { MatchResult result
            (λ d. delimiter_fault (field ∷ repeat ∷ component ∷ escape ∷ []) ≡ None)
            (λ fault. delimiter_fault (field ∷ repeat ∷ component ∷ escape ∷ []) ≡ Some fault) }
    {
        if let Some(fault) = fault_of(field, repeat, component, escape) {
            return Err(fault);
        }
        Ok(Delimiters {
            field,
            repeat,
            component,
            escape,
        })
    }

    /// The usual delimiters: |, \, ^ and &.
    #[tactic(auto, unfolding(crate::specs::Delimiters::is_punctuation))]
    pub fn usual() -> Self
        ensures { result ≡ usual }
    {
        Delimiters {
            field: b'|',
            repeat: b'\\',
            component: b'^',
            escape: b'&',
        }
    }

    /// The byte before each field.
    pub fn field(self) -> u8
        ensures byte { result ≡ self.field }
        ensures shape { IsDelimiters self }
    {
        self.field
    }

    /// The byte between two repeats.
    pub fn repeat(self) -> u8
        ensures { result ≡ self.repeat }
    {
        self.repeat
    }

    /// The byte between two components.
    pub fn component(self) -> u8
        ensures { result ≡ self.component }
    {
        self.component
    }

    /// The byte that begins and ends an escape.
    pub fn escape(self) -> u8
        ensures { result ≡ self.escape }
    {
        self.escape
    }
}
