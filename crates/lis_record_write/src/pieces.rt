//! A field's encoding, piece by piece, without memory (LIS02-A2, Delimiters).

ghost use Rattle.std.specs.Prelude.{◌≡◌, ◌<◌, ◌++◌, [], length, MatchOption};
ghost use Rattle.lis_record_write.specs.Encoding.{encoded_field};

use crate::chunk::Chunk;
use crate::cursor::{Cursor, Encoding};
use crate::writing::begin_field;
use lis_record_values::{Delimiters, Field};
use std::marker::Model;

/// What is left of a field's encoding: a piece of it, and what comes after that. The field's characters may be any
/// bytes, and the encoding may have any length.
#[derive(Drop)]
pub struct FieldEncoding<'a> {
    chunk: Chunk,
    cursor: Cursor<'a>,
}

impl<'a> Model for FieldEncoding<'a> {
    ghost use Rattle.std.specs.Prelude.{◌≡◌, [], length};
    ghost use Rattle.lis_record_write.specs.Pieces.{Pieces};

    ghost Value = { Pieces };

    ghost view = { λ s. record { piece = s.chunk; following = s.cursor } };

    ghost invariant = { λ s. length s.chunk ≡ 0 → s.cursor ≡ [] };
}

impl<'a> FieldEncoding<'a> {
    /// The whole encoding of a field.
    pub fn new(delimiters: &Delimiters, field: &'a Field) -> Self
        ensures { result.piece ++ result.following ≡ encoded_field delimiters.now field.now }
    {
        let mut chunk = Chunk::new();
        let cursor = begin_field(&mut chunk, *delimiters, field);
        FieldEncoding { chunk, cursor }
    }

    /// The piece, which has a byte; none where nothing is left.
    pub fn piece(&self) -> Option<&[u8]>
        ensures { MatchOption result ((self.now.piece ≡ []) × (self.now.following ≡ []))
            (λ piece. (piece.now ≡ self.now.piece) × (0 < length self.now.piece)) }
    {
        if self.chunk.is_empty() {
            return None;
        }
        Some(self.chunk.as_slice())
    }

    /// Passes over the piece.
    pub fn advance(&mut self)
        ensures { self.new.piece ++ self.new.following ≡ self.old.following }
    {
        self.chunk.clear();
        self.cursor.fill(&mut self.chunk);
    }
}
