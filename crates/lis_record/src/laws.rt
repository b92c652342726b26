//! What holds of all records, over the definitions that the contracts cite.

ghost use Rattle.std.specs.Prelude.{◌≡◌, ◌↔◌, ◌∷◌, [], ℕ, List, None};
ghost use Rattle.lis_record_values.specs.Delimiters.{DelimiterBytes, IsDelimiters};
ghost use Rattle.lis_record.specs.Faultless.{IsSomeHeader, IsSomeRecord};
ghost use Rattle.lis_record_write.specs.WriteFaults.{check_fault};
ghost use Rattle.lis_record.specs.Faults.{header_fault, record_fault};
ghost use Rattle.lis_record_values.specs.Escapes.{IsComponent};
ghost use Rattle.lis_record_values.specs.Relation.{AreFieldTexts, IsField, IsRecord, IsRepeat};
ghost use Rattle.lis_record_values.specs.Shape.{Components, Fields, IsRecordShape, RecordContent, Repeats, Symbols};
ghost use Rattle.lis_record_read.specs.FrontReading.{components_of, fields_of, repeats_of, symbols_of};
ghost use Rattle.lis_record_write.specs.Encoding.{encoded};
ghost use Rattle.lis_record_values.specs.declared.kinds.Kind.TheVariants as kinds;

/// A record that can be written is read back: its encoding is a text of it, and of no other record.
pub fn read_back()
    ensures related { (d : DelimiterBytes) (content : RecordContent) → IsDelimiters d → IsRecordShape content
        → check_fault d content ≡ None → IsRecord d (encoded d content) content }
    ensures alone { (d : DelimiterBytes) (content other : RecordContent) → IsDelimiters d → IsRecordShape content
        → check_fault d content ≡ None → IsRecord d (encoded d content) other → other ≡ content }
{}

/// A text is one record at most, and its letter reports the kind. A header's text has one set of delimiters.
pub fn one_record()
    ensures content { (d : DelimiterBytes) (text : List ℕ) (r s : RecordContent) → IsDelimiters d
        → IsRecord d text r → IsRecord d text s → r ≡ s }
    ensures kind { (d e : DelimiterBytes) (text : List ℕ) (r s : RecordContent)
        → IsRecord d text r → IsRecord e text s → r.kind ≡ s.kind }
    ensures header { (d e : DelimiterBytes) (text : List ℕ) (r s : RecordContent) → IsDelimiters d → r.kind ≡ kinds.H
        → IsRecord d text r → IsRecord e text s → (d ≡ e) × (r ≡ s) }
{}

/// A text without a fault is a record, and a record's text has none; so with a header, under the delimiters that it
/// declares (LIS02-A2, Delimiters, and Data Record Usage Overview).
pub fn record_or_fault()
    ensures found { (d : DelimiterBytes) (text : List ℕ) → IsDelimiters d → record_fault d text ≡ None
        → IsSomeRecord d text }
    ensures no_fault { (d : DelimiterBytes) (text : List ℕ) → IsSomeRecord d text → record_fault d text ≡ None }
    ensures header_found { (text : List ℕ) → header_fault text ≡ None → IsSomeHeader text }
    ensures no_header_fault { (text : List ℕ) → IsSomeHeader text → header_fault text ≡ None }
{}

/// What is read from a text's front is what the text is, and nothing else is (LIS02-A2, Delimiters): a component, as
/// `BorrowedSymbols::of_text` reads it, a repeat, a field, as `read_field` does, and the fields after a letter, as
/// `read_fields` does. After a letter is nothing, or a field delimiter first.
pub fn front_reading()
    ensures component { (d : DelimiterBytes) (text : List ℕ) (symbols : Symbols) → IsDelimiters d
        → IsComponent d text symbols ↔ (symbols ≡ symbols_of d text) }
    ensures repeat { (d : DelimiterBytes) (text : List ℕ) (components : Components) → IsDelimiters d
        → IsRepeat d text components ↔ (components ≡ components_of d text) }
    ensures field { (d : DelimiterBytes) (text : List ℕ) (repeats : Repeats) → IsDelimiters d
        → IsField d text repeats ↔ (repeats ≡ repeats_of d text) }
    ensures fields { (d : DelimiterBytes) (bytes : List ℕ) (fields : Fields) → IsDelimiters d
        → AreFieldTexts d (d.field ∷ bytes) fields ↔ (fields ≡ fields_of d (d.field ∷ bytes)) }
    ensures no_field { (d : DelimiterBytes) (fields : Fields) → IsDelimiters d
        → AreFieldTexts d [] fields ↔ (fields ≡ []) }
{}
