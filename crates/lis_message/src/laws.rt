//! What holds of all messages and streams, over the definitions that the contracts cite.
ghost use Rattle.std.specs.Option.{option_to_list};
ghost use Rattle.std.specs.Prelude.{◌≡◌, ◌++◌, ℕ, List, [], Option, None};
ghost use Rattle.std.specs.List.{AllByRecursion, flat_map};
ghost use Rattle.lis_record_values.specs.declared.kinds.Kind.TheVariants as kinds;
ghost use Rattle.lis_record_values.specs.Delimiters.{DelimiterBytes};
ghost use Rattle.lis_message.specs.Taking.{Completes, left_after};
ghost use Rattle.lis_record.specs.Borrowed.{Borrowed};
ghost use Rattle.lis_record_values.specs.Relation.{IsRecord};
ghost use Rattle.lis_record_values.specs.Shape.{RecordContent};
ghost use Rattle.lis_record_values.specs.declared.faults.MessageFault.{MessageFault};
ghost use Rattle.lis_tree.specs.Begun.{Begun};
ghost use Rattle.lis_message.specs.Feeding.{StopsReading};
ghost use Rattle.lis_message.specs.Kept.{RecordsState};
ghost use Rattle.lis_message.specs.Records.{IsReadUpTo, ReadsOn, ReadsRecord, Refuses};
ghost use Rattle.lis_message.specs.Stream.{IsSplit, IsMessage, IsReadFrom, IsRefused};
ghost use Rattle.lis_tree.specs.Tree.{MessageTree, IsTree, flatten};
ghost use Rattle.lis_message.specs.Writing.{message_bytes, IsWritable};

/// Messages that can be written are read back: the bytes of one are that message, and those of several in a row are
/// split into them, with nothing left, and into nothing else.
pub fn read_back()
    ensures message { (m : MessageTree) → IsTree m → IsWritable m → IsMessage (message_bytes m) m }
    ensures split { (ms : List MessageTree) → AllByRecursion IsTree ms → AllByRecursion IsWritable ms
        → IsSplit (flat_map message_bytes ms) ms None [] }
    ensures alone { (ms : List MessageTree) → AllByRecursion IsTree ms → AllByRecursion IsWritable ms
        → (others : List MessageTree) (left : Option Begun) (held : List ℕ)
        → IsSplit (flat_map message_bytes ms) others left held
        → (others ≡ ms) × (left ≡ None) × (held ≡ []) }
{}

/// A stream is split in one way at most, and one with a rejected record in none; it is rejected in one way at most.
/// So it doesn't matter in which pieces it comes.
pub fn one_split()
    ensures one { (stream : List ℕ) (m n : List MessageTree) (l k : Option Begun) (h g : List ℕ)
        → IsSplit stream m l h → IsSplit stream n k g → (m ≡ n) × (l ≡ k) × (h ≡ g) }
    ensures none { (stream : List ℕ) (m n : List MessageTree) (fault : MessageFault) (l : Option Begun) (h : List ℕ)
        → IsRefused stream m fault → ¬ (IsSplit stream n l h) }
    ensures refusal { (stream : List ℕ) (m n : List MessageTree) (f g : MessageFault)
        → IsRefused stream m f → IsRefused stream n g → (m ≡ n) × (f ≡ g) }
{}

/// A message is determined by its records and its delimiters, and those by its header's text.
pub fn one_tree()
    ensures tree { (m n : MessageTree) → IsTree m → IsTree n → m.delimiters ≡ n.delimiters → flatten m ≡ flatten n
        → m ≡ n }
    ensures delimiters { (d e : DelimiterBytes) (text : List ℕ) (r s : RecordContent) → IsRecord d text r
        → IsRecord e text s
        → r.kind ≡ kinds.H → s.kind ≡ kinds.H → d ≡ e }
{}

/// Every stream is split or rejected. What follows a stream that is split leaves the messages of it as they are, and
/// adds further ones.
pub fn every_stream()
    ensures read { (stream : List ℕ) → IsReadFrom stream [] }
    ensures longer { (front more : List ℕ) (messages : List MessageTree) (left : Option Begun) (held : List ℕ)
        → IsSplit front messages left held → IsReadFrom (front ++ more) messages }
{}

/// A reader of records reads the stream. Where a stream is split and the reader holds its last bytes, then each record
/// that it reports is the next of the stream, and the closing one completes a message; bytes that it holds are the
/// stream's last; and where it reports a fault, the stream with these bytes is rejected for it, or memory was.
pub fn records_of_a_stream()
    ensures record { (before after : RecordsState) (stream : List ℕ) (messages : List MessageTree)
        (left : Option Begun) (bytes following : List ℕ) (entry : Borrowed RecordContent)
        → IsSplit stream messages left before.held → ReadsRecord before after left bytes following entry
        → (message : Option MessageTree) × Completes left entry message
        × IsReadUpTo stream bytes following (messages ++ option_to_list message)
        (left_after left entry entry.content.kind) after.held }
    ensures held { (before after : RecordsState) (stream : List ℕ) (messages : List MessageTree)
        (left : Option Begun) (bytes following : List ℕ)
        → IsSplit stream messages left before.held → ReadsOn before after left bytes following
        → IsSplit (stream ++ bytes) messages left after.held }
    ensures refused { (before after : RecordsState) (stream : List ℕ) (messages : List MessageTree)
        (left : Option Begun) (bytes following : List ℕ) (fault : MessageFault)
        → IsSplit stream messages left before.held → Refuses before after left bytes following fault
        → StopsReading (stream ++ bytes) messages fault }
{}
