//! What a table of places says of its record.

ghost use Rattle.std.specs.Prelude.{◌≡◌, ℕ, List, map};
ghost use Rattle.lis_record_values.specs.declared.kinds.Kind.{Kind};
ghost use Rattle.lis_record_values.specs.Delimiters.{DelimiterBytes};
ghost use Rattle.lis_record.specs.Borrowed.{record_in};
ghost use Rattle.lis_table.specs.Entries.{entries_of, entry_at};
ghost use Rattle.lis_table.specs.Table.{table_of};

/// The bytes that a table's entries name, read as components, are the record's components one by one and in order, each
/// with the number of its field and the places of its repeat and component: none is missed and none is added.
pub fn read_as_components()
    ensures { (d : DelimiterBytes) (kind : Kind) (text : List ℕ) →
        map (entry_at d text) (table_of d kind text) ≡ entries_of (record_in d kind text).content }
{}
