//! What holds of tables and messages, over the definitions that the contracts cite.

ghost use Rattle.std.specs.Prelude.{◌≡◌, ◌≢◌, ◌∷◌, ◌++◌, ℕ, IfSome, List, Option, map};
ghost use Rattle.lis_record_values.specs.declared.faults.MessageFault.{MessageFault};
ghost use Rattle.lis_record_values.specs.declared.faults.Reason.TheVariants as reasons;
ghost use Rattle.lis_table.specs.Entries.{entries_of};
ghost use Rattle.lis_tree.specs.Results.{result_record, results_of};
ghost use Rattle.lis_tree.specs.Tree.{MessageTree, flatten};
ghost use Rattle.lis_message.specs.Feeding.{ReadsWhole};
ghost use Rattle.lis_message_table.specs.Results.{results_in};
ghost use Rattle.lis_message_table.specs.Table.{IsTableOf, Table, contents_of, entries_in};

/// The records at the places of a message's table are those of its tree, in the same order, and so are the components
/// that their parts are read as.
pub fn read_as_tree()
    ensures records { (t : Table) (m : MessageTree) → IsTableOf t m → contents_of t ≡ flatten m }
    ensures components { (t : Table) (m : MessageTree) → IsTableOf t m → entries_in t ≡ map entries_of (flatten m) }
{}

/// The result records at the places of a message's table, each with the record that it is under and the one that this
/// is under, are the results of its tree with their orders and patients, in the same order.
pub fn results()
    ensures { (t : Table) (m : MessageTree) → IsTableOf t m → results_in t ≡ map result_record (results_of m) }
{}

/// A text is read in one way, unless memory runs out: the messages and the fault are the same, whether trees or tables
/// are made of it.
pub fn read_in_one_way()
    ensures { (text : List ℕ) (ms ns : List MessageTree) (f g : Option MessageFault)
        → ReadsWhole text ms f → ReadsWhole text ns g → IfSome f (λ x. x.reason ≢ reasons.OutOfMemory)
        → IfSome g (λ x. x.reason ≢ reasons.OutOfMemory) → (ms ≡ ns) × (f ≡ g) }
{}

/// A table is that of one message at most. Where a text begins with its message, what reading the text gives is that
/// message and then what reading the bytes after it gives, with the same fault: tables that are read one after another
/// are the messages that `read_messages` gives.
pub fn one_after_another()
    ensures one { (t : Table) (m n : MessageTree) → IsTableOf t m → IsTableOf t n → m ≡ n }
    ensures reads { (t : Table) (m : MessageTree) → IsTableOf t m → (following : List ℕ)
        (messages : List MessageTree) (fault : Option MessageFault)
        → ReadsWhole following messages fault → ReadsWhole (t.text ++ following) (m ∷ messages) fault }
{}
