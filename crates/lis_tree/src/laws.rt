//! What holds of the kinds of all lists of records, over the definitions that the contracts cite.
ghost use Rattle.std.specs.Prelude.{◌≡◌, List, [], ◌∷◌, ◌++◌, MatchOption, Option, Some, None, map};
ghost use Rattle.std.specs.Iterator.{item_count};
ghost use Rattle.lis_record_values.specs.declared.kinds.Kind.{Kind};
ghost use Rattle.lis_record_values.specs.declared.faults.MessageFault.{MessageFault};
ghost use Rattle.lis_record_values.specs.declared.faults.Reason.{Reason};
ghost use Rattle.lis_tree.specs.Findings.{findings_of};
ghost use Rattle.lis_tree.specs.Hierarchy.{IsViable};
ghost use Rattle.lis_tree.specs.Level.{AllowedFrom, closed, kinds_of, level_after, misplaced, outside};
ghost use Rattle.lis_tree.specs.ListFaults.{IsListFault};
ghost use Rattle.lis_tree.specs.Notes.{IsNoteOn, Placed, placed};
ghost use Rattle.lis_tree.specs.Places.{number_findings, tree_numbers};
ghost use Rattle.lis_tree.specs.Refusing.{IsClosed, IsRefusedFor};
ghost use Rattle.lis_tree.specs.Results.{ResultsLeft, result_record, results_among, results_left, results_of};
ghost use Rattle.lis_tree.specs.Tree.{IsTree, MessageTree, flatten};

use crate::results::Results;

/// The hierarchy by the place of the next record is that in the standard's words.
pub fn hierarchy()
    ensures viable { (ks : List Kind) → AllowedFrom outside ks → IsViable ks }
    ensures allowed { (ks : List Kind) → IsViable ks → AllowedFrom outside ks }
{}

/// The records of a tree are in the hierarchy, and the last of them closes the message: what `Message::from_records`
/// takes is what a tree has.
pub fn trees()
    ensures viable { (m : MessageTree) → IsTree m → IsViable (kinds_of (flatten m)) }
    ensures allowed { (m : MessageTree) → IsTree m → AllowedFrom outside (kinds_of (flatten m)) }
    ensures closed { (m : MessageTree) → IsTree m → IsClosed (kinds_of (flatten m)) }
{}

/// A list of records in the hierarchy whose last one closes the message has no fault: `Message::from_records` makes the
/// message of it, or memory runs out.
pub fn whole_lists()
    ensures { (ks : List Kind) (fault : MessageFault) → AllowedFrom outside ks → level_after outside ks ≡ closed
        → IsListFault ks fault → ⊥ }
{}

/// Why a record can't come next, by its place, is why it can't in the standard's words: no message is open, one is
/// open already, an order has no patient, or a result no order. Any other may (LIS02-A2).
#[tactic(auto, using(crate::proofs::Refusing::reported_viable, crate::proofs::Refusing::refused_viable))]
pub fn reasons()
    ensures reported { (before : List Kind) (k : Kind) (reason : Reason) → IsViable before
        → misplaced (level_after outside before) k ≡ Some reason → IsRefusedFor before k reason }
    ensures refused { (before : List Kind) (k : Kind) (reason : Reason) → IsViable before
        → IsRefusedFor before k reason → misplaced (level_after outside before) k ≡ Some reason }
    ensures taken { (before : List Kind) (k : Kind) → IsViable before
        → misplaced (level_after outside before) k ≡ None → IsViable (before ++ k ∷ []) }
    ensures next { (before : List Kind) (k : Kind) → IsViable (before ++ k ∷ [])
        → misplaced (level_after outside before) k ≡ None }
{}

/// A comment, a manufacturer's or a scientific record is a note on the last record before it that is no note, and the
/// tree has it there (LIS02-A2).
pub fn notes()
    ensures records { (m : MessageTree) → map (λ p. p.content) (placed m) ≡ flatten m }
    ensures notes { (m : MessageTree) → IsTree m → (before following : List Placed) (p : Placed)
        → placed m ≡ before ++ p ∷ following → IsNoteOn (map (λ q. q.content) before) p.content p.note_on }
{}

/// The findings on a message are those that its tree has: the number that a record should have is its position among
/// the records of its kind under its parent, read off the tree (LIS02-A2).
pub fn numbers()
    ensures { (m : MessageTree) → IsTree m → findings_of m ≡ number_findings 1 (tree_numbers m) (flatten m) }
{}

/// The results that a tree has are the result records of the message, each under the last order record and the last
/// patient record before it (LIS02-A2).
pub fn results()
    ensures { (m : MessageTree) → IsTree m → map result_record (results_of m) ≡ results_among None None (flatten m) }
{}

/// A call of the iterator over a message's results gives the first result that is left, with its order and its patient,
/// and leaves the others; or nothing, if none is left.
pub fn results_in_order()
    ensures next { (s t : ResultsLeft) (r : Option _) → ⟦<Results<'static> as Iterator>⟧.next_gives s r t →
        MatchOption r ((results_left s ≡ []) × (results_left t ≡ [])) (λ found. results_left s
        ≡ record { patient = found.patient.now; order = found.order.now; entry = found.entry.now } ∷ results_left t) }
    ensures remaining { (s : ResultsLeft) → ⟦<Results<'static> as Iterator>⟧.remaining s ≡ item_count results_left s }
{}
