//! The tree of a message while its records come: each joins the node that is last or begins one below it, and no
//! other node moves.
ghost use Rattle.std.specs.Prelude.{◌≡◌, ◌≢◌, ◌∷◌, [], ◌++◌, None, OnErr, OnOk};
ghost use Rattle.lis_record_values.specs.declared.kinds.Kind.TheVariants as kinds;
ghost use Rattle.lis_tree.specs.Level.{misplaced};
ghost use Rattle.lis_tree.specs.Tree.{group_records, order_records, patient_records, IsGroup, IsOrder, IsPatient};
ghost use Rattle.lis_tree.specs.Front.{IsFront, front_records};
ghost use Rattle.lis_tree.specs.inside.Front.{front_level};
ghost use Rattle.lis_tree.specs.inside.Joining.{JoinsGroup, JoinsOrder, JoinsPatient};
ghost use Rattle.lis_tree.specs.Position.{position_level};

use crate::position::Position;
use crate::tree::{Annotated, Branch, Group, Order, Patient};
use lis_record_values::{Kind, Record};
use std::alloc::{AllocError, Global};

/// The header with its notes, and the patients and queries so far.
pub(crate) type Front = Branch<Group>;

/// Where the next record will be.
pub(crate) fn position(front: &Front) -> Position
    ensures { position_level result ≡ front_level front.now }
{
    match front.below().last() {
        None => Position::InHeader,
        Some(Group::Query(_)) => Position::InQuery,
        Some(Group::Patient(patient)) => {
            if patient.orders().is_empty() {
                Position::InPatient
            } else {
                Position::InOrder
            }
        }
    }
}

/// Adds a result to an order; a note joins the last result, or the order where it has none.
fn push_in_order(alloc: Global, order: &mut Order, entry: Record) -> Result<(), AllocError>
    ensures records { OnOk result (order_records order.new ≡ order_records order.old ++ entry ∷ []) }
    ensures shape { OnOk result (IsOrder order.old → JoinsOrder entry.kind → IsOrder order.new) }
    ensures err { OnErr result (order.new ≡ order.old) }
{
    if let Kind::R = entry.kind() {
        return order.push(Annotated::new(alloc, entry));
    }
    match order.last_mut() {
        Some(last) => last.push(entry),
        None => order.push_note(entry),
    }
}

/// Adds an order to a patient; another record joins the last order, or the patient where it has none.
fn push_in_patient(alloc: Global, patient: &mut Patient, entry: Record) -> Result<(), AllocError>
    ensures records { OnOk result (patient_records patient.new ≡ patient_records patient.old ++ entry ∷ []) }
    ensures shape { OnOk result (IsPatient patient.old → JoinsPatient patient.old.below entry.kind
        → IsPatient patient.new) }
    ensures err { OnErr result (patient.new ≡ patient.old) }
{
    if let Kind::O = entry.kind() {
        return patient.push(Order::new(alloc, Annotated::new(alloc, entry)));
    }
    match patient.last_mut() {
        Some(last) => push_in_order(alloc, last, entry),
        None => patient.push_note(entry),
    }
}

/// Adds a record to a patient, or a note to a query.
fn push_in_group(alloc: Global, group: &mut Group, entry: Record) -> Result<(), AllocError>
    ensures records { OnOk result (group_records group.new ≡ group_records group.old ++ entry ∷ []) }
    ensures shape { OnOk result (IsGroup group.old → JoinsGroup group.old entry.kind → IsGroup group.new) }
    ensures err { OnErr result (group.new ≡ group.old) }
{
    match group {
        Group::Patient(patient) => push_in_patient(alloc, patient, entry),
        Group::Query(query) => query.push(entry),
    }
}

/// Adds a patient or a query to a message; another record, which may be there, joins the last of these, or the
/// header where there is none. If memory runs out all is as before.
pub(crate) fn push_record(alloc: Global, front: &mut Front, entry: Record) -> Result<(), AllocError>
    requires placed { misplaced (front_level front.old) entry.kind ≡ None }
    requires open { entry.kind ≢ kinds.L }
    ensures records { OnOk result (front_records front.new ≡ front_records front.old ++ entry ∷ []) }
    ensures shape { OnOk result (IsFront front.old → IsFront front.new) }
    ensures err { OnErr result (front.new ≡ front.old) }
{
    match entry.kind() {
        Kind::P => {
            return front.push(Group::Patient(Patient::new(alloc, Annotated::new(alloc, entry))));
        }
        Kind::Q => return front.push(Group::Query(Annotated::new(alloc, entry))),
        _ => {}
    }
    match front.last_mut() {
        Some(last) => push_in_group(alloc, last, entry),
        None => front.push_note(entry),
    }
}
