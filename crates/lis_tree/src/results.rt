//! The results of a message, each with the order and the patient that it belongs to (LIS02-A2).

ghost use Rattle.std.specs.Prelude.{◌≡◌, ◌<◌, ◌∷◌, [], MatchOption, None, length, true, false};
ghost use Rattle.std.specs.Iterator.{YieldsFirstBy, item_count};
ghost use Rattle.lis_tree.specs.Results.{group_results, order_left, results_left};
ghost use Rattle.lis_tree.specs.inside.ResultsLeft.{size_left};
ghost use Rattle.std.specs.List.{flat_map};

use crate::tree::{Group, Order, Patient, ResultEntry};
use std::marker::Model;

/// A result of a message.
#[derive(Clone, Copy, Debug)]
pub struct PlacedResult<'a> {
    /// The patient that its order belongs to.
    pub patient: &'a Patient,
    /// The order that it belongs to.
    pub order: &'a Order,
    /// The result, with its notes.
    pub entry: &'a ResultEntry,
}

/// The results of a message that are left, in order.
#[derive(Drop)]
pub struct Results<'a> {
    patient: Option<&'a Patient>,
    order: Option<&'a Order>,
    entries: &'a [ResultEntry],
    orders: &'a [Order],
    groups: &'a [Group],
}

impl<'a> Model for Results<'a> {
    ghost use Rattle.std.specs.Option.{option_copied};
    ghost use Rattle.lis_tree.specs.Results.{ResultsLeft};

    ghost Value = { ResultsLeft };

    ghost view = { λ r. record {
      patient = option_copied r.patient;
      order = option_copied r.order;
      entries = r.entries.now;
      orders = r.orders.now;
      groups = r.groups.now;
    } };
}

impl<'a> Results<'a> {
    /// All results of these patients and queries.
    pub(crate) fn new(groups: &'a [Group]) -> Self
        ensures { results_left result ≡ flat_map group_results groups.now }
    {
        Results {
            patient: None,
            order: None,
            entries: &[],
            orders: &[],
            groups,
        }
    }

    /// The next result of the order.
    fn take(&mut self) -> Option<PlacedResult<'a>>
        ensures { MatchOption result
            ((order_left self.old.patient self.old.order self.old.entries ≡ []) × (self.new ≡ self.old))
            (λ found. results_left self.old
            ≡ record { patient = found.patient.now; order = found.order.now; entry = found.entry.now }
            ∷ results_left self.new) }
    {
        let (Some(patient), Some(order)) = (self.patient, self.order) else {
            return None;
        };
        let (entry, rest) = self.entries.split_first()?;
        self.entries = rest;
        Some(PlacedResult {
            patient,
            order,
            entry,
        })
    }

    /// Goes on to the next order of the patient, or to the next patient or query; says whether there was one.
    fn go_on(&mut self) -> bool
        requires { order_left self.old.patient self.old.order self.old.entries ≡ [] }
        ensures same { results_left self.new ≡ results_left self.old }
        ensures more { result ≡ true → size_left self.new < size_left self.old }
        ensures none { result ≡ false → results_left self.old ≡ [] }
    {
        if self.patient.is_some()
            && let Some((order, rest)) = self.orders.split_first()
        {
            self.orders = rest;
            self.order = Some(order);
            self.entries = order.results();
            return true;
        }
        let Some((group, rest)) = self.groups.split_first() else {
            return false;
        };
        self.groups = rest;
        self.order = None;
        self.patient = match group {
            Group::Patient(patient) => {
                self.orders = patient.orders();
                Some(patient)
            }
            Group::Query(_query) => None,
        };
        true
    }
}

impl<'a> Iterator for Results<'a> {
    type Item = PlacedResult<'a>;

    ghost next_gives = { YieldsFirstBy
        (λ found. record { patient = found.patient.now; order = found.order.now; entry = found.entry.now })
        results_left };

    ghost remaining = { item_count results_left };

    fn next(&mut self) -> Option<PlacedResult<'a>> {
        loop {
            if let Some(found) = self.take() {
                return Some(found);
            }
            if !self.go_on() {
                return None;
            }
        }
    }
}
