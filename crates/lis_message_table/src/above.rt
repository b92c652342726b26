//! The records that the next one of a message may be under (LIS02-A2).

ghost use Rattle.std.specs.Prelude.{◌≡◌};
ghost use Rattle.lis_message_table.specs.inside.Above.{above_after, nothing_above, parent_of};

use lis_record_values::Kind;

/// The index of the last record that is no note, and those of the last patient and the last order.
#[derive(Clone, Copy)]
pub(crate) struct Above {
    head: usize,
    patient: usize,
    order: usize,
}

impl Above {
    /// Before the header.
    pub(crate) fn nothing() -> Self
        ensures { result ≡ nothing_above }
    {
        Above {
            head: 0,
            patient: 0,
            order: 0,
        }
    }

    /// Takes the next record, of this kind and at this index, and answers the index of the record that it is under.
    #[inline(always)]
    pub(crate) fn take(&mut self, kind: Kind, index: usize) -> usize
        ensures parent { result ≡ parent_of self.old kind }
        ensures after { self.new ≡ above_after self.old index kind }
    {
        let parent = match kind {
            Kind::C | Kind::M | Kind::S => return self.head,
            Kind::H | Kind::Q | Kind::L => 0,
            Kind::P => {
                self.patient = index;
                0
            }
            Kind::O => {
                self.order = index;
                self.patient
            }
            Kind::R => self.order,
        };
        self.head = index;
        parent
    }
}
