// How the seats of a heap are dealt, one by one, from one that knows all.
ghost use Rattle.std.specs.Prelude.{◌≡◌, [], replicate, IfOk};
ghost use Rattle.mont_base.specs.Layout.{units_of};
ghost use Rattle.heap_rule.specs.Views.{view_without};
ghost use Rattle.heap.specs.Opens.{dealt_units, dealt_callers};

use crate::heap::Heap;
use crate::seats::{Ticket, UnitSeat};
use atomic_table::Seat;
use heap_rule::{Cell, FirstCaller, FirstUnit, View};
use mont_base::Sequence;
use std::alloc::{AllocError, Global};

impl Heap {
    // Deals the seats of all units.
    pub(crate) fn deal_units(
        &self,
        alloc: Global,
        all: &mut Seat<Cell, View>,
    ) -> Result<Vec<UnitSeat>, AllocError>
        requires heap { all.old.table_id ≡ self.now.table }
        requires view { all.old.me ≡ (view_without self.now.opening 0 0, []) }
        ensures units { IfOk result (λ units. units.items ≡ dealt_units self.now.table
            self.now.opening (units_of self.now.opening.layout)) }
        ensures rest { IfOk result (λ _. all.new.me
            ≡ (view_without self.now.opening (units_of self.now.opening.layout) 0, [])) }
        ensures heap { IfOk result (λ _. all.new.table_id ≡ all.old.table_id) }
    {
        let mut units = Vec::new(alloc);
        for unit in 0..self.layout.units() {
            let seat = self.table.shared.split_seat::<FirstUnit>(all);
            units.push(UnitSeat {
                seat,
                unit,
                epoch: 0,
                entries: 0,
                newest: 0,
                durable: 0,
            })?;
        }
        Ok(units)
    }

    // Deals the tickets of all callers.
    pub(crate) fn deal_callers(
        &self,
        alloc: Global,
        all: &mut Seat<Cell, View>,
        callers: u64,
    ) -> Result<Vec<Ticket>, AllocError>
        requires heap { all.old.table_id ≡ self.now.table }
        requires callers { callers ≡ self.now.opening.callers }
        requires view { all.old.me
            ≡ (view_without self.now.opening (units_of self.now.opening.layout) 0, []) }
        ensures callers { IfOk result (λ tickets. tickets.items
            ≡ dealt_callers self.now.table self.now.opening callers) }
        ensures rest { IfOk result (λ _. all.new.me ≡ (
          view_without
              self.now.opening (units_of self.now.opening.layout) callers,
          [],
        )) }
        ensures heap { IfOk result (λ _. all.new.table_id ≡ all.old.table_id) }
    {
        let mut tickets = Vec::new(alloc);
        for number in 0..callers {
            let fronts = zeros(alloc, self.layout.units())?;
            let synced = zeros(alloc, self.layout.units())?;
            let seat = self.table.shared.split_seat::<FirstCaller>(all);
            tickets.push(Ticket {
                seat,
                number,
                calls: 0,
                fronts,
                synced,
                newest: 0,
                durable: 0,
            })?;
        }
        Ok(tickets)
    }
}

// So many zeros.
pub(crate) fn zeros(alloc: Global, count: u64) -> Result<Sequence<u64>, AllocError>
    ensures { IfOk result (λ numbers. numbers ≡ replicate count 0) }
{
    let numbers = vec![in alloc; 0; count as usize]?;
    Ok(Sequence::from_vec(numbers))
}
