// A heap that is opened, with all its seats.
ghost use Rattle.std.specs.Prelude.{◌≡◌, ◌≤◌, ◌*◌, [], replicate, IfOk};
ghost use Rattle.mont_base.specs.declared.constants.TheConstants.{LAST};
ghost use Rattle.mont_base.specs.Layout.{units_of};
ghost use Rattle.mont_base.specs.Image.{IsWellFormed, clock_of};
ghost use Rattle.heap_rule.specs.TableWords.{laid_out};
ghost use Rattle.heap_rule.specs.Views.{first_advancer, listing, view_without};
ghost use Rattle.heap.specs.Opens.{Opens};

use crate::dealing::zeros;
use crate::heap::Heap;
use crate::seats::{AdvSeat, Ticket, UnitSeat};
use atomic_table::{Refused, Seat, Table};
use core_steps::AdvPart;
use heap_rule::{Cell, Opening, OpeningWords, Rule, View};
use mont_base::{Epoch, Layout, Sequence, SlotList};
use std::alloc::{AllocError, Global};

/// All seats of a heap.
#[derive(Drop)]
pub struct Seats {
    pub units: Vec<UnitSeat>,
    pub advancer: AdvSeat,
    pub callers: Vec<Ticket>,
}

impl Heap {
    /// A heap with these words as its current and as its durable words, and its seats.
    pub fn of_words(
        alloc: Global,
        layout: Layout,
        words: &[u64],
        callers: u64,
    ) -> Result<(Heap, Seats), AllocError>
        requires callers { (1 ≤ callers) × (callers ≤ 8) }
        requires words { IsWellFormed layout words.now }
        ensures { IfOk result (λ r. Opens
            (record { layout = layout; words = words.now; callers = callers })
            r.0 r.1.units.items r.1.advancer r.1.callers.items) }
    {
        let all = table_words(alloc, layout, words)?;
        let given = Sequence::from_vec(Vec::from_slice(alloc, words)?);
        let opening = Opening {
            layout,
            words: OpeningWords::given(layout, given),
            callers,
        };
        Heap::opened(alloc, opening, &all)
    }

    // The heap that opens so, with these words of its table, and its seats.
    pub(crate) fn opened(
        alloc: Global,
        opening: Opening,
        words: &[u64],
    ) -> Result<(Heap, Seats), AllocError>
        requires callers { (1 ≤ opening.callers) × (opening.callers ≤ 8) }
        requires words { IsWellFormed opening.layout opening.words }
        requires laid { words.now
            ≡ laid_out opening.words opening.words (replicate (units_of opening.layout) 0) }
        ensures { IfOk result (λ r. Opens opening
            r.0 r.1.units.items r.1.advancer r.1.callers.items) }
    {
        let (heap, mut all) = table_of(alloc, &opening, words)?;
        let units = heap.deal_units(alloc, &mut all)?;
        let callers = heap.deal_callers(alloc, &mut all, opening.callers)?;
        let clock = words[0];
        let advancer = heap.advancer_left(all, clock);
        let seats = Seats {
            units,
            advancer,
            callers,
        };
        Ok((heap, seats))
    }

    // The advancer's seat, which is what is left once all others are dealt.
    fn advancer_left(&self, all: Seat<Cell, View>, clock: Epoch) -> AdvSeat
        requires heap { all.table_id ≡ self.now.table }
        requires left { all.me ≡ (
          view_without self.now.opening
              (units_of self.now.opening.layout) self.now.opening.callers,
          [],
        ) }
        requires clock { clock ≡ clock_of self.now.opening.words }
        requires last { clock ≤ LAST }
        ensures { result
            ≡ record { table = self.now.table; known = first_advancer self.now.opening } }
    {
        let many = self.layout.units();
        prove!(many > 0);
        AdvSeat {
            seat: all,
            part: AdvPart::Rest,
            clock,
            durable: clock,
            emptied: 0,
        }
    }
}

// The heap, and a seat that knows all.
fn table_of(
    alloc: Global,
    opening: &Opening,
    words: &[u64],
) -> Result<(Heap, Seat<Cell, View>), AllocError>
    requires well_formed { IsWellFormed opening.now.layout opening.now.words }
    requires laid { words.now ≡ laid_out opening.now.words opening.now.words
        (replicate (units_of opening.now.layout) 0) }
    ensures { IfOk result (λ r. (r.0.opening ≡ opening.now)
        × (r.1.table_id ≡ r.0.table) × (r.1.me ≡ (view_without r.0.opening 0 0, []))) }
{
    let layout = opening.layout;
    let lists = empty_lists(alloc, 2 * layout.units(), layout.slots())?;
    match Table::<Cell, View, Opening, Rule, Global>::new(alloc, words, lists, opening) {
        Ok((table, all)) => Ok((Heap { table, layout }, all)),
        Err(Refused { slots: _ }) => Err(AllocError),
    }
}

// The words twice, and announcements of nothing.
fn table_words(alloc: Global, layout: Layout, words: &[u64]) -> Result<Vec<u64>, AllocError>
    ensures { IfOk result (λ all. all.items
        ≡ laid_out words.now words.now (replicate (units_of layout) 0)) }
{
    let told = zeros(alloc, 8 * layout.units())?;
    let mut all = Vec::with_capacity(alloc, (2 * layout.words() + 8 * layout.units()) as usize)?;
    all.extend_from_slice(words)?;
    all.extend_from_slice(words)?;
    all.extend_from_slice(told.as_slice())?;
    Ok(all)
}

// So many lists with room for so many slots.
fn empty_lists(alloc: Global, count: u64, room: u64) -> Result<Vec<Cell>, AllocError>
    ensures { IfOk result (λ lists. lists.items ≡ replicate count (listing room [])) }
{
    let mut lists = Vec::new(alloc);
    for _list in 0..count {
        lists.push(Some(SlotList::with_room(alloc, room)?))?;
    }
    Ok(lists)
}
