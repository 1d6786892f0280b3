// A store that is kept plainly: words of slots in which each operation is written as the plain
// structures change, and the operations that the crashes have left.
ghost use Rattle.std.specs.Prelude.{◌≡◌, false, IsTrue, IfOk};
ghost use Rattle.mont_image.specs.Picking.{HasClock};

use crate::drawn_images::Draws;
use crate::plain_judge::held_in;
use crate::plain_records::record_of;
use case_file::Unanswered;
use case_image::record_words;
use job_text::write_contents;
use mont_base::{
    BODY, Effect, Epoch, FIELDS, FIRST_CLOCK, Held, LAST, Label, Layout, Op, Sequence, Slot, Unit,
    Words,
};
use mont_image::{Image, pick};
use plain::{Contents, UnitState};
use std::alloc::{AllocError, Global};

const UNCLEAR: Unanswered = Unanswered::Unclear { head: "chains" };

/// The words of all slots, and the operations that crashes left.
#[derive(Drop)]
pub struct PlainStore {
    layout: Layout,
    slots: Vec<u64>,
    kept: Vec<(Unit, Op)>,
}

impl PlainStore {
    /// A store that was never used.
    pub fn fresh(alloc: Global, layout: Layout) -> Result<PlainStore, AllocError> {
        let mut slots = Vec::new(alloc);
        for _ in 0..layout.total() {
            slots.extend_from_slice(&[0; FIELDS])?;
        }
        let kept = Vec::new(alloc);
        Ok(PlainStore {
            layout,
            slots,
            kept,
        })
    }

    /// Takes the words of an image over.
    pub fn take_image(&mut self, alloc: Global, image: &Image) -> Result<(), AllocError> {
        let mut slots = Vec::new(alloc);
        for word in image.words.as_slice().iter().skip(1) {
            slots.push(*word)?;
        }
        self.slots = slots;
        Ok(())
    }

    /// Draws changes in the epochs from one to another, which is the clock when it crashes. The
    /// crash leaves those of the epochs up to two before the clock.
    pub fn run(
        &mut self,
        alloc: Global,
        draws: &mut Draws,
        from: Epoch,
        clock: Epoch,
    ) -> Result<(), Unanswered> {
        let mut states = self.states(alloc)?;
        for epoch in from..clock.saturating_add(1) {
            let kept = epoch <= clock.saturating_sub(2);
            for _ in 0..draws.below(8) {
                self.change(alloc, draws, states.as_mut_slice(), epoch, kept)?;
            }
        }
        Ok(())
    }

    // Draws a change and carries it out, which crashes leave or don't.
    fn change(
        &mut self,
        alloc: Global,
        draws: &mut Draws,
        states: &mut [UnitState],
        epoch: Epoch,
        kept: bool,
    ) -> Result<(), Unanswered> {
        let Some(change) = draws.change(&self.layout) else {
            return Ok(());
        };
        let (unit, op) = change;
        let Some(state) = states.get_mut(unit as usize) else {
            return Ok(());
        };
        let changed = self.carry_out(alloc, draws, state, unit, &op, epoch)?;
        if changed && kept {
            self.kept.push(change)?;
        }
        Ok(())
    }

    // Carries an operation out, if it changes something and there is room for that.
    fn carry_out(
        &mut self,
        alloc: Global,
        draws: &mut Draws,
        state: &mut UnitState,
        unit: Unit,
        op: &Op,
        epoch: Epoch,
    ) -> Result<bool, Unanswered> {
        let effects = state.effects(alloc, op)?;
        let changed = self.write_all(alloc, draws, unit, epoch, &effects)?;
        if changed {
            let _reply = state.apply(op)?;
        }
        Ok(changed)
    }

    // Writes these effects, if there are any and there is room for them.
    fn write_all(
        &mut self,
        alloc: Global,
        draws: &mut Draws,
        unit: Unit,
        epoch: Epoch,
        effects: &[Effect],
    ) -> Result<bool, Unanswered> {
        let room = self.free_slots(alloc, unit)?.len();
        if effects.is_empty() || effects.len() > room {
            return Ok(false);
        }
        for effect in effects {
            self.write(alloc, draws, unit, epoch, *effect)?;
        }
        Ok(true)
    }

    // Writes an effect into a free slot of the unit.
    fn write(
        &mut self,
        alloc: Global,
        draws: &mut Draws,
        unit: Unit,
        epoch: Epoch,
        effect: Effect,
    ) -> Result<(), Unanswered> {
        let (label, body) = self.next_record(alloc, unit, epoch, effect)?;
        let slot = self.drawn_slot(alloc, draws, unit)?;
        match slot_mut(&mut self.slots, slot) {
            Some(words) => {
                *words = record_words(&label, &body);
                Ok(())
            }
            None => Err(UNCLEAR),
        }
    }

    // The label and the body by which an effect is written.
    fn next_record(
        &self,
        alloc: Global,
        unit: Unit,
        epoch: Epoch,
        effect: Effect,
    ) -> Result<(Label, [u64; BODY]), Unanswered> {
        let records = self.records(alloc, unit)?;
        record_of(alloc, records.as_slice(), unit, epoch, effect)
    }

    // A free slot of the unit.
    fn drawn_slot(&self, alloc: Global, draws: &mut Draws, unit: Unit) -> Result<Slot, Unanswered> {
        let free = self.free_slots(alloc, unit)?;
        let drawn = draws.below(free.len() as u64);
        free.get(drawn as usize).copied().ok_or(UNCLEAR)
    }

    // The records of a unit, of whatever epoch.
    fn records(&self, alloc: Global, unit: Unit) -> Result<Vec<Held>, AllocError> {
        let mut records = Vec::new(alloc);
        let (slots, _rest) = self.slots.as_slice().as_chunks::<FIELDS>();
        for (slot, words) in slots.iter().enumerate() {
            let slot = slot as Slot;
            if self.layout.unit_of_slot(slot) == unit {
                if let Ok(Some(held)) = held_in(unit, slot, words) {
                    records.push(held)?;
                }
            }
        }
        Ok(records)
    }

    // The slots of a unit that are closed.
    fn free_slots(&self, alloc: Global, unit: Unit) -> Result<Vec<Slot>, AllocError> {
        let mut free = Vec::new(alloc);
        for (slot, words) in self.slots.chunks(FIELDS).enumerate() {
            let slot = slot as Slot;
            if self.layout.unit_of_slot(slot) == unit && words.first() == Some(&0) {
                free.push(slot)?;
            }
        }
        Ok(free)
    }

    /// What a crash at this clock leaves by a mask. Of epochs within the cut all is durable, of
    /// later ones nothing.
    pub fn crash(&self, alloc: Global, clock: Epoch, mask: u64) -> Result<Image, Unanswered>
        ensures { IfOk result (λ image. image.old ≡ false) }
    {
        let current = self.current_words(alloc, clock)?;
        let durable = self.durable_words(alloc, clock)?;
        picked(alloc, self.layout, current, durable, mask)
    }

    // The current words, after this clock.
    fn current_words(&self, alloc: Global, clock: Epoch) -> Result<Vec<u64>, AllocError> {
        let mut words = Vec::new(alloc);
        words.push(clock)?;
        words.extend_from_slice(&self.slots)?;
        Ok(words)
    }

    // The words that are durable at this clock, after it.
    fn durable_words(&self, alloc: Global, clock: Epoch) -> Result<Vec<u64>, AllocError> {
        let mut words = Vec::new(alloc);
        words.push(clock)?;
        for of_slot in self.slots.chunks(FIELDS) {
            push_durable(&mut words, of_slot, clock.saturating_sub(2))?;
        }
        Ok(words)
    }

    /// The text of what the operations that crashes left lead to, with this clock.
    pub fn contents_text(&self, alloc: Global, clock: Epoch) -> Result<Vec<u8>, AllocError> {
        let contents = Contents {
            units: Sequence::from_vec(self.states(alloc)?),
        };
        write_contents(alloc, self.layout, clock, &contents)
    }

    // What the operations that crashes left lead to.
    fn states(&self, alloc: Global) -> Result<Vec<UnitState>, AllocError> {
        let mut states = Contents::empty(alloc, self.layout)?.units.into_vec();
        for (unit, op) in &self.kept {
            if let Some(state) = states.get_mut(*unit as usize) {
                let _reply = state.apply(op)?;
            }
        }
        Ok(states)
    }
}

// A slot's words where they are of an epoch up to the cut, and zeros else.
fn push_durable(words: &mut Vec<u64>, of_slot: &[u64], cut: Epoch) -> Result<(), AllocError> {
    if of_slot.first().is_some_and(|epoch| *epoch > cut) {
        words.extend_from_slice(&[0; FIELDS])
    } else {
        words.extend_from_slice(of_slot)
    }
}

/// The image that a mask picks of words.
pub fn picked(
    alloc: Global,
    layout: Layout,
    current: Vec<u64>,
    durable: Vec<u64>,
    mask: u64,
) -> Result<Image, Unanswered>
    ensures { IfOk result (λ image. image.old ≡ false) }
{
    let words = Words {
        layout,
        cur: Sequence::from_vec(current),
        dur: Sequence::from_vec(durable),
    };
    if words.cur.len() != layout.words() || words.dur.len() != layout.words() {
        return Err(UNCLEAR);
    }
    if !has_clock(&words.cur) || !has_clock(&words.dur) {
        return Err(UNCLEAR);
    }
    Ok(pick(alloc, &words, mask)?)
}

// The words of a slot.
fn slot_mut(slots: &mut [u64], slot: Slot) -> Option<&mut [u64; FIELDS]> {
    let first = slot.checked_mul(FIELDS as u64)?;
    slots.get_mut(first as usize..)?.first_chunk_mut::<FIELDS>()
}

// Whether the first word is a clock.
fn has_clock(words: &Sequence<u64>) -> bool
    ensures { IsTrue result → HasClock words.now }
{
    let words = words.as_slice();
    !words.is_empty() && FIRST_CLOCK <= words[0] && words[0] <= LAST
}
