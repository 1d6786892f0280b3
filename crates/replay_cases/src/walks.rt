// Walks of the machine: events that are drawn, and made one after another by `step` of core_run.
use crate::event_draws::EventDraws;
use crate::written_stores::push_stores;
use core_answer::core_words::clock;
use core_run::{StepRefusal, allowed, step};
use core_steps::{AdvPart, Core, Event, Part, UnitStage};
use mont_base::{Effect, Epoch, Layout, Op, Reply, Sequence, Unit};
use plain::{Contents, UnitState};
use replay::Schedule;
use std::alloc::{AllocError, Global};

/// A core, and the schedule that led to it.
#[derive(Drop)]
pub struct Walk {
    pub core: Core,
    pub schedule: Schedule,
    states: Sequence<UnitState>,
    // What each unit does next, the last first.
    plans: Sequence<Vec<Event>>,
    draws: EventDraws,
}

// An operation that is drawn, with its reply and its effects.
#[derive(Drop)]
struct Call {
    caller: u64,
    op: Op,
    reply: Reply,
    effects: Vec<Effect>,
}

impl Walk {
    pub fn begin(
        alloc: Global,
        layout: Layout,
        callers: u64,
        seed: u64,
    ) -> Result<Walk, AllocError> {
        let mut plans = Sequence::new(alloc);
        for _ in 0..layout.units() {
            plans.push(Vec::new(alloc))?;
        }
        Ok(Walk {
            core: Core::fresh(alloc, layout, callers)?,
            schedule: Schedule {
                layout,
                callers,
                events: Sequence::new(alloc),
                runs: Sequence::new(alloc),
            },
            states: Contents::empty(alloc, layout)?.units,
            plans,
            draws: EventDraws::of_seed(seed),
        })
    }

    /// Draws an event and makes it, where it is allowed. One that isn't is dropped, or, now and
    /// then, taken as the last one. It answers whether the walk goes on.
    pub fn go_on(&mut self, alloc: Global) -> Result<bool, AllocError> {
        let Some(event) = self.draw(alloc)? else {
            return Ok(true);
        };
        let made = self.make(alloc, &event)?;
        let refused = !made && self.draws.below(250) == 0;
        if made || refused {
            self.keep_run(alloc, &event)?;
            self.schedule.events.push(event)?;
        }
        Ok(!refused)
    }

    // Makes an event, if it is allowed.
    fn make(&mut self, alloc: Global, event: &Event) -> Result<bool, AllocError> {
        match step(alloc, &mut self.core, event) {
            Ok(()) => {}
            Err(StepRefusal::NotAllowed) => return Ok(false),
            Err(StepRefusal::Memory) => return Err(AllocError),
        }
        if let Event::Leave { unit, op, .. } = event
            && *unit < self.states.len()
        {
            self.states.item_mut(*unit).apply(op)?;
        }
        Ok(true)
    }

    // Keeps the pairs of a range on the state of the unit that answers it.
    fn keep_run(&mut self, alloc: Global, event: &Event) -> Result<(), AllocError> {
        let Event::Read {
            unit,
            op: Op::ORange { from, to, most, .. },
            reply: Reply::Pairs { .. },
            ..
        } = event
        else {
            return Ok(());
        };
        let mut run = Sequence::new(alloc);
        if let Some(UnitState::Ordered { state }) = self.states.get(*unit) {
            for (key, value) in state.iter() {
                if key >= from && key <= to && run.len() < *most {
                    run.push((*key, *value))?;
                }
            }
        }
        self.schedule.runs.push(run)
    }

    fn draw(&mut self, alloc: Global) -> Result<Option<Event>, AllocError> {
        let unit = self.draws.below(self.core.layout.units());
        match self.draws.below(20) {
            0 => Ok(Some(self.stray(unit))),
            1..=7 => Ok(Some(self.advance(alloc)?)),
            _ => self.unit_event(alloc, unit),
        }
    }

    // An event that the machine often doesn't allow.
    fn stray(&mut self, unit: Unit) -> Event {
        let caller = self.draws.below(self.core.callers.len());
        let slot = self.draws.below(self.core.layout.total());
        match self.draws.below(200) {
            0 => Event::Freeze { unit, caller },
            1..=9 => Event::CloseLabel { unit, slot },
            10..=19 => Event::Confirm { unit },
            20..=29 => Event::PersistClose { unit },
            30..=39 => Event::SetClock,
            40..=49 => Event::PersistWord,
            50..=59 => Event::Withdraw { unit },
            60..=79 => Event::Store {
                unit,
                slot,
                field: self.draws.below(12),
                value: self.draws.below(3),
            },
            80..=99 => Event::Tell {
                unit,
                epoch: self.draws.below(6),
            },
            _ => Event::LoadDurable {
                part: Part::Caller { caller },
            },
        }
    }

    fn advance(&self, alloc: Global) -> Result<Event, AllocError> {
        match self.core.advancer {
            AdvPart::Rest | AdvPart::Checking { .. } => Ok(Event::Check),
            AdvPart::Holding { .. } => Ok(Event::PersistWord),
            AdvPart::Clocked => Ok(Event::PersistClock),
            AdvPart::Flushing { .. } => {
                if allowed(alloc, &self.core, &Event::SetClock)? {
                    Ok(Event::SetClock)
                } else {
                    Ok(Event::LoadWord)
                }
            }
        }
    }

    // What a unit does next by its stage.
    fn unit_event(&mut self, alloc: Global, unit: Unit) -> Result<Option<Event>, AllocError> {
        let planned = self.next_planned(unit);
        if planned.is_some() {
            return Ok(planned);
        }
        let epoch = clock(&self.core);
        match self.stage_of(unit) {
            UnitStage::Idle => self.idle_event(alloc, unit, epoch),
            UnitStage::Told { .. } => Ok(Some(match self.draws.below(10) {
                0 => Event::Withdraw { unit },
                1 => Event::Tell { unit, epoch },
                _ => Event::Confirm { unit },
            })),
            UnitStage::Within { epoch } => self.write(alloc, unit, epoch),
            UnitStage::Closing { .. } => Ok(Some(Event::PersistClose { unit })),
        }
    }

    fn next_planned(&mut self, unit: Unit) -> Option<Event> {
        if unit < self.plans.len() {
            self.plans.item_mut(unit).pop()
        } else {
            None
        }
    }

    fn stage_of(&self, unit: Unit) -> UnitStage {
        match self.core.units.get(unit) {
            Some(part) => part.stage,
            None => UnitStage::Idle,
        }
    }

    fn idle_event(
        &mut self,
        alloc: Global,
        unit: Unit,
        epoch: Epoch,
    ) -> Result<Option<Event>, AllocError> {
        let part = self.core.units.get(unit);
        let retired = part.and_then(|part| part.retired.get(0));
        let first = retired.map(|waiting| waiting.slot);
        match (self.draws.below(8), first) {
            (0, _) => Ok(Some(Event::Look { unit })),
            (1, _) => Ok(Some(Event::LoadDurable {
                part: Part::Unit { unit },
            })),
            (2 | 3, Some(slot)) => Ok(Some(Event::CloseLabel { unit, slot })),
            (4 | 5, _) => self.read(alloc, unit),
            _ => Ok(Some(Event::Tell { unit, epoch })),
        }
    }

    // An operation of a unit, if the one that is drawn has its keys.
    fn call(&mut self, alloc: Global, unit: Unit) -> Result<Option<Call>, AllocError> {
        let layout = self.core.layout;
        let caller = self.draws.below(self.core.callers.len());
        let op = self.draws.op(&layout, unit);
        let (Some(op), Some(state)) = (op, self.states.get(unit)) else {
            return Ok(None);
        };
        if op.unit(layout) != Some(unit) {
            return Ok(None);
        }
        let reply = state.clone()?.apply(&op)?;
        let effects = state.effects(alloc, &op)?;
        Ok(Some(Call {
            caller,
            op,
            reply,
            effects,
        }))
    }

    // A read, where the operation that is drawn changes nothing. Now and then its reply is another.
    fn read(&mut self, alloc: Global, unit: Unit) -> Result<Option<Event>, AllocError> {
        let call = self.call(alloc, unit)?;
        let odd = self.draws.below(40) == 0;
        match call {
            Some(call) if call.effects.is_empty() => Ok(Some(Event::Read {
                unit,
                caller: call.caller,
                op: call.op,
                reply: if odd { Reply::NoEnds } else { call.reply },
            })),
            _ => Ok(None),
        }
    }

    // Plans the stores of an operation that is drawn, and the leave after them; the first of them.
    fn write(
        &mut self,
        alloc: Global,
        unit: Unit,
        epoch: Epoch,
    ) -> Result<Option<Event>, AllocError> {
        match self.call(alloc, unit)? {
            Some(call) if !call.effects.is_empty() => {
                if self.plan(alloc, unit, epoch, &call)? {
                    Ok(self.next_planned(unit))
                } else {
                    Ok(Some(Event::Withdraw { unit }))
                }
            }
            _ => Ok(None),
        }
    }

    // Plans them, and tells whether there is room.
    fn plan(
        &mut self,
        alloc: Global,
        unit: Unit,
        epoch: Epoch,
        call: &Call,
    ) -> Result<bool, AllocError> {
        let mut plan = Vec::new(alloc);
        if !push_stores(alloc, &mut plan, &self.core, unit, epoch, &call.effects)? {
            return Ok(false);
        }
        plan.push(Event::Leave {
            unit,
            caller: call.caller,
            op: call.op,
            reply: call.reply,
        })?;
        plan.reverse();
        if unit < self.plans.len() {
            self.plans.set(unit, plan);
        }
        Ok(true)
    }
}
