//! One given schedule of the abstract machine: it is read from its text, replayed from the fresh
//! core, event by event, and told.
//!
//! The definitions stand in `specs/`: which schedules there are and how each is spelled, which of
//! their events are allowed, and the text of a replay.
#![tactic(auto)]

mod core_lines;
mod effects_written;
mod event_reader;
mod leaves;
mod leaving;
mod making;
mod memories;
mod move_ranges;
mod newest_kept;
mod reads;
mod replay_refusal;
mod replaying;
mod schedule;
mod schedule_limits;
mod schedule_parser;
mod schedule_reader;
mod schedule_refusal;
mod step_name;
mod title;

pub use replay_refusal::ReplayRefusal;
pub use replaying::replay;
pub use schedule::Schedule;
pub use schedule_limits::{SCHEDULE_BYTES, SCHEDULE_LINE_BYTES, SCHEDULE_LINES};
pub use schedule_reader::read_schedule;
pub use schedule_refusal::ScheduleRefusal;
