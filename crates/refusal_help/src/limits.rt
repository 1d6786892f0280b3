// How long jobs and schedules may be, and the ranges of their numbers.

/// A job or a schedule has at most so many lines.
pub const MOST_LINES: u64 = 200_000;

/// A line of a job has at most so many bytes before its line feed.
pub const JOB_LINE_BYTES: usize = 160;

/// A line of a schedule has at most so many bytes before its line feed.
pub const SCHEDULE_LINE_BYTES: usize = 250;

/// A job or a schedule has at most so many callers.
pub const MOST_CALLERS: u64 = 8;

/// The advancer tries at most so often, and a stop comes after at most so many steps.
pub const MOST_STEPS: u64 = 1_000_000;

/// More workers aren't asked of `recover`.
pub const MOST_WORKERS: u64 = 64;

/// How many digits a mask has.
pub const MASK_DIGITS: usize = 16;

const _: () = prove!(MOST_LINES == 200_000);

const _: () = prove!(JOB_LINE_BYTES == 160);

const _: () = prove!(SCHEDULE_LINE_BYTES == 250);

const _: () = prove!(MOST_CALLERS == 8);

const _: () = prove!(MOST_STEPS == 1_000_000);

const _: () = prove!(MOST_WORKERS == 64);

const _: () = prove!(MASK_DIGITS == 16);
