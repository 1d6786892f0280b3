// How long the text of a job may be, and the ranges of its numbers.

/// A job's text has at most so many lines.
pub const MOST_LINES: u64 = 200_000;

/// A line of it has at most so many bytes before its line feed.
pub const LINE_BYTES: usize = 160;

/// At most so many bytes are read of a source: one more than a job's text may have.
pub const READ_BYTES: usize = 32_200_001;

/// A job has at most so many callers.
pub const MOST_CALLERS: u64 = 8;

/// The advancer tries at most so often.
pub const MOST_ATTEMPTS: u64 = 1_000_000;

/// A stop comes after at most so many steps.
pub const MOST_STEPS: u64 = 1_000_000;

const _: () = prove!(MOST_LINES == 200_000);

const _: () = prove!(LINE_BYTES == 160);

const _: () = prove!(READ_BYTES == 32_200_001);

const _: () = prove!(MOST_CALLERS == 8);

const _: () = prove!(MOST_ATTEMPTS == 1_000_000);

const _: () = prove!(MOST_STEPS == 1_000_000);
