// How long the text of a schedule may be.

/// A schedule's text has at most so many lines, with the first.
pub const SCHEDULE_LINES: u64 = 200_000;

/// A line of it has at most so many bytes before its line feed.
pub const SCHEDULE_LINE_BYTES: usize = 250;

/// At most so many bytes are read of a source: one more than a schedule's text may have.
pub const SCHEDULE_BYTES: usize = 50_200_001;

const _: () = prove!(SCHEDULE_LINES == 200_000);

const _: () = prove!(SCHEDULE_LINE_BYTES == 250);

const _: () = prove!(SCHEDULE_BYTES == 50_200_001);
