// Jobs whose lines are drawn, the same at each time.
ghost use Rattle.std.specs.Prelude.{IfOk};
ghost use Rattle.job_text.specs.Grammar.{IsJob};

use crate::reports::job_of;
use job_text::Job;
use rand_core::Rng;
use rand_pcg::Pcg64;
use std::alloc::{AllocError, Global};
use std::test::Fail;

// What lines ask of four maps, of the queues 4 and 5 and of the graphs 6 and 7. A number below 100
// is drawn for each line, which asks what the first row with a greater number says, and after it
// a number for each bound.
static DEEDS: &[(u64, &str, &[u64])] = &[
    (1, "tick", &[]),
    (2, "sync", &[]),
    (12, "get", &[1000]),
    (21, "del", &[1000]),
    (50, "put", &[1000, 1_000_000]),
    (52, "len 4", &[]),
    (55, "len 5", &[]),
    (60, "deq 4", &[]),
    (65, "deq 5", &[]),
    (70, "enq 4", &[1_000_000]),
    (75, "enq 5", &[1_000_000]),
    (78, "addv 6", &[100, 1000]),
    (81, "addv 7", &[100, 1000]),
    (83, "delv 6", &[100]),
    (84, "delv 7", &[100]),
    (85, "degree 6", &[100]),
    (87, "degree 7", &[100]),
    (89, "dele 6", &[100, 100]),
    (90, "dele 7", &[100, 100]),
    (95, "adde 6", &[100, 100, 1000]),
    (100, "adde 7", &[100, 100, 1000]),
];

// The job of so many lines after this header, for so many callers.
pub(crate) fn drawn_job(alloc: Global, header: &str, callers: u64, lines: u64) -> Result<Job, Fail>
    ensures { IfOk result IsJob }
{
    let mut text = String::from_str(alloc, header)?;
    let mut generator = Pcg64::new(7, 0);
    for _ in 0..lines {
        push_line(&mut generator, &mut text, callers)?;
    }
    job_of(alloc, text.as_str())
}

fn push_line(generator: &mut Pcg64, text: &mut String, callers: u64) -> Result<(), AllocError> {
    let drawn = below(generator, 100);
    if let Some((_, words, bounds)) = DEEDS.iter().find(|(many, _, _)| drawn < *many) {
        write!(text, "{} {words}", below(generator, callers))?;
        for many in *bounds {
            write!(text, " {}", below(generator, *many))?;
        }
    }
    text.push('\n')
}

fn below(generator: &mut Pcg64, many: u64) -> u64 {
    generator.next_u64().checked_rem(many).unwrap_or(0)
}
