// The words of the command line.

use crate::timed_plan::{Callers, Plan, Subject, Timed};

// How often anything is done at most.
const MOST_CALLS: u64 = 1_000_000;

const MOST_CALLERS: u64 = 4;

// One caller, on a unit of its own.
const ALONE: Callers = Callers {
    many: 1,
    own: true,
    advancer: false,
};

// What the words ask for; `None` where they are of no form.
pub(crate) fn plan_of(words: &[String]) -> Option<Plan> {
    let [name, size, calls, rest @ ..] = words else {
        return None;
    };
    let subject = subject_of(name.as_str(), rest)?;
    let plan = Plan {
        subject,
        size: number(size)?,
        calls: number(calls)?,
    };
    if is_in_range(&plan) { Some(plan) } else { None }
}

// What the first word names, with the words after the numbers.
fn subject_of(name: &str, rest: &[String]) -> Option<Subject> {
    if let Some(work) = work_of(name) {
        let by = callers_of(rest)?;
        return Some(Subject::Calls { work, by });
    }
    if !rest.is_empty() {
        return None;
    }
    match name {
        "tick" => Some(Subject::Tick),
        "sync" => Some(Subject::Sync),
        "stop" => Some(Subject::Stop),
        "open" => Some(Subject::Open),
        "recover" => Some(Subject::Recover),
        _ => None,
    }
}

// The call that a word names.
fn work_of(name: &str) -> Option<Timed> {
    match name {
        "put" => Some(Timed::Put),
        "get" => Some(Timed::Get),
        "del" => Some(Timed::Del),
        "enq" => Some(Timed::Enq),
        "deq" => Some(Timed::Deq),
        "adde" => Some(Timed::AddEdge),
        "degree" => Some(Timed::Degree),
        _ => None,
    }
}

// The callers that the last words name; one where there are no words.
fn callers_of(words: &[String]) -> Option<Callers> {
    match words {
        [] => Some(ALONE),
        [many, own] => callers_with(many, own, false),
        [many, own, last] if last.as_str() == "advancer" => callers_with(many, own, true),
        _ => None,
    }
}

fn callers_with(many: &String, own: &String, advancer: bool) -> Option<Callers> {
    let many = number(many)?;
    match own.as_str() {
        "own" => Some(Callers {
            many,
            own: true,
            advancer,
        }),
        "shared" => Some(Callers {
            many,
            own: false,
            advancer,
        }),
        _ => None,
    }
}

fn number(word: &String) -> Option<u64> {
    word.as_str().parse::<u64>().ok()
}

// Whether all numbers are in their ranges.
fn is_in_range(plan: &Plan) -> bool {
    let (least, most) = match plan.subject {
        Subject::Calls { .. } => (1, 1024),
        Subject::Tick | Subject::Sync => (0, 1024),
        Subject::Stop => (0, MOST_CALLS),
        Subject::Open | Subject::Recover => (8, 4096),
    };
    let many = match plan.subject {
        Subject::Calls { by, .. } => by.many,
        _ => 1,
    };
    (1..=MOST_CALLS).contains(&plan.calls)
        && (least..=most).contains(&plan.size)
        && (1..=MOST_CALLERS).contains(&many)
}
