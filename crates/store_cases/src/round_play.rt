// Scripts from their lines, which are read as they are run.
//
//     store KINDS SLOTS CALLERS           a store that was never used
//     told CALLERS                        a store that goes on from the image of the case
//     CALLER OPERATION                    as in a job, and so are `tick` and `sync`
//     CALLER fuel STEPS                   its gate passes so many steps more; or `endless`
//     CALLER tells OTHER                  and the other hears
//     CALLER shift FROM TO AMOUNT
//     CALLER draws MANY SEED NAMES        so many operations on names below the last number; with
//                                         `tries` it is told only how many replies differ
//     stop
//     clocks, base, histories, judge      what a store that was stopped tells
//     image MASK ..                       the images that masks pick; without one, that six do
//     contents MASK ..                    the same without what is lost
//     recover MASK                        goes on from such an image; after that `sweep STEPS`
//                                         has the sweep cut once
//     sweep MASK STEPS                    opens one, and stops in its sweep
//     each FROM TO                        before the store: the script is run with each number of
//                                         steps, for which `each` stands
//     room MANY                           before the store: each box makes room so many times, and
//                                         then refuses it
use crate::empty_box::EmptyBox;
use crate::left_looks::tell_look;
use crate::left_words::{opened, store_in};
use crate::plain_units::copies;
use crate::round_openings::{play_fresh, play_recovered};
use crate::scene::{Run, Scene};
use crate::script_fault::ScriptFault;
use crate::script_words::{mask_in, number_in};
use crate::told_images::told_image;
use case_file::Case;
use mont_base::{Fuel, Sequence};
use plain::Contents;
use recover::Recovered;
use std::alloc::{AllocError, Global};
use std::mem;
use std::sync::Wait;
use std::thread::Threads;
use store_stop::Stopped;

/// What is told of a script that is run once, which leaves the number of the last line that was
/// read.
pub fn run_script<R: Threads + Wait + Sync, I: EmptyBox>(
    rt: &R,
    alloc: Global,
    case: &Case,
    lines: &[&str],
    run: Run,
    read: &mut usize,
) -> Result<String, ScriptFault> {
    let mut scene = Scene::new(alloc, case, lines, run);
    let told = play_lines::<R, I>(rt, &mut scene);
    *read = scene.read;
    told
}

// Does what each line says. That which opens a store reads the lines up to its stop.
fn play_lines<R: Threads + Wait + Sync, I: EmptyBox>(
    rt: &R,
    scene: &mut Scene<'_>,
) -> Result<String, ScriptFault> {
    let lines = scene.lines;
    for (at, line) in lines.iter().enumerate() {
        if at == scene.read {
            scene.read = at.saturating_add(1);
            play_line::<R, I>(rt, scene, line)?;
        }
    }
    Ok(mem::replace(&mut scene.told, String::new(scene.alloc)))
}

fn play_line<R: Threads + Wait + Sync, I: EmptyBox>(
    rt: &R,
    scene: &mut Scene<'_>,
    line: &str,
) -> Result<(), ScriptFault> {
    let words: Vec<&str> = line.split(' ').collect(scene.alloc)?;
    match words.as_slice() {
        ["each", _, _] | ["room", _] if scene.callers == 0 => Ok(()),
        ["store", kinds, slots, callers] => {
            scene.callers = number_in(callers)?;
            play_fresh::<R, I>(rt, scene, kinds, slots)
        }
        ["told" | "recover" | "sweep", ..] => {
            play_from_image::<R, I>(rt, scene, line, words.as_slice())
        }
        _ => tell_look(rt, scene, words.as_slice()),
    }
}

// A store that is opened from an image.
fn play_from_image<R: Threads + Wait + Sync, I: EmptyBox>(
    rt: &R,
    scene: &mut Scene<'_>,
    line: &str,
    words: &[&str],
) -> Result<(), ScriptFault> {
    let steps = sweep_steps(scene, words)?;
    let mut store = store_of(rt, scene, words)?;
    tell_opened(scene, line, &mut store, steps)?;
    match words {
        ["sweep", ..] => stop_swept(scene, store),
        _ => play_recovered::<R, I>(rt, scene, store),
    }
}

// With how many steps the store that words tell is swept before it goes on, if so.
fn sweep_steps(scene: &Scene<'_>, words: &[&str]) -> Result<Option<u64>, ScriptFault> {
    match words {
        ["told", _callers] => Ok(None),
        ["recover", _mask] => Ok(None),
        ["sweep", _mask, steps] => Ok(Some(scene.steps(steps)?)),
        ["recover", _mask, "sweep", steps] => Ok(Some(scene.steps(steps)?)),
        _ => Err(ScriptFault::Unclear),
    }
}

// The store that words tell.
fn store_of<R: Threads + Sync>(
    rt: &R,
    scene: &mut Scene<'_>,
    words: &[&str],
) -> Result<Recovered, ScriptFault> {
    let [how, which, ..] = words else {
        return Err(ScriptFault::Unclear);
    };
    if *how == "told" {
        scene.callers = number_in(which)?;
        return told_store(rt, scene);
    }
    match &scene.left {
        Some(left) => store_in(rt, scene.alloc, &left.words, mask_in(which)?, scene.callers),
        None => Err(ScriptFault::Place),
    }
}

// The store of the case's image.
fn told_store<R: Threads + Sync>(rt: &R, scene: &Scene<'_>) -> Result<Recovered, ScriptFault> {
    let image = told_image(scene.alloc, scene.case)?;
    opened(rt, scene.alloc, &image, scene.callers)
}

// Tells a store that is opened from an image, and sweeps it with so many steps.
fn tell_opened(
    scene: &mut Scene<'_>,
    line: &str,
    store: &mut Recovered,
    steps: Option<u64>,
) -> Result<(), AllocError> {
    let (clock, lost) = (store.clock(), store.lost());
    write!(scene.told, "{line}: clock {clock}, lost {lost}")?;
    if let Some(steps) = steps {
        let swept = match store.sweep(&mut Fuel::new(steps)) {
            Ok(()) => "swept",
            Err(_cut) => "cut",
        };
        let lost = store.lost();
        write!(scene.told, ", {swept}, lost {lost}")?;
    }
    scene.plain = copies(scene.alloc, store.contents())?;
    writeln!(scene.told)
}

// Stops a store in its sweep. Only its words are left.
fn stop_swept(scene: &mut Scene<'_>, store: Recovered) -> Result<(), ScriptFault> {
    let words = store.stop(scene.alloc)?;
    scene.left = Some(Stopped {
        words,
        base_clock: 0,
        base: Contents {
            units: Sequence::new(scene.alloc),
        },
        histories: Sequence::new(scene.alloc),
    });
    Ok(())
}
