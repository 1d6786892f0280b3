// What sweeps of a store leave that are cut at each of their steps.
ghost use Rattle.std.specs.Prelude.{◌≡◌, false};

use crate::found_text::accepted;
use crate::leftovers::{left_by, opened};
use case_file::Unanswered;
use mont_base::{Fuel, Steady};
use mont_image::Image;
use recover::Recovered;
use std::alloc::{AllocError, Global};
use std::thread::Threads;

// The masks, as they are told.
static MASKS: &[(u64, &str)] = &[
    (0, "0000000000000000"),
    (u64::MAX, "ffffffffffffffff"),
    (1, "0000000000000001"),
    (u64::MAX - 1, "fffffffffffffffe"),
    (0x5555_5555_5555_5555, "5555555555555555"),
    (0xaaaa_aaaa_aaaa_aaaa, "aaaaaaaaaaaaaaaa"),
];

/// A line on the sweeps that were cut, one on how many slots each had still to close, and for each
/// mask one on how many are lost in the image that it picks. A sweep after which something isn't
/// as it was, or that doesn't go on, is told in a line of its own.
pub fn sweep_table(
    rt: &(impl Threads + Sync),
    alloc: Global,
    image: &Image,
    most: u64,
) -> Result<Vec<u8>, Unanswered>
    requires { image.now.old ≡ false }
{
    let mut table = String::new(alloc);
    push_sweeps(&mut table, rt, alloc, image, most)?;
    push_masks(&mut table, rt, alloc, image, most)?;
    Ok(table.into_bytes())
}

// The lines of all masks.
fn push_masks(
    table: &mut String,
    rt: &(impl Threads + Sync),
    alloc: Global,
    image: &Image,
    most: u64,
) -> Result<(), Unanswered>
    requires { image.now.old ≡ false }
{
    let (_lost, before) = accepted(rt, alloc, image)?;
    for row in MASKS {
        let (mask, name) = *row;
        write!(table, "mask {name} leaves")?;
        for steps in 0..most.saturating_add(1) {
            push_left(table, rt, alloc, image, steps, mask, before.as_slice())?;
        }
        writeln!(table)?;
    }
    Ok(())
}

// How many slots are lost after a sweep with so many steps, as a mask picks the image, and whether
// its contents are others than these.
fn push_left(
    table: &mut String,
    rt: &(impl Threads + Sync),
    alloc: Global,
    image: &Image,
    steps: u64,
    mask: u64,
    before: &[u8],
) -> Result<(), Unanswered>
    requires { image.now.old ≡ false }
{
    let (_cut, left) = left_by(rt, alloc, image, steps, mask)?;
    let (lost, behind) = accepted(rt, alloc, &left)?;
    write!(table, " {lost}")?;
    if behind.as_slice() != before {
        write!(table, " (and other contents)")?;
    }
    Ok(())
}

// Which sweeps are cut, and how many slots each has still to close.
fn push_sweeps(
    table: &mut String,
    rt: &(impl Threads + Sync),
    alloc: Global,
    image: &Image,
    most: u64,
) -> Result<(), Unanswered>
    requires { image.now.old ≡ false }
{
    let mut open = String::from_str(alloc, "still to close")?;
    write!(table, "cut after steps")?;
    for steps in 0..most.saturating_add(1) {
        let swept = swept_by(rt, alloc, image, steps)?;
        push_sweep(table, &mut open, steps, swept)?;
    }
    Ok(write!(table, "\n{open}\n")?)
}

// What a sweep came to.
#[derive(Clone, Copy)]
struct Swept {
    cut: bool,
    still_open: u64,
    // Whether the store knows that, and a second sweep leaves no slot that is to be closed.
    again: bool,
}

// What a sweep with so many steps comes to.
fn swept_by(
    rt: &(impl Threads + Sync),
    alloc: Global,
    image: &Image,
    steps: u64,
) -> Result<Swept, Unanswered>
    requires { image.now.old ≡ false }
{
    let mut store = opened(rt, alloc, image)?;
    let cut = store.sweep(&mut Fuel::new(steps)).is_err();
    let still_open = store.lost();
    let again = store.is_swept() != cut && goes_on(&mut store);
    Ok(Swept {
        cut,
        still_open,
        again,
    })
}

// Whether a second sweep leaves no slot that is to be closed.
fn goes_on(store: &mut Recovered) -> bool {
    store.sweep(&mut Steady).is_ok() && store.is_swept() && store.lost() == 0
}

fn push_sweep(
    table: &mut String,
    open: &mut String,
    steps: u64,
    swept: Swept,
) -> Result<(), AllocError> {
    if swept.cut {
        write!(table, " {steps}")?;
    }
    write!(open, " {}", swept.still_open)?;
    if !swept.again {
        write!(open, " (and it isn't swept again)")?;
    }
    Ok(())
}
