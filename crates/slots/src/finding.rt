// How a region takes over what recovery found: the records and the lost slots of its unit.
ghost use Rattle.std.specs.Prelude.{◌≡◌, ◌+◌, ◌^◌, ◌<◌, ◌≤◌, ◌&&◌, ◌++◌, [], ◌∷◌, not, max, is_none, unwrap_or, slice_get, false, length, map, filter, replicate, IfOk, All, None, option_to_list, IsTrue, if◌then◌else◌};
ghost use Rattle.std.specs.List.{range_with_len};
ghost use Rattle.std.specs.VecDeque.{deque_capacity};
ghost use Rattle.mont_base.specs.declared.constants.TheConstants.{LAST};
ghost use Rattle.mont_base.specs.Layout.{IsLayout, units_of, unit_of_slot};
ghost use Rattle.mont_laws.specs.Records.{AreApart};
ghost use Rattle.mont_laws.specs.Retiring.{retired_among, retired_before};
ghost use Rattle.core_steps.specs.Opened.{by_version};
ghost use Rattle.slots.specs.RegionBeginning.{AreFound, first_books, greatest, identities_in};
ghost use Rattle.slots.specs.Books.{as_written, row_in};
ghost use Rattle.slots.specs.Finding.{marked, mark_at, is_unused, serials_left};
ghost use Rattle.slots.specs.Rooms.{placed, first_slot, HoldsIn, IsPlaced};
ghost use Rattle.slots.specs.Serials.{is_queue};

use crate::books::Books;
use mont_base::{Held, Kind, Layout, Slot, Unit, UnitKind};
use mont_laws::Retired;
use std::alloc::{AllocError, Global};
use std::collections::VecDeque;

// Puts each record into the row of its slot.
fn place_found(rows: &mut [Option<Held>], first: Slot, records: &[Held])
    requires { All (HoldsIn first (length rows.old)) records.now }
    ensures { rows.new ≡ placed first rows.old (map (as_written []) records.now) }
{
    for held in records {
        rows[(held.slot - first) as usize] = Some(*held);
    }
}

// Marks the places of these slots.
fn mark(marks: &mut [bool], first: Slot, slots: &[Slot])
    requires { All (IsPlaced first (length marks.old)) slots.now }
    ensures { marks.new ≡ marked first marks.old slots.now }
{
    for slot in slots {
        marks[(*slot - first) as usize] = true;
    }
}

// The rows of so many slots from the first on, with these records.
fn found_rows(
    alloc: Global,
    slots: u64,
    first: Slot,
    records: &[Held],
) -> Result<Vec<Option<Held>>, AllocError>
    requires { All (HoldsIn first slots) records.now }
    ensures len { IfOk result (λ rows. length rows.items ≡ slots) }
    ensures items { IfOk result (λ rows. rows.items
        ≡ placed first (replicate slots None) (map (as_written []) records.now)) }
{
    let mut rows = vec![in alloc; None; slots as usize]?;
    place_found(&mut rows, first, records);
    Ok(rows)
}

// A place for each of so many slots from the first on, of which these are marked.
fn marks_at(
    alloc: Global,
    slots: u64,
    first: Slot,
    chosen: &[Slot],
) -> Result<Vec<bool>, AllocError>
    requires { All (IsPlaced first slots) chosen.now }
    ensures len { IfOk result (λ marks. length marks.items ≡ slots) }
    ensures items { IfOk result (λ marks. marks.items
        ≡ marked first (replicate slots false) chosen.now) }
{
    let mut marks = vec![in alloc; false; slots as usize]?;
    mark(&mut marks, first, chosen);
    Ok(marks)
}

// This place has neither a record nor a mark.
fn has_nothing(rows: &[Option<Held>], marks: &[bool], place: usize) -> bool
    requires marks { length marks.now ≡ length rows.now }
    requires inside { place < length rows.now }
    ensures { result ≡ (is_none (row_in (slice_get rows.now place))
        && not (unwrap_or (slice_get marks.now place) false)) }
{
    rows[place].is_none() && !marks[place]
}

// A slot after the others, if it is kept.
fn push_if(slots: &mut VecDeque<Slot>, keep: bool, slot: Slot) -> Result<(), AllocError>
    ensures items { IfOk result (λ _. slots.new.items
        ≡ slots.old.items ++ (if keep then slot ∷ [] else [])) }
    ensures room { IfOk result (λ _. deque_capacity slots.old ≤ deque_capacity slots.new) }
{
    if keep {
        slots.push_back(slot)?;
    }
    Ok(())
}

// The slots from the first on that have neither a record nor a mark, with room for all.
fn unused_slots(
    alloc: Global,
    first: Slot,
    rows: &[Option<Held>],
    marks: &[bool],
) -> Result<VecDeque<Slot>, AllocError>
    requires marks { length marks.now ≡ length rows.now }
    requires last { first + length rows.now < 2 ^ 63 }
    ensures items { IfOk result (λ unused. unused.items
        ≡ filter (is_unused first rows.now marks.now) (range_with_len first (length rows.now))) }
    ensures room { IfOk result (λ unused. length rows.now ≤ deque_capacity unused) }
{
    let mut unused = VecDeque::with_capacity(alloc, rows.len())?;
    for place in 0..rows.len() {
        let keep = has_nothing(rows, marks, place);
        push_if(&mut unused, keep, first + place as u64)?;
    }
    Ok(unused)
}

// The records by rising identity and version.
fn by_version(alloc: Global, records: &[Held]) -> Result<Vec<Held>, AllocError>
    requires { AreApart records.now }
    ensures { IfOk result (λ sorted. sorted.items ≡ by_version records.now) }
{
    let mut sorted = Vec::new(alloc);
    sorted.extend_from_slice(records)?;
    sorted.sort_by_key(|held| held.label.version)?;
    sorted.sort_by_key(|held| held.label.identity)?;
    Ok(sorted)
}

// What retires a record that these stand after, if anything does.
fn retires_before(held: &Held, rest: &[Held]) -> Option<Retired>
    ensures { option_to_list result ≡ retired_before held.now rest.now }
{
    let slot = held.slot;
    if let Some(next) = rest.first() {
        if next.label.identity == held.label.identity {
            let epoch = next.label.epoch;
            return Some(Retired { slot, epoch });
        }
    }
    let epoch = held.label.epoch;
    match held.label.kind {
        Kind::Delete => Some(Retired { slot, epoch }),
        Kind::New | Kind::Copy => None,
    }
}

// The greatest identity of records; 0 where there are none.
fn greatest_identity(records: &[Held]) -> u64
    ensures { result ≡ greatest (identities_in records.now) }
{
    let mut most = 0;
    for held in records {
        most = most.max(held.label.identity);
    }
    most
}

// The place of this slot is marked.
fn has_mark(marks: &[bool], first: Slot, slot: Slot) -> bool
    requires { IsPlaced first (length marks.now) slot }
    ensures { result ≡ mark_at first marks.now slot }
{
    marks[(slot - first) as usize]
}

// The greater of a number and a word, or the number where the word is marked.
fn or_greater(most: u64, mark: bool, word: u64) -> u64
    ensures { result ≡ (if mark then most else max most word) }
{
    if mark {
        return most;
    }
    most.max(word)
}

// The greatest serial of the records whose slots have no mark; 0 where there are none.
fn greatest_serial(records: &[Held], first: Slot, marks: &[bool]) -> u64
    requires { All (HoldsIn first (length marks.now)) records.now }
    ensures { result ≡ greatest (serials_left first marks.now records.now) }
{
    let mut most = 0;
    for held in records {
        most = or_greater(most, has_mark(marks, first, held.slot), held.body[0]);
    }
    most
}

// A retired slot after the others, if there is one.
fn push_found(
    queue: &mut VecDeque<Retired>,
    slots: &mut Vec<Slot>,
    found: Option<Retired>,
) -> Result<(), AllocError>
    ensures items { IfOk result (λ _. queue.new.items ≡ queue.old.items ++ option_to_list found) }
    ensures slots { IfOk result (λ _. slots.new.items
        ≡ slots.old.items ++ map (λ (t : Retired). t.slot) (option_to_list found)) }
    ensures room { IfOk result (λ _. deque_capacity queue.old ≤ deque_capacity queue.new) }
{
    if let Some(retired) = found {
        queue.push_back(retired)?;
        slots.push(retired.slot)?;
    }
    Ok(())
}

// The retired slots of sorted records, in their order, with room for so many, and again as slots.
fn found_queue(
    alloc: Global,
    room: u64,
    sorted: &[Held],
) -> Result<(VecDeque<Retired>, Vec<Slot>), AllocError>
    ensures items { IfOk result (λ found. found.0.items ≡ retired_among sorted.now) }
    ensures slots { IfOk result (λ found. found.1.items
        ≡ map (λ (t : Retired). t.slot) (retired_among sorted.now)) }
    ensures room { IfOk result (λ found. room ≤ deque_capacity found.0) }
{
    let mut queue = VecDeque::with_capacity(alloc, room as usize)?;
    let mut slots = Vec::new(alloc);
    for place in 0..sorted.len() {
        let rest = &sorted[place + 1..];
        push_found(&mut queue, &mut slots, retires_before(&sorted[place], rest))?;
    }
    Ok((queue, slots))
}

// The next serial of a unit whose records these are, where these slots wait to be closed.
fn first_serial(
    alloc: Global,
    layout: Layout,
    unit: Unit,
    records: &[Held],
    waiting: &[Slot],
) -> Result<u64, AllocError>
    requires inside { unit < units_of layout }
    requires placed { All (HoldsIn (first_slot layout unit) layout.slots) records.now }
    requires waits { All (IsPlaced (first_slot layout unit) layout.slots) waiting.now }
    requires last { IsTrue (is_queue layout unit)
        → greatest (serials_left (first_slot layout unit)
        (marked (first_slot layout unit) (replicate layout.slots false) waiting.now) records.now)
        ≤ LAST }
    ensures { IfOk result (λ serial. serial ≡ (if is_queue layout unit
        then greatest (serials_left (first_slot layout unit)
        (marked (first_slot layout unit) (replicate layout.slots false) waiting.now) records.now)
        + 1 else 1)) }
{
    if !matches!(layout.kind(unit), UnitKind::Queue) {
        return Ok(1);
    }
    let first = unit * layout.slots();
    let marks = marks_at(alloc, layout.slots(), first, waiting)?;
    Ok(greatest_serial(records, first, &marks) + 1)
}

impl Books {
    // The books of a unit of which recovery found these records and lost slots.
    pub(crate) fn recovered(
        alloc: Global,
        layout: Layout,
        unit: Unit,
        records: &[Held],
        lost: &[Slot],
    ) -> Result<Books, AllocError>
        requires inside { unit < units_of layout }
        requires found { AreFound layout unit records.now lost.now }
        ensures books { IfOk result (λ b. b ≡ first_books layout unit records.now lost.now) }
        ensures layout { IfOk result (λ _. IsLayout layout) }
    {
        let slots = layout.slots();
        let first = unit * slots;
        let rows = found_rows(alloc, slots, first, records)?;
        let open = marks_at(alloc, slots, first, lost)?;
        let free = unused_slots(alloc, first, &rows, &open)?;
        let sorted = by_version(alloc, records)?;
        let (retired, waiting) = found_queue(alloc, slots, &sorted)?;
        let serial = first_serial(alloc, layout, unit, records, &waiting)?;
        let mut lost_slots = Vec::new(alloc);
        lost_slots.extend_from_slice(lost)?;
        Ok(Books {
            layout,
            unit,
            rows,
            free,
            retired,
            lost: VecDeque::from_vec(lost_slots),
            written: Vec::with_capacity(alloc, slots as usize)?,
            identity: greatest_identity(records) + 1,
            serial,
            places: 0,
            newest: 0,
            sweeping: false,
            halted: None,
        })
    }
}
