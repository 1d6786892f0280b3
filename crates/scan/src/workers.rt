// The slots of an image, cut into pieces for workers.
ghost use Rattle.std.specs.Prelude.{◌≡◌, ◌+◌, ◌*◌, ◌/◌, ◌-◌, ◌<◌, ◌≤◌, ◌++◌, [], List, ℕ, false, length, Err, IfOk, OnOk};
ghost use Rattle.std.specs.List.{range_with_len};
ghost use Rattle.mont_base.specs.declared.constants.TheConstants.{LAST};
ghost use Rattle.mont_base.specs.declared.record.SlotFault.{SlotFault};
ghost use Rattle.mont_base.specs.Image.{clock_of};
ghost use Rattle.mont_base.specs.Layout.{Shape, total_of, words_of};
ghost use Rattle.scan.specs.Scanned.{IsAnswer, IsLowestFault, IsReadable, all_slots, records_among, lost_among};
ghost use Rattle.scan.specs.Workers.{piece_slots, piece_start};

use crate::scanned::{Found, Scan, ScanRefusal};
use crate::slots::{joined, look_on, nothing};
use mont_base::{Layout, Slot};
use mont_image::Image;
use rayon::prelude::*;
use std::alloc::Global;
use std::thread::Threads;

/// What the image holds, for any number of workers the same. The slots are cut into as many
/// consecutive pieces as there are workers; a thread takes several where they are small.
pub fn scan(
    rt: &(impl Threads + Sync),
    alloc: Global,
    image: &Image,
    workers: u64,
) -> Result<Scan, ScanRefusal>
    requires some { 1 ≤ workers }
    requires few { workers ≤ 64 }
    requires new { image.now.old ≡ false }
    ensures records { IfOk result (λ scan. scan.records
        ≡ records_among image.now.layout image.now.words (all_slots image.now.layout)) }
    ensures lost { IfOk result (λ scan. scan.lost
        ≡ lost_among image.now.words (all_slots image.now.layout)) }

    // A slot within the cut that can't be read refuses the image, the lowest one.
    ensures readable { OnOk result (IsReadable image.now.layout image.now.words) }
    ensures refused { (slot : ℕ) (fault : SlotFault) → result ≡ Err (ScanRefusal.Slot slot fault)
        → IsLowestFault image.now.layout image.now.words slot fault }
{
    scan_pieces(rt, alloc, image.layout, image.words.as_slice(), workers)
}

// What is found among all slots.
fn scan_pieces(
    rt: &(impl Threads + Sync),
    alloc: Global,
    layout: Layout,
    image: &[u64],
    workers: u64,
) -> Found
    requires size { length image.now ≡ words_of layout }
    requires clock { clock_of image.now ≤ LAST }
    requires some { 1 ≤ workers }
    requires few { workers ≤ 64 }
    ensures { IsAnswer layout image.now (all_slots layout) result }
{
    (0..workers as usize)
        .into_par_iter()
        .fold(
            || -> Found
                ensures { (s : Shape) (words : List ℕ) → IsAnswer s words [] result }
            { nothing(alloc) },
            |found: Found, piece: usize| -> Found
                requires { (piece < workers) × (workers ≤ 64)
                    × (length image.now ≡ words_of layout) × (clock_of image.now ≤ LAST) }
                ensures { (slots : List ℕ) → IsAnswer layout image.entry.now slots found
                    → IsAnswer layout image.entry.now
                    (slots ++ piece_slots layout workers piece) result }
            { look_at_piece(found, layout, image, workers, piece as u64) },
        )
        .reduce(
            rt,
            || -> Found
                ensures { (s : Shape) (words : List ℕ) → IsAnswer s words [] result }
            { nothing(alloc) },
            |front: Found, back: Found| -> Found
                ensures { (s : Shape) (words xs ys : List ℕ) → IsAnswer s words xs front
                    → IsAnswer s words ys back → IsAnswer s words (xs ++ ys) result }
            { joined(front, back) },
        )
}

// Looks at the slots of a piece.
fn look_at_piece(found: Found, layout: Layout, image: &[u64], workers: u64, piece: u64) -> Found
    requires size { length image.now ≡ words_of layout }
    requires clock { clock_of image.now ≤ LAST }
    requires piece { piece < workers }
    requires few { workers ≤ 64 }
    ensures { (slots : List ℕ) → IsAnswer layout image.now slots found
        → IsAnswer layout image.now (slots ++ piece_slots layout workers piece) result }
{
    let first = piece_start(layout, workers, piece);
    let end = piece_start(layout, workers, piece + 1);
    look_on(found, &layout, image, first, end)
}

// The first slot of a piece. After the last piece this is the number of slots.
fn piece_start(layout: Layout, workers: u64, piece: u64) -> Slot
    requires some { 1 ≤ workers }
    requires few { workers ≤ 64 }
    requires piece { piece ≤ workers }
    ensures start { result ≡ piece_start layout workers piece }
    ensures inside { result ≤ total_of layout }
{
    layout.total() * piece / workers
}
