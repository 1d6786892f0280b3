// The places of the three standard streams, held where a stream is closed.
use std::fs;
use std::rt::Files;

// What is opened for it. It can't be read as a file is, nor written, as it is a folder.
const ROOT: &str = "/";

/// What holds the places of closed streams, as long as it stands.
#[derive(Drop)]
pub struct PlacesHeld<F: Drop> {
    first: Option<F>,
    second: Option<F>,
    third: Option<F>,
}

/// Holds the places of those standard streams that are closed: the system gives the lowest free
/// place to the next file that is opened, so that a file would be taken for standard input or
/// output. A held stream fails at each read and each write, as a closed one does.
pub fn hold_places<R: Files>(rt: &R) -> PlacesHeld<R::File> {
    PlacesHeld {
        first: fs::open(rt, ROOT).ok(),
        second: fs::open(rt, ROOT).ok(),
        third: fs::open(rt, ROOT).ok(),
    }
}
