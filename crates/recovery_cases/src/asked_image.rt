// What a case asks of its image. A line of its part `ask` is one of these; a case without such a
// part asks `recover`. One with a part `read` asks for the image as its text has it.
//
//     recover      the fault of the image, or how many slots are lost, and the contents
//     migrate      the fault of the image, or the image as images are now
//     scan         the fault of a slot, or the records of all units and the lost slots
//     units        the fault of the image, or of each unit the slots of its records, its lost
//                  slots, and the slots of its live objects
//     sweep N      what sweeps leave that are cut after 0 to N steps
//     parts N      what a store for N callers is taken apart into, when it is swept
//     pick N       what the mask N picks, where durable words are by 4000 more than current ones
//     memory       how it is told that memory ran out

/// A line of a part `ask`.
#[derive(Clone, Copy)]
pub enum Asked {
    Recover,
    Migrate,
    Scan,
    Units,
    Sweep { most: u64 },
    Parts { callers: u64 },
    Pick { mask: u64 },
    Memory,
}

impl Asked {
    /// What a line asks, if it asks something.
    pub fn of_line(line: &str) -> Option<Asked> {
        match line.split_once(' ') {
            Some((word, number)) => Asked::with_number(word, number.parse().ok()?),
            None => Asked::of_word(line),
        }
    }

    fn of_word(word: &str) -> Option<Asked> {
        match word {
            "recover" => Some(Asked::Recover),
            "migrate" => Some(Asked::Migrate),
            "scan" => Some(Asked::Scan),
            "units" => Some(Asked::Units),
            "memory" => Some(Asked::Memory),
            _ => None,
        }
    }

    fn with_number(word: &str, number: u64) -> Option<Asked> {
        match word {
            "sweep" => Some(Asked::Sweep { most: number }),
            "parts" => Some(Asked::Parts { callers: number }),
            "pick" => Some(Asked::Pick { mask: number }),
            _ => None,
        }
    }
}
