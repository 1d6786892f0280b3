// What keeps values that lie side by side out of each other's cache lines.
ghost use Rattle.std.specs.Prelude.{◌≡◌};

const WORDS: usize = 16;

/// 128 bytes, a pair of cache lines, that nobody reads. What stands before them in one value and in
/// the next one of a list shares no pair, wherever the list begins.
#[derive(Clone, Copy)]
pub struct Padding {
    words: [u64; WORDS],
}

const _: () = prove!(size_of::<Padding>() == 128);

impl Padding {
    pub(crate) fn new() -> Padding {
        Padding { words: [0; WORDS] }
    }
}

/// A value that shares no pair of cache lines with what stands after it.
#[derive(Drop)]
pub struct Apart<T> {
    pub part: T,
    apart: Padding,
}

impl<T> Apart<T> {
    /// The value, with room after it.
    pub fn new(part: T) -> Apart<T>
        ensures { result.part ≡ part }
    {
        Apart {
            part,
            apart: Padding::new(),
        }
    }

    /// Gives the value back.
    pub fn into_part(self) -> T
        ensures { result ≡ self.part }
    {
        let Apart { part, apart: _ } = self;
        part
    }
}
