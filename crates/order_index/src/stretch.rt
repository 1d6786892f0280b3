// Where the entries of a range stand among all.
ghost use Rattle.std.specs.Prelude.{◌≡◌, ◌-◌};

/// The entries from one key to another by their places: that of the first, and the one after the
/// last. Where there are none, both are the place where the first would be.
#[derive(Clone, Copy, Debug, PartialEq, Eq)]
pub struct Stretch {
    pub first: u64,
    pub behind: u64,
}

impl Stretch {
    /// How many entries these are.
    pub fn len(&self) -> u64
        ensures { result ≡ self.now.behind - self.now.first }
    {
        self.behind.saturating_sub(self.first)
    }
}
