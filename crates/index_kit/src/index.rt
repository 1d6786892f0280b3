// A finite map from texts to places whose room is made before it is filled.
ghost use Rattle.std.specs.Prelude.{◌≡◌, ◌+◌, ◌≤◌, ℕ, None, IsSome, OnOk, OnErr};
ghost use Rattle.std.specs.FinMap as finite;
ghost use Rattle.index_kit.specs.Index.{Places, CanPut};

use mont_base::Text;
use std::alloc::AllocError;

/// A map from keys to places, as a unit keeps it in memory: where the slot of each live key is.
///
/// Contracts see the map, and for how many new keys there is room. Only `reserve` takes memory.
pub trait Index: Drop {
    ghost places: { Self → Places };

    ghost spare: { Self → ℕ };

    /// How many keys there are.
    fn len(&self) -> u64
        ensures { result ≡ finite.len (places self.now) };

    /// The place of a key, if it is there.
    fn find(&self, key: Text) -> Option<u64>
        ensures { result ≡ finite.get (places self.now) key };

    /// Makes room for one more key at least.
    fn reserve(&mut self) -> Result<(), AllocError>
        ensures kept { places self.new ≡ places self.old }
        ensures ok { OnOk result (1 ≤ spare self.new) }
        ensures err { OnErr result (spare self.new ≡ spare self.old) };

    /// Sets the place of a key, and gives its earlier one, if there was one. A key that is new
    /// needs room.
    fn put(&mut self, key: Text, place: u64) -> Option<u64>
        requires { CanPut (places self.old) (spare self.old) key }
        ensures earlier { result ≡ finite.get (places self.old) key }
        ensures set { places self.new ≡ finite.insert (places self.old) key place }
        ensures new_takes_one { result ≡ None → spare self.old ≤ spare self.new + 1 }
        ensures room_stays { IsSome result → spare self.new ≡ spare self.old };

    /// Takes a key out, and gives its place, if it was there.
    fn remove(&mut self, key: Text) -> Option<u64>
        ensures earlier { result ≡ finite.get (places self.old) key }
        ensures taken { places self.new ≡ finite.remove (places self.old) key }
        ensures room_stays { spare self.old ≤ spare self.new };
}
