// What stands in a slot of the store.
ghost use Rattle.std.specs.Prelude.{◌≡◌};

use mont_base::Slot;

/// What stands in a slot, as a written record does.
pub trait InSlot {
    ghost use Rattle.std.specs.Prelude.{ℕ};

    ghost in_slot: { Self → ℕ };

    /// The slot.
    fn slot(&self) -> Slot
        ensures { result ≡ in_slot self.now };
}
