// How faults of slots and of objects are named.
ghost use Rattle.std.specs.Prelude.{◌≡◌};
ghost use Rattle.image_units.specs.FaultWords.{object_fault_name, slot_fault_name, word_at_fault};

use mont_base::{ObjectFault, SlotFault};

// The name of a fault of a slot, and the word at fault.
pub(crate) fn slot_fault_word(fault: SlotFault) -> (&'static str, u64)
    ensures name { result.0.now ≡ slot_fault_name fault }
    ensures word { result.1 ≡ word_at_fault fault }
{
    match fault {
        SlotFault::Kind { word } => ("kind", word),
        SlotFault::Unit { word } => ("unit", word),
        SlotFault::Identity { word } => ("identity", word),
        SlotFault::Version { word } => ("version", word),
    }
}

// The name of a fault of an object.
pub(crate) fn object_fault_word(fault: ObjectFault) -> &'static str
    ensures { result.now ≡ object_fault_name fault }
{
    match fault {
        ObjectFault::Spare => "spare",
        ObjectFault::Shard => "shard",
        ObjectFault::Key => "key",
        ObjectFault::Serial => "serial",
        ObjectFault::Tag => "tag",
        ObjectFault::Loop => "loop",
        ObjectFault::Vertex => "vertex",
        ObjectFault::Edge => "edge",
        ObjectFault::End => "end",
        ObjectFault::Text => "text",
    }
}
