// Things that are gathered from objects, one object after the other.
ghost use Rattle.std.specs.Prelude.{◌≡◌, List, [], ◌∷◌, ◌++◌, Option, Some, None, Ok, IfOk};
ghost use Rattle.mont_base.specs.declared.record.Object.{Object};
ghost use Rattle.mont_base.specs.declared.record.ObjectFault.{ObjectFault};
ghost use Rattle.mont_base.specs.Structure.{first_fault};

use mont_base::{Object, ObjectFault, Slot};
use std::alloc::AllocError;

// Gathers what objects hold.
pub(crate) trait Gather {
    // The fault of an object, where these stand in lower slots.
    ghost fault_of: { Self → List Object → Object → Option ObjectFault };

    // It has gathered what these objects hold.
    ghost has: { Self → List Object → Type 0 };

    // Adds what an object holds, or gives its fault.
    fn add(&mut self, object: &Object) -> Result<Option<ObjectFault>, AllocError>
        ensures fault { IfOk result (λ f. (lower : List Object)
            → has self.old lower → f ≡ fault_of self.old lower object.now) }
        ensures added { result ≡ Ok None → (lower : List Object)
            → has self.old lower → has self.new (lower ++ object.now ∷ []) }
        ensures same { fault_of self.new ≡ fault_of self.old };
}

// Adds what the objects hold, up to the first with a fault.
pub(crate) fn gather_all<G: Gather>(
    into: &mut G,
    objects: &[Object],
) -> Result<Option<(Slot, ObjectFault)>, AllocError>
    requires { G.has into.old [] }
    ensures fault { IfOk result (λ f. f ≡ first_fault (G.fault_of into.old) [] objects.now) }
    ensures gathered { result ≡ Ok None → G.has into.new objects.now }
{
    for object in objects {
        if let Some(fault) = into.add(object)? {
            return Ok(Some((object.slot, fault)));
        }
    }
    Ok(None)
}
