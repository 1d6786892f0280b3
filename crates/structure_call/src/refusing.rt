// Refusals of a guard as refusals of the call, which name the unit.
ghost use Rattle.std.specs.Prelude.{◌≡◌};
ghost use Rattle.structure_call.specs.Refusing.{cut_in, refused_in};

use mont_base::{CallRefusal, Cut, Unit};
use op_guard::{Guard, GuardRefusal};

// Hands an answer of a guard's steps on, or a cut in the unit.
pub(crate) fn or_cut<T>(answer: Result<T, Cut>, unit: Unit) -> Result<T, CallRefusal>
    ensures { result ≡ cut_in unit answer }
{
    match answer {
        Ok(value) => Ok(value),
        Err(_cut) => Err(CallRefusal::Cut { unit }),
    }
}

// Hands a guard on, or why none was begun in the unit.
pub(crate) fn or_refused(
    begun: Result<Guard, GuardRefusal>,
    unit: Unit,
) -> Result<Guard, CallRefusal>
    ensures { result ≡ refused_in unit begun }
{
    match begun {
        Ok(guard) => Ok(guard),
        Err(GuardRefusal::Full { need, free, clock }) => {
            Err(CallRefusal::Full { need, free, clock })
        }
        Err(GuardRefusal::Cut) => Err(CallRefusal::Cut { unit }),
    }
}
