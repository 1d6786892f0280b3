// The name of a file that is written beside another.
ghost use Rattle.std.specs.Prelude.{IfOk, string_bytes};
ghost use Rattle.process_devices.specs.BesideName.{IsBesideName};

use std::alloc::{AllocError, Global};

/// The name of a file has at most so many bytes.
pub(crate) const NAME_BYTES: usize = 255;

const _: () = prove!(NAME_BYTES == 255);

// The name of the file beside one of this name, at this try: a front of that name, the try's number
// and a word that tells what it is. It fits whatever the name is.
pub(crate) fn beside_name(alloc: Global, name: &str, turn: u16) -> Result<String, AllocError>
    ensures { IfOk result (λ beside. IsBesideName name.now turn (string_bytes beside)) }
{
    let ending = format!(in alloc; ".{turn}.unfinished")?;
    let end = name.floor_char_boundary(NAME_BYTES.saturating_sub(ending.len()));
    let front = name.get(..end).unwrap_or("");
    format!(in alloc; "{front}{ending}")
}
