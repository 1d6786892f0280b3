// The numbers of a shift: what stands under both keys, and what will, by side and by unit.
ghost use Rattle.std.specs.Prelude.{◌≡◌, IfOk, IfErr, MatchOption};
ghost use Rattle.shard_map.specs.MovedNumbers.{AreMoved, CannotMove, HasNoNumber, IsNumber, of_high, of_low};

use crate::number_texts::number_in;
use crate::shift_refusal::ShiftRefusal;
use mont_base::Text;

// The numbers that stand under both keys after the move.
pub(crate) fn moved(
    from: &Text,
    to: &Text,
    out: Option<Text>,
    into: Option<Text>,
    amount: u64,
) -> Result<(u64, u64), ShiftRefusal>
    ensures moved { IfOk result (λ numbers. AreMoved out into amount numbers) }
    ensures cannot { IfErr result (λ why. CannotMove from.now to.now out into amount why) }
{
    let Some(have) = number_under(out) else {
        return Err(ShiftRefusal::Missing { key: *from });
    };
    let Some(had) = number_under(into) else {
        return Err(ShiftRefusal::Missing { key: *to });
    };
    let Some(less) = have.checked_sub(amount) else {
        return Err(ShiftRefusal::Short { have });
    };
    let Some(more) = had.checked_add(amount) else {
        return Err(ShiftRefusal::Over { have: had });
    };
    Ok((less, more))
}

// The number that a value is, if there is a value and it is one.
fn number_under(value: Option<Text>) -> Option<u64>
    ensures { MatchOption result (HasNoNumber value) (IsNumber value) }
{
    number_in(&value?)
}

// What belongs to the lower unit and to the higher one, of what belongs to `from` and to `to`; and
// the other way round.
pub(crate) fn in_order<T: Copy>(up: bool, from: T, to: T) -> (T, T)
    ensures { result ≡ (of_low up (from, to), of_high up (from, to)) }
{
    if up { (from, to) } else { (to, from) }
}
