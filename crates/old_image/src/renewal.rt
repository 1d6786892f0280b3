// The live objects of a unit, with their bodies as they are now.
ghost use Rattle.std.specs.Prelude.{◌≡◌, ◌<◌, ◌≤◌, ◌^◌, length, map, IfErr, IfOk, IfSome, OnOk, Some};
ghost use Rattle.mont_base.specs.declared.constants.TheConstants.{LAST};
ghost use Rattle.mont_base.specs.declared.kinds.UnitKind.TheVariants as kinds;
ghost use Rattle.mont_base.specs.Image.{clock_of};
ghost use Rattle.mont_base.specs.Layout.{kind_of, units_of, words_of};
ghost use Rattle.mont_base.specs.Texts.{are_zero};
ghost use Rattle.mont_image.specs.StoredImage.{IsOldKinds};
ghost use Rattle.plain.specs.Built.{MakesStructure};
ghost use Rattle.old_image.specs.OldSlots.{objects_in};
ghost use Rattle.old_image.specs.OldStructure.{number_pair_in, renewed_object};
ghost use Rattle.old_image.specs.Renewal.{AreFrontPairs, AreRenewed, IsObjectRefusal, IsOldObjectRefusal, RenewsUnit};

use image_units::RecoverRefusal;
use mont_base::{BODY, Layout, Object, ObjectFault, Slot, Text, Unit, UnitKind};
use payload::{live_objects, pair_body};
use plain::{build, records};
use std::alloc::{AllocError, Global};

// The live objects of a unit with their bodies as they are now, or the first with a fault.
pub(crate) fn renewed_objects(
    alloc: Global,
    layout: Layout,
    wide: &[u64],
    unit: Unit,
) -> Result<Vec<Object>, RecoverRefusal>
    requires kinds { IsOldKinds layout.kinds }
    requires size { length wide.now ≡ words_of layout }
    requires clock { clock_of wide.now ≤ LAST }
    requires unit { unit < units_of layout }
    ensures renewed { IfOk result
        (λ v. AreRenewed layout unit (objects_in layout wide.now unit) v.items) }
    ensures kept { OnOk result (RenewsUnit layout unit (objects_in layout wide.now unit)) }
    ensures refused { IfErr result
        (IsOldObjectRefusal layout unit (objects_in layout wide.now unit)) }
{
    let records = records(alloc, layout, wide, unit)?;
    let objects = live_objects(alloc, &records)?;
    match layout.kind(unit) {
        UnitKind::Map => renewed_pairs(alloc, layout, unit, &objects),
        UnitKind::Queue | UnitKind::Graph | UnitKind::Ordered => {
            check_objects(alloc, layout, unit, &objects)?;
            Ok(objects)
        }
    }
}

// The objects of a map with the digits of their numbers. A body with a word that isn't used and
// isn't 0 is the first fault, where the objects in lower slots have none.
fn renewed_pairs(
    alloc: Global,
    layout: Layout,
    unit: Unit,
    objects: &[Object],
) -> Result<Vec<Object>, RecoverRefusal>
    requires old { IsOldKinds layout.kinds }
    requires unit { unit < units_of layout }
    requires map { kind_of layout unit ≡ Some kinds.Map }
    ensures renewed { IfOk result (λ v. v.items ≡ map (renewed_object kinds.Map) objects.now) }
    ensures kept { OnOk result (RenewsUnit layout unit objects.now) }
    ensures refused { IfErr result (IsOldObjectRefusal layout unit objects.now) }
{
    let front = front_pairs(alloc, objects)?;
    check_objects(alloc, layout, unit, &front.pairs)?;
    match front.spare {
        Some(slot) => Err(RecoverRefusal::Object {
            unit,
            slot,
            fault: ObjectFault::Spare,
        }),
        None => Ok(front.pairs),
    }
}

// Objects of a map, up to the first one with a word that isn't used and isn't 0.
#[derive(Drop)]
struct Front {
    // Those in front of that one, with the digits of their numbers.
    pairs: Vec<Object>,
    // The slot of that one.
    spare: Option<Slot>,
}

fn front_pairs(alloc: Global, objects: &[Object]) -> Result<Front, AllocError>
    ensures { IfOk result (λ f. AreFrontPairs objects.now f.pairs.items f.spare) }
{
    let mut pairs = Vec::new(alloc);
    for object in objects {
        match number_pair_in(&object.body) {
            Some(numbers) => pairs.push(renewed_pair(object, numbers))?,
            None => {
                let spare = Some(object.slot);
                return Ok(Front { pairs, spare });
            }
        }
    }
    Ok(Front { pairs, spare: None })
}

// Key and value of a body, if no other word is used.
fn number_pair_in(body: &[u64; BODY]) -> Option<(u64, u64)>
    ensures exact { result ≡ number_pair_in body.now }
    ensures small { IfSome result (λ p. (p.0 < 2 ^ 64) × (p.1 < 2 ^ 64)) }
{
    let [key, value, ..] = *body;
    are_zero(&body[2..]).then_some((key, value))
}

fn are_zero(words: &[u64]) -> bool
    ensures { result ≡ are_zero words.now }
{
    words.iter().all(|word| *word == 0)
}

// The object with the digits of its key and its value.
fn renewed_pair(object: &Object, numbers: (u64, u64)) -> Object
    requires { number_pair_in object.now.body ≡ Some numbers }
    ensures { result ≡ renewed_object kinds.Map object.now }
{
    let (key, value) = numbers;
    Object {
        body: pair_body(&Text::of_number(key), &Text::of_number(value)),
        ..*object
    }
}

// Refuses objects that make no structure.
fn check_objects(
    alloc: Global,
    layout: Layout,
    unit: Unit,
    objects: &[Object],
) -> Result<(), RecoverRefusal>
    requires { unit < units_of layout }
    ensures sound { OnOk result (MakesStructure layout unit objects.now) }
    ensures refused { IfErr result (IsObjectRefusal layout unit objects.now) }
{
    match build(alloc, layout, unit, objects) {
        Ok(_) => Ok(()),
        Err(refusal) => Err(RecoverRefusal::of_build(unit, refusal)),
    }
}
