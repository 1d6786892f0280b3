// Every fault of the live objects of a unit.
ghost use Rattle.std.specs.Prelude.{◌≡◌, ◌<◌, ◌≤◌, ◌++◌, List, [], ◌∷◌, length, Option, Some, IfOk, OnOk};
ghost use Rattle.mont_base.specs.declared.constants.TheConstants.{LAST};
ghost use Rattle.mont_base.specs.declared.kinds.UnitKind.TheVariants as kinds;
ghost use Rattle.mont_base.specs.declared.record.Object.{Object};
ghost use Rattle.mont_base.specs.declared.record.ObjectFault.{ObjectFault};
ghost use Rattle.mont_base.specs.Image.{clock_of};
ghost use Rattle.mont_base.specs.Layout.{kind_of, units_of, words_of};
ghost use Rattle.image_info.specs.AllFaults.{judged, kind_faults, unit_faults};

use crate::graph_faults::push_graph_faults;
use crate::item_faults::ItemJudge;
use crate::old_pair_faults::OldPairJudge;
use crate::pair_faults::PairJudge;
use image_units::ImageFault;
use mont_base::{Object, ObjectFault, Unit, UnitKind};
use mont_image::Image;
use payload::live_objects;
use plain::records;
use std::alloc::{AllocError, Global};

/// Judges objects, one after the other.
pub(crate) trait Judge {
    // The fault of an object, where these stand in lower slots.
    ghost fault_of: { Self → List Object → Object → Option ObjectFault };

    // It knows the names of these objects.
    ghost knows: { Self → List Object → Type 0 };

    /// The fault of an object, if it has one.
    fn judge(&mut self, object: &Object) -> Result<Option<ObjectFault>, AllocError>
        ensures fault { IfOk result (λ f. (lower : List Object)
            → knows self.old lower → f ≡ fault_of self.old lower object.now) }
        ensures known { OnOk result ((lower : List Object)
            → knows self.old lower → knows self.new (lower ++ object.now ∷ [])) }
        ensures same { fault_of self.new ≡ fault_of self.old };
}

/// Adds every fault of the live objects of a unit, by rising slot.
pub(crate) fn push_object_faults(
    alloc: Global,
    image: &Image,
    wide: &[u64],
    unit: Unit,
    faults: &mut Vec<ImageFault>,
) -> Result<(), AllocError>
    requires size { length wide.now ≡ words_of image.now.layout }
    requires clock { clock_of wide.now ≤ LAST }
    requires unit { unit < units_of image.now.layout }
    ensures { OnOk result (faults.new.items
        ≡ faults.old.items ++ unit_faults image.now.old image.now.layout wide.now unit) }
{
    let layout = image.layout;
    let held = records(alloc, layout, wide, unit)?;
    let objects = live_objects(alloc, &held)?;
    match layout.kind(unit) {
        UnitKind::Map => push_map_faults(alloc, image, unit, &objects, faults),
        UnitKind::Queue => push_judged(&mut ItemJudge::new(alloc), unit, &objects, faults),
        UnitKind::Graph => push_graph_faults(alloc, unit, &objects, faults),
        UnitKind::Ordered => {
            let mut judge = PairJudge::new(alloc, layout, unit);
            push_judged(&mut judge, unit, &objects, faults)
        }
    }
}

// Adds every fault of the objects of a map.
fn push_map_faults(
    alloc: Global,
    image: &Image,
    unit: Unit,
    objects: &[Object],
    faults: &mut Vec<ImageFault>,
) -> Result<(), AllocError>
    ensures { OnOk result (faults.new.items ≡ faults.old.items
        ++ kind_faults image.now.old image.now.layout unit kinds.Map objects.now) }
{
    if image.old {
        let mut judge = OldPairJudge::new(alloc, image.layout, unit);
        push_judged(&mut judge, unit, objects, faults)
    } else {
        let mut judge = PairJudge::new(alloc, image.layout, unit);
        push_judged(&mut judge, unit, objects, faults)
    }
}

/// Adds the fault of each object that has one.
pub(crate) fn push_judged<J: Judge>(
    judge: &mut J,
    unit: Unit,
    objects: &[Object],
    faults: &mut Vec<ImageFault>,
) -> Result<(), AllocError>
    requires { J.knows judge.old [] }
    ensures added { OnOk result (faults.new.items
        ≡ faults.old.items ++ judged unit (J.fault_of judge.old) objects.now) }
    ensures known { OnOk result (J.knows judge.new objects.now) }
{
    for object in objects {
        if let Some(fault) = judge.judge(object)? {
            let slot = object.slot;
            faults.push(ImageFault::Object { unit, slot, fault })?;
        }
    }
    Ok(())
}
