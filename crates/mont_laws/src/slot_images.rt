// What an image that a crash permits has of a slot.
ghost use Rattle.mont_laws.specs.SlotImages.{ImagesHaveParts, SlotsOutsideAreUnread, EpochsShowRecords, RecordsAreReadOrNothing, DurableRecordsStand};

/// A crash permits the words of each slot by themselves.
pub fn images_have_parts()
    ensures { ImagesHaveParts }
{}

/// A slot that is closed or beyond the cut in both memories is read as nothing.
pub fn slots_outside_are_unread()
    ensures { SlotsOutsideAreUnread }
{}

/// An image that shows a record's epoch shows the record, where both memories have its other words.
pub fn epochs_show_records()
    ensures { EpochsShowRecords }
{}

/// A record that stands in its slot is read whole, or as nothing.
pub fn records_are_read_or_nothing()
    ensures { RecordsAreReadOrNothing }
{}

/// A record that is durable word for word stands in its slot, also once the slot is closed.
pub fn durable_records_stand()
    ensures { DurableRecordsStand }
{}
