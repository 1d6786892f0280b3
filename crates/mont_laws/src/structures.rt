// Which structure the records of a unit have, in whatever order they stand.
ghost use Rattle.mont_laws.specs.Structures.{ShowOneState, ShowInAnyOrder, AgreeWithObjects, DropObsolete, ShowEmpty, FollowNoHistory, HaveSize};

/// Records have one structure at most.
pub fn records_show_one_state()
    ensures { ShowOneState }
{}

/// The order in which records stand makes no difference.
pub fn records_show_in_any_order()
    ensures { ShowInAnyOrder }
{}

/// The structure is the one that the live objects make in their order.
pub fn records_agree_with_objects()
    ensures { AgreeWithObjects }
{}

/// An obsolete record can be dropped or added.
pub fn obsolete_records_drop()
    ensures { DropObsolete }
{}

/// No records have the empty structure of the unit's kind.
pub fn no_records_show_empty()
    ensures { ShowEmpty }
{}

/// Records that were found are those of a base and of no entries yet.
pub fn found_records_follow()
    ensures { FollowNoHistory }
{}

/// There are as many live objects as things.
pub fn records_have_size()
    ensures { HaveSize }
{}
