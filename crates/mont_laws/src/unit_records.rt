// Recovery's list of a unit's records, by its members.
ghost use Rattle.mont_laws.specs.UnitRecords.{RecordsAreListed, RecordsAreListedOnce, AlikeImagesGiveOneList, ImagesHaveCuts};

/// Recovery lists what the unit's slots are read as, by rising slot.
pub fn records_are_listed()
    ensures { RecordsAreListed }
{}

/// No other list has these members by rising slot.
pub fn records_are_listed_once()
    ensures { RecordsAreListedOnce }
{}

/// Images that are read alike at each slot of a unit give one list.
pub fn alike_images_give_one_list()
    ensures { AlikeImagesGiveOneList }
{}

/// Recovery reads a unit's records up to the image's cut, or these without the closing one.
pub fn images_have_cuts()
    ensures { ImagesHaveCuts }
{}
