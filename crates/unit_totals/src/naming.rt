// Sums over the receipts that name the entries of histories.
ghost use Rattle.unit_totals.specs.Naming.{CallersNameEachOnce, EachOnceSumsUp};

/// The receipts of all callers, in one list, name each entry of the histories once.
pub fn callers_name_each_once()
    ensures { CallersNameEachOnce }
{}

/// What is summed over receipts that name each entry once is summed over the entries.
pub fn each_once_sums_up()
    ensures { EachOnceSumsUp }
{}
