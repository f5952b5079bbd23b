//! Laws of the directory's definitions. A call costs nothing and tells its caller the law.
ghost use Rattle.placement.specs.Laws.{OneEachStays, SlotOfIsWhere, LeastFreeIsLeast};

/// No object comes to stand in two slots.
pub fn one_each_stays()
    ensures { OneEachStays }
{}

/// An object's slot is the one where it stands, and it has none exactly where it stands nowhere.
pub fn slot_of_is_where()
    ensures { SlotOfIsWhere }
{}

/// The least free slot has no object, and each slot below it has one.
pub fn least_free_is_least()
    ensures { LeastFreeIsLeast }
{}
