//! Laws: each function's `ensures` clause is a statement about all records and lists.

ghost use Rattle.lru_lists.specs.Lists.{OthersStayLinked, OneOfAllChanges};

/// A call on one owner's lists changes no other owner's lists, nor the marks and dirt of their units. The clause
/// `ChangesOwn` of each such call implies it.
pub fn others_stay_linked()
    ensures { OthersStayLinked }
{}

/// If the lists of several owners, kept in the order of their numbers, are linked through the same records, then they
/// still are after a call on the lists of one of them.
pub fn one_of_all_changes()
    ensures { OneOfAllChanges }
{}
