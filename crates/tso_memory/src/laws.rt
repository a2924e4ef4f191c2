//! Laws of memory and of the view of a thread, for the crates above. The functions do nothing;
//! what they ensure is the law.
ghost use Rattle.tso_memory.specs.Laws.{LoadsWhatWasStored, StoreElsewhereLeaves, StoresByteByByte, ViewIsFold, DrainingKeepsView, ViewIsWhereRight, SeesNewestStore, LiftElsewhereLeaves, PlaceElsewhereLeaves, PushLeavesRight, DrainLeavesRight, ItemChangesObjects, StoreLeavesObjects};

/// What a load finds after a store.
pub fn loads_after_stores()
    ensures same { LoadsWhatWasStored }
    ensures elsewhere { StoreElsewhereLeaves }
    ensures byte_by_byte { StoresByteByByte }
{}

/// The view behind more items and behind fewer.
pub fn views_behind_items()
    ensures fold { ViewIsFold }
    ensures drained { DrainingKeepsView }
    ensures right { ViewIsWhereRight }
    ensures newest { SeesNewestStore }
{}

/// Objects that begin and end elsewhere.
pub fn objects_elsewhere()
    ensures lifted { LiftElsewhereLeaves }
    ensures placed { PlaceElsewhereLeaves }
{}

/// How a count of the first items of a buffer, whose stores are known to be right in their turn,
/// may be kept: a push leaves it, a pop of the oldest item that is applied takes one off, and a
/// store that another thread's buffer gives to memory leaves it.
pub fn items_known_right()
    ensures pushed { PushLeavesRight }
    ensures drained { DrainLeavesRight }
    ensures applied { ItemChangesObjects }
    ensures stored { StoreLeavesObjects }
{}
