//! Laws about the requests of a connection: empty functions whose contracts are the laws.

ghost use Rattle.handheld_http.specs.Items.{OneCut, NoProperFront, ItemsAreInRange, HeadStays, HeadTellsCut};
ghost use Rattle.handheld_http.specs.Items.{RefusalStays, WholeIsItem, MoreIsNone, RefusedIsNone, ItemIsCut};
ghost use Rattle.handheld_http.specs.Requests.{ItemsMean, OneMeaning};
ghost use Rattle.handheld_http.specs.RouteLaws.{PartsAreParameters};

/// Bytes are cut in only one way.
pub fn one_cut()
    ensures law { OneCut }
{}

/// No request is a proper prefix of another.
pub fn no_proper_front()
    ensures law { NoProperFront }
{}

/// A request has 4 to 270,336 bytes.
pub fn items_are_in_range()
    ensures law { ItemsAreInRange }
{}

/// The extent of a head does not change as more bytes arrive, so it is read once.
pub fn head_stays()
    ensures law { HeadStays }
{}

/// The head's extent decides how all received bytes are cut. So a body that arrives in pieces is awaited only by its
/// length.
pub fn head_tells_cut()
    ensures law { HeadTellsCut }
{}

/// Refused bytes are still refused when more arrive.
pub fn refusal_stays()
    ensures law { RefusalStays }
{}

/// A whole request that was cut is a request, and closes the connection if the cut says so.
pub fn whole_is_item()
    ensures law { WholeIsItem }
{}

/// If more bytes are awaited, no prefix is a request, and nothing is refused.
pub fn more_is_none()
    ensures law { MoreIsNone }
{}

/// If bytes are refused, no prefix is a request, whatever follows.
pub fn refused_is_none()
    ensures law { RefusedIsNone }
{}

/// A request is cut from bytes that begin with it.
pub fn item_is_cut()
    ensures law { ItemIsCut }
{}

/// A request asks for only one thing.
pub fn one_meaning()
    ensures law { OneMeaning }
{}

/// Each request asks for something, and nothing else does.
pub fn items_mean()
    ensures law { ItemsMean }
{}

/// The parts of a view's path are the values of its route's parameters.
pub fn parts_are_parameters()
    ensures law { PartsAreParameters }
{}
