//! Laws about duties.

ghost use Rattle.ldar_law.specs.DutyLaws.{DutiesStandInOrder, EventDutiesFollowEvents};

/// The duties of a component are in order of cause and due day, without sorting.
pub fn duties_stand_in_order()
    ensures law { DutiesStandInOrder }
{}

/// The duties of each of the three causes that follow events are in the order of the events.
pub fn event_duties_follow_events()
    ensures law { EventDutiesFollowEvents }
{}
