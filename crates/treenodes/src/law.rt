//! What nodes that form a tree amount to.
ghost use Rattle.treenodes.specs.Law.{MapIsRead, MeetingReferencesAreOne};

/// States that a tree holds one map, which its data nodes' events give.
pub fn maps_are_read_off()
    ensures { MapIsRead }
{}

/// States that references of one level that have a point in common are to one node.
pub fn meeting_references_are_one()
    ensures { MeetingReferencesAreOne }
{}
