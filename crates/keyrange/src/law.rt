//! Laws of rectangles.
ghost use Rattle.keyrange.specs.Law.{InsideItself, InsideOuter, InnerIsCommon, CommonToOuter, CommonEitherWay, HalvesInside, HalvesApart};

/// States that a rectangle lies inside itself, and inside all that the one around it lies in.
pub fn rectangles_lie_inside()
    ensures itself { InsideItself }
    ensures outer { InsideOuter }
{}

/// States that rectangles around another have a point in common; a common point of one stays so
/// around it, and either way.
pub fn rectangles_have_points()
    ensures inner { InnerIsCommon }
    ensures outer { CommonToOuter }
    ensures turned { CommonEitherWay }
{}

/// States that both halves lie inside their whole, and have no point in common.
pub fn halves_part_their_whole()
    ensures inside { HalvesInside }
    ensures apart { HalvesApart }
{}
