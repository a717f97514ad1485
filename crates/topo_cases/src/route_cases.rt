//! Routes that outlive other calls, and regions, computed on small pictures. The functions do
//! nothing: their contracts are the evidence.

ghost use Rattle.topo_cases.specs.RegionEvidence.{RegionEvidence};
ghost use Rattle.topo_cases.specs.SurvivingEvidence.{CrossedElsewhere};

/// Two apexes joined across a triangle, and then an edge that crosses the joining one: the first of
/// the other routes from apex to apex stays, and darts that it has seen have new segment numbers.
pub fn crossed_elsewhere()
    ensures { CrossedElsewhere }
{}

/// The region of a search in one face of the hexagon: changes elsewhere spare it, keep it, and
/// leave the route the first; an edge that parts the face does not, and another route is the first
/// then.
pub fn one_face()
    ensures { RegionEvidence }
{}
