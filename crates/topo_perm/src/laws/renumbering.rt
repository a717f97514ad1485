//! Darts under new numbers, as in a slab: what is counted and what is joined stays.

ghost use Rattle.topo_perm.specs.Renumbering.{RenumberedClasses, RenumberedConnected};
ghost use Rattle.topo_perm.specs.Renumbering.{RenumberedCycles, RenumberedFaces, RenumberedJoined};
ghost use Rattle.topo_perm.specs.Renumbering.{RenumberedSameCycle, RenumberedWhole};

/// As many classes and as many cycles.
pub fn counts()
    ensures classes { RenumberedClasses }
    ensures cycles { RenumberedCycles }
    ensures whole { RenumberedWhole }
    ensures same_cycle { RenumberedSameCycle }
{}

/// A renumbering of the turn is one of the faces.
pub fn faces()
    ensures { RenumberedFaces }
{}

/// A renumbering joins the darts that were joined.
pub fn joined()
    ensures joined { RenumberedJoined }
    ensures connected { RenumberedConnected }
{}
