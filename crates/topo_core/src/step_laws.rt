//! Laws of steps and replays. The functions do nothing: their contracts are the laws.

ghost use Rattle.topo_core.specs.StepLaws.{FirstIsOne, ReplaysGoOn, StepsAreDetermined};
ghost use Rattle.topo_core.specs.StepLaws.{VersionsGoOn, VersionsReplay};

use crate::prices::Prices;

/// Between two vertices there is at most one first route, and it has one cost.
pub fn first_is_one<P: Prices>()
    ensures { FirstIsOne P.price }
{}

/// From a picture a call has at most one reply, and leads to one picture.
pub fn steps_are_determined<P: Prices>()
    ensures { StepsAreDetermined P.price }
{}

/// A list of entries with one more, a step from where they lead, leads on by that step.
pub fn replays_go_on<P: Prices>()
    ensures { ReplaysGoOn P.price }
{}

/// A refused call changes nothing, so the accepted entries alone lead to the same picture.
pub fn versions_replay<P: Prices>()
    ensures { VersionsReplay P.price }
{}

/// A history with one entry more has the versions that it had, and the entry where it was accepted.
pub fn versions_go_on()
    ensures { VersionsGoOn }
{}
