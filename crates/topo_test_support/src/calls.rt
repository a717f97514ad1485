//! Calls as values, with edges of kind 0.

ghost use Rattle.std.specs.Prelude.{◌≡◌};
ghost use Rattle.topo_core.specs.declared.calls.Call.TheVariants.{Grow, Insert, Delete};
ghost use Rattle.topo_core.specs.declared.calls.Command.TheVariants.{Planned};

use topo_core::calls::{Call, Command};

/// A new vertex in the first corner of `u`.
pub fn grow(u: u32) -> Call
    ensures { result ≡ Grow u 0 0 }
{
    Call::Grow {
        u,
        position: 0,
        kind: 0,
    }
}

/// An edge from `u` to `v`.
pub fn insert(u: u32, v: u32) -> Call
    ensures { result ≡ Insert u v 0 }
{
    Call::Insert { u, v, kind: 0 }
}

/// An edge taken out.
pub fn delete(edge: u32) -> Call
    ensures { result ≡ Delete edge }
{
    Call::Delete { edge }
}

/// An edge from `u` to `v`, whose route is looked for outside the lock.
pub fn planned(u: u32, v: u32) -> Command
    ensures { result ≡ Planned u v 0 }
{
    Command::Planned { u, v, kind: 0 }
}
