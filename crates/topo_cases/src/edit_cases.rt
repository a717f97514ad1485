//! The five edits of an embedding, computed. The function does nothing: its contract is the
//! evidence.

ghost use Rattle.topo_cases.specs.EditCases.{EditEvidence};

/// A path of three points and a segment by itself, which is hung from it, made a ring with it, and
/// put into one of its segments.
pub fn edits()
    ensures { EditEvidence }
{}
