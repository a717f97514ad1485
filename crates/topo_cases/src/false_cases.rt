//! Where the definitions say no, computed on small pictures. The functions do nothing: their
//! contracts are the evidence.

ghost use Rattle.topo_cases.specs.FalseCases.{FaultyRowsEvidence, NoCertificateEvidence};
ghost use Rattle.topo_cases.specs.FalseCases.{NotFirstEvidence, TwoPartsEvidence};

/// Two parts, each with an edge: no point is bare, but the picture is not connected.
pub fn two_parts()
    ensures { TwoPartsEvidence }
{}

/// Rows with one fault each, which the tests of paths, crossings and rotations find.
pub fn faulty_rows()
    ensures { FaultyRowsEvidence }
{}

/// Routes that lead from vertex to vertex and are not the first, by their cost or by their place
/// among those that cost the same.
pub fn not_first()
    ensures { NotFirstEvidence }
{}

/// Heights that are no certificate, a route that meets a face twice, and prices that keep no
/// promise.
pub fn no_certificate()
    ensures { NoCertificateEvidence }
{}
