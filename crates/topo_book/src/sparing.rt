//! Whether the last calls have spared what a search has seen.

ghost use Rattle.std.specs.Prelude.{◌≡◌, not, true};
ghost use Rattle.std.specs.List.{list_all};
ghost use Rattle.topo_core.specs.History.{is_accepted};
ghost use Rattle.topo_book.specs.Sparing.{HaveSpared};
ghost use Rattle.topo_route.specs.Regions.{Spares, holds_edge};

use topo_core::calls::{Call, Entry, Reply};
use topo_core::darts::Dart;
use topo_picture::Picture;
use topo_route::planned::region::Region;

/// Whether none of the darts lies on an edge of the region.
fn cross_none(region: &Region, crossed: &[Dart]) -> bool
    ensures { result ≡ list_all (λ d. not (holds_edge region.now d.edge)) crossed.now }
{
    crossed
        .iter()
        .all(|dart| !region.has_edge(dart.edge.number()))
}

/// Whether a call that was answered so leaves alone what a search saw of a picture that came
/// before.
#[tactic(auto, using(crate::proofs::Outliving::crosses_none))]
fn spares(before: &Picture, region: &Region, entry: &Entry) -> bool
    ensures { result ≡ true → Spares before.now.rows region.now entry.now.call entry.now.reply }
{
    match (entry.call, &entry.reply) {
        (_, Reply::Refused(_)) => true,
        (Call::Grow { u, .. }, Reply::Grown { .. }) => !region.has_vertex(u),
        (Call::Insert { u, v, .. }, Reply::Inserted(made)) => {
            !region.has_vertex(u)
                && !region.has_vertex(v)
                && cross_none(region, made.route.crossed.as_slice())
        }
        (Call::Delete { edge }, Reply::Deleted(_)) => before.is_apart(edge, region),
        _ => false,
    }
}

/// Whether a reply is no refusal.
pub fn is_accepted(reply: &Reply) -> bool
    ensures { result ≡ is_accepted reply.now }
{
    !matches!(reply, Reply::Refused(_))
}

/// Whether the last entries, so many that `accepted` of them are accepted, all spare the region. No
/// more than `most` are looked at.
#[tactic(auto, using(crate::proofs::Outliving::none_spared, crate::proofs::Outliving::last_spared))]
pub(crate) fn have_spared(
    before: &Picture,
    region: &Region,
    entries: &[Entry],
    accepted: u64,
    most: u32,
) -> bool
    ensures { result ≡ true → HaveSpared before.now.rows region.now entries.now accepted }
{
    if accepted == 0 {
        return true;
    }
    if most == 0 {
        return false;
    }
    let [older @ .., entry] = entries else {
        return false;
    };
    let left = if is_accepted(&entry.reply) {
        accepted - 1
    } else {
        accepted
    };
    spares(before, region, entry) && have_spared(before, region, older, left, most - 1)
}
