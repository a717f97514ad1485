//! Deletion from rows with their embedding. It takes no memory: the path of the edge is used again,
//! for the points of degree two at its crossings until they are smoothed.

ghost use Rattle.std.specs.Prelude.{◌≡◌, ◌≢◌, ℕ, true, is_some, length, map, slice_index_or};
ghost use Rattle.std.specs.Prelude.{[], ◌∷◌};
ghost use Rattle.topo_core.specs.Items.{has_id};
ghost use Rattle.topo_core.specs.declared.rows.Rows.{Rows};
ghost use Rattle.topo_core.specs.Changes.{without};
ghost use Rattle.topo_core.specs.Lawful.{Lawful};
ghost use Rattle.topo_core.specs.Picture.{edge_row};
ghost use Rattle.topo_core.specs.Rotations.{twin};
ghost use Rattle.topo_map.specs.Rotation.{edge_of, is_live, turn};
ghost use Rattle.topo_kept_rows.proofs.Interface.{across};
ghost use Rattle.topo_embedded.specs.Halves.{ShowsRows, path_of};
ghost use Rattle.topo_embedded.specs.Opening.{IsOpenTo, IsOpened, IsSetOut, IsSmoothedTo};
ghost use Rattle.topo_embedded.specs.Opening.{leads_in, mids_of, without_half};
ghost use Rattle.topo_embedded.specs.Parts.{Agree, AreForSearches};
ghost use Rattle.topo_embedded.specs.Paths.{AreForEdges, IsPathAt, KeepsIds, path_in};
ghost use Rattle.topo_table.specs.Places.{ids_in, values_in};

use crate::parts::Parts;
use crate::path::Path;
use topo_kept_rows::deletion::delete_rows;
use topo_map::{Embedding, Half};
use topo_table::NumberedTable;

/// Whether a half is on the path of its edge, and so leads along it.
fn leads_along(paths: &NumberedTable<Path>, segments: &Embedding, half: Half) -> bool
    ghost rows: { Rows }
    requires ids { ids_in paths.now ≡ map (λ row. row.id) rows.edges }
    requires live { is_live segments.now half ≡ true }
    requires there { is_some (edge_row rows (edge_of segments.now half)) ≡ true }
    ensures { result ≡ leads_in rows (values_in paths.now) (edge_of segments.now) half }
{
    let edge = segments.edge(half);
    match paths.get(edge) {
        Some(path) => path.contains(half),
        None => unreachable!(),
    }
}

/// Of the halves that lead over a crossing from the segment before and the one behind, the one that
/// leads along its edge.
fn midpoint(paths: &NumberedTable<Path>, segments: &Embedding, before: Half, behind: Half) -> Half
    ghost rows: { Rows }
    requires ids { ids_in paths.now ≡ map (λ row. row.id) rows.edges }
    requires live { is_live segments.now (twin before) ≡ true }
    requires live_behind { is_live segments.now behind ≡ true }
    requires there { is_some
        (edge_row rows (edge_of segments.now (turn segments.now (twin before)))) ≡ true }
    ensures { result ≡ across (leads_in rows (values_in paths.now) (edge_of segments.now))
        (turn segments.now) (twin before) behind }
{
    let over = segments.turn(before.twin());
    if leads_along(paths, segments, over) {
        over
    } else {
        segments.turn(behind)
    }
}

/// Takes the segments of an edge out, one after another, and puts the midpoints at their places.
fn open_path(paths: &NumberedTable<Path>, segments: &mut Embedding, path: &mut Path)
    ghost rows: { Rows }
    requires ids { ids_in paths.now ≡ map (λ row. row.id) rows.edges }
    requires set_out { (e : ℕ) × IsSetOut rows (values_in paths.now) e path.old segments.old }
    ensures { (e : ℕ) (o : IsSetOut rows (values_in paths.now) e path.old segments.old)
        → IsOpenTo (record { rows = rows; paths = o.paths }) e segments.old (length path.old)
        segments.new path.new }
{
    let last = path.len() - 1;
    for i in 0..last {
        let half = path.at(i);
        let mid = midpoint(paths, segments, half, path.at(i + 1));
        path.set(i, mid);
        segments.unchord(half);
    }
    segments.unchord(path.at(last));
}

/// Takes a half that is not the first out of the path of its edge.
fn leave_path(paths: &mut NumberedTable<Path>, segments: &Embedding, half: Half)
    ghost rows: { Rows }
    requires ids { ids_in paths.old ≡ map (λ row. row.id) rows.edges }
    requires live { is_live segments.now half ≡ true }
    requires there { is_some (edge_row rows (edge_of segments.now half)) ≡ true }
    requires later { slice_index_or (path_of (record { rows = rows; paths = values_in paths.old })
        (edge_of segments.now half)) 0 0 ≢ half }
    ensures paths { values_in paths.new
        ≡ without_half rows (edge_of segments.now half) half (values_in paths.old) }
    ensures same { KeepsIds paths.old paths.new }
{
    let edge = segments.edge(half);
    match paths.place_of(edge) {
        Some(place) => {
            let mut path = paths.take(place);
            path.remove(half);
            paths.put(place, path);
        }
        None => unreachable!(),
    }
}

/// Smooths the midpoints that an edge has left, one after another, and takes each out of the path
/// of its edge.
fn smooth_path(paths: &mut NumberedTable<Path>, segments: &mut Embedding, path: &Path)
    ghost rows: { Rows }
    requires ids { ids_in paths.old ≡ map (λ row. row.id) rows.edges }
    requires opened { (e : ℕ)
        × IsOpened rows (values_in paths.old) e (mids_of path.now) segments.old }
    ensures smoothed { (e : ℕ)
        (o : IsOpened rows (values_in paths.old) e (mids_of path.now) segments.old)
        → IsSmoothedTo (record { rows = rows; paths = o.set_out.paths }) e o.before segments.old
        (mids_of path.now) (length (mids_of path.now)) segments.new (values_in paths.new) }
    ensures same { KeepsIds paths.old paths.new }
{
    let crossings = path.len() - 1;
    for i in 0..crossings {
        let mid = path.at(i);
        leave_path(paths, segments, mid);
        segments.smooth(mid);
    }
}

/// Takes out the path of an edge, and puts one without a meaning in its place.
fn stand_in(paths: &mut NumberedTable<Path>, edge: u32) -> Path
    requires { has_id (ids_in paths.old) edge ≡ true }
    ensures path { result ≡ path_in paths.old edge }
    ensures paths { IsPathAt paths.old paths.new edge (0 ∷ []) }
    ensures same { KeepsIds paths.old paths.new }
{
    match paths.place_of(edge) {
        Some(place) => {
            let path = paths.take(place);
            paths.put(place, Path::of(Half::numbered(0)));
            path
        }
        None => unreachable!(),
    }
}

/// Takes the segments of an edge out, with its crossings, and its path.
fn delete_lists(paths: &mut NumberedTable<Path>, segments: &mut Embedding, edge: u32)
    ghost rows: { Rows }
    requires lawful { Lawful rows }
    requires there { is_some (edge_row rows edge) ≡ true }
    requires shows { ShowsRows (record { rows = rows; paths = values_in paths.old }) segments.old }
    requires kept { AreForEdges rows paths.old }
    ensures shows { ShowsRows (record { rows = without rows edge; paths = values_in paths.new })
        segments.new }
    ensures kept { AreForEdges (without rows edge) paths.new }
{
    segments.laws();
    let mut path = stand_in(paths, edge);
    open_path(paths, segments, &mut path);
    smooth_path(paths, segments, &path);
    paths.remove(edge);
}

impl Parts {
    /// Takes an edge out, with its crossings.
    pub(crate) fn delete(&mut self, edge: u32)
        requires lawful { Lawful self.old.rows }
        requires there { is_some (edge_row self.old.rows edge) ≡ true }
        requires shows { Agree self.old }
        requires kept { AreForEdges self.old.rows self.old.paths }
        requires searches { AreForSearches self.old }
        ensures rows { self.new.rows ≡ without self.old.rows edge }
        ensures shows { Agree self.new }
        ensures kept { AreForEdges self.new.rows self.new.paths }
        ensures searches { AreForSearches self.new }
    {
        self.take_out(edge);
    }

    // As `delete`, with a name for the proof of the rows that are there before.
    fn take_out(&mut self, edge: u32)
        ghost rows: { Rows }
        requires was { rows ≡ self.old.rows }
        requires lawful { Lawful self.old.rows }
        requires there { is_some (edge_row self.old.rows edge) ≡ true }
        requires shows { Agree self.old }
        requires kept { AreForEdges self.old.rows self.old.paths }
        requires searches { AreForSearches self.old }
        ensures rows { self.new.rows ≡ without self.old.rows edge }
        ensures shows { Agree self.new }
        ensures kept { AreForEdges self.new.rows self.new.paths }
        ensures searches { AreForSearches self.new }
    {
        self.bounds.clear();
        delete_lists(&mut self.paths, &mut self.segments, edge);
        delete_rows(&mut self.rows, edge);
    }
}
