//! Paths with room for more: a half is put at the end of each path ahead of time, and one that
//! goes in at another place takes its room.

ghost use Rattle.std.specs.Prelude.{◌≡◌, ◌<◌, ◌≤◌, ℕ, List, [], ◌∷◌, ◌++◌};
ghost use Rattle.std.specs.Prelude.{OnErr, OnOk, drop, length, take};
ghost use Rattle.topo_embedded.specs.Inserting.{piece};
ghost use Rattle.topo_embedded.specs.Padding.{AreOff, ArePadded, ArePlaced, IsOn, IsPlaced};
ghost use Rattle.topo_embedded.specs.Padding.{shifted};
ghost use Rattle.topo_embedded.specs.Paths.{IsPathAt, IsPathSo, KeepsIds, path_in};
ghost use Rattle.topo_table.specs.Places.{ids_in, values_in};

use crate::path::Path;
use std::alloc::{AllocError, Global};
use topo_core::darts::Dart;
use topo_map::Half;
use topo_table::NumberedTable;

/// A dart that a new edge crosses, with its half, and the half that goes on behind the crossing.
#[derive(Clone, Copy)]
pub(crate) struct Crossed {
    pub(crate) dart: Dart,
    pub(crate) near: Half,
    pub(crate) beyond: Half,
}

impl Crossed {
    /// A dart with its half, and none beyond it yet.
    pub(crate) fn new(dart: Dart, near: Half) -> Self
        ensures dart { result.dart ≡ dart }
        ensures near { result.near ≡ near }
        ensures beyond { result.beyond ≡ near }
    {
        Crossed {
            dart,
            near,
            beyond: near,
        }
    }
}

/// Puts one more half at the end of the path of a crossed dart, or leaves it as it was.
fn pad_path(
    alloc: Global,
    paths: &mut NumberedTable<Path>,
    cross: &Crossed,
) -> Result<(), AllocError>
    requires { IsPlaced (ids_in paths.old) cross.now }
    ensures ok { OnOk result (IsPathAt paths.old paths.new cross.now.dart.edge
        (path_in paths.old cross.now.dart.edge ++ 0 ∷ [])) }
    ensures some { OnOk result (0 < length (path_in paths.old cross.now.dart.edge)) }
    ensures err { OnErr result (values_in paths.new ≡ values_in paths.old) }
    ensures same { KeepsIds paths.old paths.new }
{
    match paths.place_of(cross.dart.edge.number()) {
        Some(place) => {
            let mut path = paths.take(place);
            let done = path.push(alloc, Half::numbered(0));
            paths.put(place, path);
            done
        }
        None => unreachable!(),
    }
}

/// Puts one more half at the end of the path of each crossed dart, as far as there is memory, and
/// answers for how many.
fn pad_some(alloc: Global, paths: &mut NumberedTable<Path>, crossed: &[Crossed]) -> usize
    requires { ArePlaced (ids_in paths.old) crossed.now }
    ensures within { result ≤ length crossed.now }
    ensures padded { ArePadded (ids_in paths.old) (λ hs. hs) (values_in paths.old)
        (take result crossed.now) (values_in paths.new) }
    ensures same { KeepsIds paths.old paths.new }
{
    for i in 0..crossed.len() {
        if pad_path(alloc, paths, &crossed[i]).is_err() {
            return i;
        }
    }
    crossed.len()
}

/// Takes the last half behind the first out of the path of a crossed dart.
fn unpad_path(paths: &mut NumberedTable<Path>, cross: &Crossed)
    requires { IsPlaced (ids_in paths.old) cross.now }
    ensures path { IsPathSo paths.old paths.new cross.now.dart.edge
        (λ path. (xs : List ℕ) (x : ℕ) → 0 < length xs
        → path_in paths.old cross.now.dart.edge ≡ xs ++ x ∷ [] → path ≡ xs) }
    ensures same { KeepsIds paths.old paths.new }
{
    match paths.place_of(cross.dart.edge.number()) {
        Some(place) => {
            let mut path = paths.take(place);
            path.drop_last();
            paths.put(place, path);
        }
        None => unreachable!(),
    }
}

/// Takes the halves out again that were put at the ends.
pub(crate) fn unpad(paths: &mut NumberedTable<Path>, crossed: &[Crossed])
    requires { ArePlaced (ids_in paths.old) crossed.now }
    ensures paths { (was : List (List ℕ))
        → ArePadded (ids_in paths.old) (λ hs. hs) was crossed.now (values_in paths.old)
        → values_in paths.new ≡ was }
    ensures same { KeepsIds paths.old paths.new }
{
    let mut n = crossed.len();
    while n > 0 {
        n -= 1;
        unpad_path(paths, &crossed[n]);
    }
}

/// Puts one more half at the end of the path of each crossed dart, or leaves all as they were.
pub(crate) fn pad(
    alloc: Global,
    paths: &mut NumberedTable<Path>,
    crossed: &[Crossed],
) -> Result<(), AllocError>
    requires { ArePlaced (ids_in paths.old) crossed.now }
    ensures ok { OnOk result (ArePadded (ids_in paths.old) (λ hs. hs) (values_in paths.old)
        crossed.now (values_in paths.new)) }
    ensures err { OnErr result (values_in paths.new ≡ values_in paths.old) }
    ensures same { KeepsIds paths.old paths.new }
{
    let done = pad_some(alloc, paths, crossed);
    if done < crossed.len() {
        unpad(paths, &crossed[..done]);
        return Err(AllocError);
    }
    Ok(())
}

/// Puts the half that goes on beyond the half of a crossed dart next to it, on the side where it
/// leads. The last half of the path goes. The half is not before the place that the dart had when
/// no segment was split.
fn put_beside(path: &mut Path, cross: &Crossed, beyond: Half)
    ensures { (xs ys : List ℕ) (h last : ℕ) → path.old ≡ xs ++ h ∷ (ys ++ last ∷ [])
        → cross.now.dart.seg ≤ length xs → AreOff cross.now.near xs → IsOn cross.now.near h
        → path.new ≡ xs
        ++ (piece (record { dart = 0; near = cross.now.near; beyond = beyond }) h ++ ys) }
{
    let at = path.place_from(cross.dart.seg as usize, cross.near);
    if at < path.len() {
        if path.at(at) == cross.near {
            path.shift_in(at + 1, beyond);
        } else {
            path.shift_in(at, beyond.twin());
        }
    }
}

/// Puts the half that goes on beyond the half of a crossed dart next to it on the path, where there
/// is room for it.
pub(crate) fn split_path(paths: &mut NumberedTable<Path>, cross: &Crossed, beyond: Half)
    requires { IsPlaced (ids_in paths.old) cross.now }
    ensures path { IsPathSo paths.old paths.new cross.now.dart.edge
        (λ path. (xs ys : List ℕ) (h last : ℕ)
        → path_in paths.old cross.now.dart.edge ≡ xs ++ h ∷ (ys ++ last ∷ [])
        → cross.now.dart.seg ≤ length xs → AreOff cross.now.near xs → IsOn cross.now.near h
        → path ≡ xs
        ++ (piece (record { dart = 0; near = cross.now.near; beyond = beyond }) h ++ ys)) }
    ensures same { KeepsIds paths.old paths.new }
{
    match paths.place_of(cross.dart.edge.number()) {
        Some(place) => {
            let mut path = paths.take(place);
            put_beside(&mut path, cross, beyond);
            paths.put(place, path);
        }
        None => unreachable!(),
    }
}
