//! The rotation of a vertex: how it is kept, and how an edge is put in and taken out.

ghost use Rattle.std.specs.Prelude.{Some, ◌≡◌, ◌<◌, ◌≤◌, ◌+◌, ◌==◌, ◌++◌, ◌∷◌, [], IfOk};
ghost use Rattle.std.specs.Prelude.{◌↔◌, IsTrue, OnErr, OnOk, slice_get, slice_index};
ghost use Rattle.std.specs.Prelude.{drop, filter, fold, length, min, nat_lt, not, vec_capacity};
ghost use Rattle.std.specs.List.{insert, position_or_len};
ghost use Rattle.topo_core.specs.Changes.{from_least, put_in};
ghost use Rattle.topo_core.specs.Items.{occurrences};
ghost use Rattle.topo_kept_rows.specs.Deleting.{IsLastNext, IsRotation, rotation_without};

use std::alloc::{AllocError, Global};
use std::marker::Model;
use topo_core::listed::Listed;

/// So many ids move at most for one that is put in. For more the parts are cut anew.
const MAX_MOVED: usize = 256;

/// The clockwise list of the ids of a vertex's edges, which contracts see. It is kept in two parts,
/// one behind the other. Where an id is put in, those behind it in the same part move. If these are
/// many, the parts are first cut at that place, so that the id is the last of the first part; the
/// next one often comes near it. The first part has room for all, so that to join them takes no
/// memory. Only vertices with some hundred edges have a second part.
pub struct Rotation {
    head: Vec<u32>,
    tail: Vec<u32>,
}

// Written out, so that it is proved once: a derived one is proved anew in each function that lets
// such a value go.
impl Drop for Rotation {
    fn drop(self) {
        let Rotation { head, tail } = self;
        drop(head);
        drop(tail);
    }
}

impl Model for Rotation {
    ghost use Rattle.std.specs.Prelude.{◌≤◌, ◌+◌, ◌++◌, ℕ, List, length, vec_capacity};

    ghost Value = { List ℕ };

    ghost view = { λ r. r.head.items ++ r.tail.items };

    ghost invariant = { λ r. length r.head.items + length r.tail.items ≤ vec_capacity r.head };
}

/// Joins the parts of a rotation. It takes no memory.
fn join(head: &mut Vec<u32>, tail: &mut Vec<u32>)
    requires { length head.old.items + length tail.old.items ≤ vec_capacity head.old }
    ensures head { head.new.items ≡ head.old.items ++ tail.old.items }
    ensures tail { tail.new.items ≡ [] }
    ensures room { vec_capacity head.old ≤ vec_capacity head.new }
{
    if head.append(tail).is_err() {
        unreachable!()
    }
}

/// Cuts the parts of a rotation at a place. Out of memory, they are one.
fn cut_at(head: &mut Vec<u32>, tail: &mut Vec<u32>, place: usize) -> Result<(), AllocError>
    requires within { place ≤ length head.old.items + length tail.old.items }
    requires room { length head.old.items + length tail.old.items ≤ vec_capacity head.old }
    ensures same { head.new.items ++ tail.new.items ≡ head.old.items ++ tail.old.items }
    ensures room { vec_capacity head.old ≤ vec_capacity head.new }
    ensures cut { OnOk result (length head.new.items ≡ place) }
    ensures joined { OnErr result (tail.new.items ≡ []) }
{
    join(head, tail);
    tail.extend_from_slice(&head.as_slice()[place..])?;
    head.truncate(place);
    Ok(())
}

/// Takes the first id out of a rotation. A long first part is cut before, if the second has room
/// for the rest, so that few move. It takes no memory.
fn drop_first(head: &mut Vec<u32>, tail: &mut Vec<u32>)
    requires some { 0 < length head.old.items }
    requires room { length head.old.items + length tail.old.items ≤ vec_capacity head.old }
    ensures rest { head.new.items ++ tail.new.items ≡ drop 1 (head.old.items ++ tail.old.items) }
    ensures room { vec_capacity head.old ≤ vec_capacity head.new }
{
    if head.len() > 2 * MAX_MOVED && head.len() + tail.len() <= tail.capacity() {
        let _ = cut_at(head, tail, MAX_MOVED);
    }
    head.remove(0);
}

/// Room for one more id in the first part, with those of the second; and in the second, where the
/// first is long enough to be cut.
fn make_room(head: &mut Vec<u32>, tail: &mut Vec<u32>) -> Result<(), AllocError>
    requires { length head.old.items + length tail.old.items ≤ vec_capacity head.old }
    ensures head { head.new.items ≡ head.old.items }
    ensures tail { tail.new.items ≡ tail.old.items }
    ensures room { vec_capacity head.old ≤ vec_capacity head.new }
    ensures more { OnOk result
        (length head.old.items + length tail.old.items + 1 ≤ vec_capacity head.new) }
{
    head.reserve(tail.len() + 1)?;
    if head.len() > MAX_MOVED {
        tail.reserve(head.len() + 1)?;
    }
    Ok(())
}

/// Puts an id in at a place, into the part that the place is in.
fn insert_at(
    head: &mut Vec<u32>,
    tail: &mut Vec<u32>,
    place: usize,
    e: u32,
) -> Result<(), AllocError>
    requires within { place ≤ length head.old.items + length tail.old.items }
    requires room { length head.old.items + length tail.old.items + 1 ≤ vec_capacity head.old }
    ensures room { vec_capacity head.old ≤ vec_capacity head.new }
    ensures fits { length head.new.items + length tail.new.items ≤ vec_capacity head.new }
    ensures ok { OnOk result (head.new.items ++ tail.new.items
        ≡ insert (head.old.items ++ tail.old.items) place e) }
    ensures err { OnErr result (head.new.items ++ tail.new.items
        ≡ head.old.items ++ tail.old.items) }
{
    let cut = head.len();
    if place <= cut {
        head.insert(place, e)?;
    } else {
        tail.insert(place - cut, e)?;
    }
    Ok(())
}

/// Cuts the parts of a rotation anew where more than a few would move for an id at this place.
fn cut_near(head: &mut Vec<u32>, tail: &mut Vec<u32>, place: usize) -> Result<(), AllocError>
    requires within { place ≤ length head.old.items + length tail.old.items }
    requires room { length head.old.items + length tail.old.items ≤ vec_capacity head.old }
    ensures same { head.new.items ++ tail.new.items ≡ head.old.items ++ tail.old.items }
    ensures room { vec_capacity head.old ≤ vec_capacity head.new }
{
    let cut = head.len();
    let end = if place <= cut { cut } else { cut + tail.len() };
    if end - place > MAX_MOVED {
        return cut_at(head, tail, place);
    }
    Ok(())
}

impl Rotation {
    /// A rotation in a single part.
    fn whole(alloc: Global, ids: Vec<u32>) -> Self
        ensures { result ≡ ids.items }
    {
        Rotation {
            head: ids,
            tail: Vec::new(alloc),
        }
    }

    /// That of a vertex with one edge.
    pub(crate) fn one(alloc: Global, e: u32) -> Result<Self, AllocError>
        ensures { IfOk result (λ rotation. rotation ≡ e ∷ []) }
    {
        let mut ids = Vec::new(alloc);
        ids.push(e)?;
        Ok(Rotation::whole(alloc, ids))
    }

    /// How many ids there are.
    pub fn len(&self) -> usize
        ensures { result ≡ length self.now }
    {
        self.head.len() + self.tail.len()
    }

    /// The id at a position.
    pub fn at(&self, position: usize) -> u32
        requires { position < length self.now }
        ensures { result ≡ slice_index self.now position }
    {
        let cut = self.head.len();
        if position < cut {
            self.head[position]
        } else {
            self.tail[position - cut]
        }
    }

    /// The ids in a list of their own.
    fn copied(&self, alloc: Global) -> Result<Vec<u32>, AllocError>
        ensures { IfOk result (λ ids. ids.items ≡ self.now) }
    {
        let mut ids = Vec::with_capacity(alloc, self.len())?;
        ids.extend_from_slice(self.head.as_slice())?;
        ids.extend_from_slice(self.tail.as_slice())?;
        Ok(ids)
    }

    /// The ids as one list. It takes no memory.
    fn into_ids(self) -> Vec<u32>
        ensures { result.items ≡ self }
    {
        let Rotation { mut head, mut tail } = self;
        join(&mut head, &mut tail);
        drop(tail);
        head
    }

    /// Puts an id in at a place.
    fn insert(&mut self, place: usize, e: u32) -> Result<(), AllocError>
        requires { place ≤ length self.old }
        ensures ok { OnOk result (self.new ≡ insert self.old place e) }
        ensures err { OnErr result (self.new ≡ self.old) }
    {
        make_room(&mut self.head, &mut self.tail)?;
        cut_near(&mut self.head, &mut self.tail, place)?;
        insert_at(&mut self.head, &mut self.tail, place, e)
    }

    /// Puts an edge into the corner at a position.
    pub(crate) fn put_in(&mut self, position: u32, e: u32) -> Result<(), AllocError>
        requires { position ≤ length self.old }
        ensures ok { OnOk result (self.new ≡ put_in position e self.old) }
        ensures err { OnErr result (self.new ≡ self.old) }
    {
        if position == 0 {
            self.insert(self.len(), e)
        } else {
            self.insert(position as usize, e)
        }
    }

    /// Takes the ids from `first` on out.
    pub(crate) fn keep_below(&mut self, first: u32)
        ensures { self.new ≡ filter (λ x. nat_lt x first) self.old }
    {
        join(&mut self.head, &mut self.tail);
        self.head.retain(|x| *x < first);
    }

    /// Takes an edge out. Where that was its least id, the rotation is listed from its least id
    /// again; else it begins as it did.
    pub(crate) fn leave(&mut self, e: u32)
        requires { IsRotation self.old }
        ensures { self.new ≡ rotation_without e self.old }
    {
        if begins_with_next(self.head.as_slice(), e) {
            drop_first(&mut self.head, &mut self.tail);
        } else {
            join(&mut self.head, &mut self.tail);
            leave_rotation(&mut self.head, e);
        }
    }
}

/// The rotations of these lists, each in memory of its own.
pub(crate) fn rotations_of(
    alloc: Global,
    lists: &[Listed<u32>],
) -> Result<Vec<Rotation>, AllocError>
    ensures { IfOk result (λ rotations. rotations.items ≡ lists.now) }
{
    let mut rotations = Vec::with_capacity(alloc, lists.len())?;
    for list in lists {
        let ids = Vec::from_slice(alloc, list.as_slice())?;
        rotations.push(Rotation::whole(alloc, ids))?;
    }
    Ok(rotations)
}

/// The lists of these rotations.
pub(crate) fn listed_rotations(
    alloc: Global,
    rotations: &[Rotation],
) -> Result<Vec<Listed<u32>>, AllocError>
    ensures { IfOk result (λ lists. lists.items ≡ rotations.now) }
{
    let mut lists = Vec::with_capacity(alloc, rotations.len())?;
    for rotation in rotations {
        let ids = rotation.copied(alloc)?;
        lists.push(Listed::from_vec(ids))?;
    }
    Ok(lists)
}

/// The lists of these rotations, which end.
pub(crate) fn rotations_as_lists(
    alloc: Global,
    rotations: Listed<Rotation>,
) -> Result<Vec<Listed<u32>>, AllocError>
    ensures { IfOk result (λ lists. lists.items ≡ rotations) }
{
    let mut lists = Vec::with_capacity(alloc, rotations.len())?;
    for rotation in rotations.into_vec() {
        lists.push(Listed::from_vec(rotation.into_ids()))?;
    }
    Ok(lists)
}

/// Equal rotations, in memory of their own.
pub(crate) fn copied_rotations(
    alloc: Global,
    rotations: &[Rotation],
) -> Result<Vec<Rotation>, AllocError>
    ensures { IfOk result (λ copy. copy.items ≡ rotations.now) }
{
    let mut copy = Vec::with_capacity(alloc, rotations.len())?;
    for rotation in rotations {
        let ids = rotation.copied(alloc)?;
        copy.push(Rotation::whole(alloc, ids))?;
    }
    Ok(copy)
}

/// The least of a number and those of a list.
fn least_of(first: u32, ids: &[u32]) -> u32
    ensures { result ≡ fold min first ids.now }
{
    let mut least = first;
    for id in ids {
        least = least.min(*id);
    }
    least
}

/// Lists the same cycle from its least id on.
fn begin_at_least(ids: &mut [u32])
    ensures { ids.new ≡ from_least ids.old }
{
    if let Some(first) = ids.first() {
        let least = least_of(*first, ids);
        let place = place_of(ids, least);
        ids.rotate_left(place);
    }
}

/// The place of an id in a list; its length where it is not there.
fn place_of(ids: &[u32], id: u32) -> usize
    ensures { result ≡ position_or_len (λ y. y == id) ids.now }
{
    for place in 0..ids.len() {
        if ids[place] == id {
            return place;
        }
    }
    ids.len()
}

/// Takes an id that stands in a list at most once out of it, in one move.
fn take_once(ids: &mut Vec<u32>, id: u32)
    requires { occurrences id ids.old.items ≤ 1 }
    ensures { ids.new.items ≡ filter (λ y. not (y == id)) ids.old.items }
{
    let place = place_of(ids.as_slice(), id);
    if place < ids.len() {
        ids.remove(place);
    }
}

/// Whether the last id of a rotation is the least of those behind the first. If it follows the
/// first as a number, no other has to be looked at.
fn is_last_next(ids: &[u32]) -> bool
    requires rotation { IsRotation ids.now }
    requires more { 1 < length ids.now }
    ensures { IsTrue result → IsLastNext ids.now }
{
    let last = ids.len() - 1;
    ids[last] - ids[0] == 1 || ids[last] < least_of(u32::MAX, &ids[1..last])
}

/// Takes out the first id of a rotation, and lists the others from their least one on. Where that
/// is the last, it takes the place of the first, and no other moves.
fn leave_first(ids: &mut Vec<u32>)
    requires rotation { IsRotation ids.old.items }
    requires some { 0 < length ids.old.items }
    ensures { ids.new.items ≡ from_least (drop 1 ids.old.items) }
{
    if ids.len() > 1 && is_last_next(ids.as_slice()) {
        ids.swap_remove(0);
    } else {
        ids.remove(0);
        begin_at_least(ids);
    }
}

/// Whether an id stands at the head of a list.
fn begins_with(ids: &[u32], id: u32) -> bool
    ensures some { IsTrue result → 0 < length ids.now }
    ensures head { IsTrue result ↔ slice_get ids.now 0 ≡ Some id }
{
    ids.first() == Some(&id)
}

/// Whether a list begins with an id, and the next one as a number behind it.
fn begins_with_next(ids: &[u32], id: u32) -> bool
    ensures head { IsTrue result → slice_get ids.now 0 ≡ Some id }
    ensures next { IsTrue result → slice_get ids.now 1 ≡ Some (id + 1) }
{
    ids.len() > 1 && ids[0] == id && id < ids[1] && ids[1] - id == 1
}

/// Takes an edge out of a rotation. Where that was its least id, the rotation is listed from its
/// least id again; else it begins as it did.
fn leave_rotation(ids: &mut Vec<u32>, e: u32)
    requires { IsRotation ids.old.items }
    ensures { ids.new.items ≡ rotation_without e ids.old.items }
{
    if begins_with(ids.as_slice(), e) {
        leave_first(ids);
    } else {
        take_once(ids, e);
    }
}
