//! Heights spread from one end over the picture.

ghost use Rattle.std.specs.Prelude.{◌≡◌, ◌+◌, ◌<◌, ◌≤◌, ◌↔◌, [], IfOk, IfSome, IsTrue, MatchOption};
ghost use Rattle.std.specs.Prelude.{OnOk, length, min, replicate, slice_index};
ghost use Rattle.topo_core.specs.Routes.{unreached};
ghost use Rattle.topo_route.specs.Names.{height_of};
ghost use Rattle.topo_route.specs.Plans.{IsZeroAt};
ghost use Rattle.topo_route.specs.Potentials.{bound_by};
ghost use Rattle.topo_route.specs.PricedFaces.{heights_over};
ghost use Rattle.topo_route.specs.Searches.{AreLeft, AreOfDarts, GoesOn, IsInHand, IsSearch};
ghost use Rattle.topo_route.specs.Searches.{IsSpread, IsTaken, KeepsPrices, LeadsBeyond, Lowers};
ghost use Rattle.topo_route.specs.Searches.{NoneWaits, RelaxesFrom, RelaxesTwin, Settles};
ghost use Rattle.topo_route.specs.Searches.{heights_on, priced_faces, top_toward};
ghost use Rattle.topo_route.specs.Settling.{effort, reach_of, top_of};
ghost use Rattle.topo_route.specs.StampedArrays.{height_limit};

use crate::bucket_queue::{BucketQueue, dart_of_item, item_of, least_height};
use crate::face_graph::FaceGraph;
use crate::guided::guide::Guide;
use crate::priced_graph::PricedGraph;
use crate::stamped_array::StampedArray;
use crate::steps::{across, corner_at, face_at, step};
use std::alloc::{AllocError, Global};
use topo_price::tariff::PriceFn;

/// What a search knows of the faces from one of its ends: how high they lie above it, by their
/// labels, a dart of each that it has reached, in the order in which it did, and the darts whose
/// faces wait.
#[derive(Drop)]
pub(crate) struct SearchState {
    pub heights: StampedArray,
    pub names: Vec<u32>,
    pub waiting: BucketQueue,
}

/// The two ends of a spread, seen from the one where it begins, the vertex `v`: how high the faces
/// lie above the other one, and what guides the search there, if anything does.
#[derive(Drop)]
pub(crate) struct Ends<'a> {
    pub v: u32,
    pub other: &'a StampedArray,
    pub guide: Option<&'a Guide>,
}

/// A dart that is to be crossed backwards: the label of the face beyond it, and the height of its
/// own.
#[derive(Clone, Copy)]
pub(crate) struct Crossing {
    pub dart: u32,
    pub beyond: u32,
    pub height: u64,
}

impl SearchState {
    /// The search state of a picture without faces, with room for so many that wait.
    pub(crate) fn new(alloc: Global, room: usize) -> Result<Self, AllocError>
        ensures { IfOk result (λ labels. (labels.heights ≡ []) × (labels.waiting ≡ [])) }
    {
        Ok(SearchState {
            heights: StampedArray::new(alloc),
            names: Vec::new(alloc),
            waiting: BucketQueue::new(alloc, room)?,
        })
    }

    /// Reaches no face of so many, and none waits.
    pub(crate) fn clear(&mut self, faces: usize) -> Result<(), AllocError>
        ensures heights { OnOk result (self.new.heights ≡ replicate faces unreached) }
        ensures names { OnOk result (self.new.names.items ≡ []) }
        ensures waiting { OnOk result (self.new.waiting ≡ []) }
    {
        self.heights.clear(faces)?;
        self.names.clear();
        self.waiting.clear();
        Ok(())
    }

    /// Whether a height brings a face down, and not above the least sum.
    fn is_lowered_by(&self, least: u64, face: u32, height: u64) -> bool
        requires within { face < length self.now.heights }
        requires fits { height < height_limit }
        ensures { IsTrue result
            ↔ height < min (slice_index self.now.heights face) (reach_of least) }
    {
        height <= least && self.heights.is_above(face, height)
    }

    /// Gives a face a height, and names a dart of it if it was not reached before. With the height
    /// above the other end it may be the least sum.
    fn lower(
        &mut self,
        other: &StampedArray,
        least: &mut u64,
        face: u32,
        dart: u32,
        height: u64,
    ) -> Result<(), AllocError>
        requires { face < length self.old.heights }
        ensures { OnOk result
            (Lowers other.now self.old least.old face dart height self.new least.new) }
    {
        if self.heights.get(face) == u64::MAX {
            self.names.push(dart)?;
        }
        self.heights.set(face, height)?;
        let sum = height.saturating_add(other.number_at(face));
        if sum < *least {
            *least = sum;
        }
        Ok(())
    }

    /// Crosses a dart backwards: the face beyond, which is that of its twin, reaches the end over
    /// it. A height that this lowers, and brings down to the least sum, waits, in the order that
    /// the guide says. The price is not asked where not even 1 would do so.
    fn relax_twin<W: FaceGraph, F: PriceFn>(
        &mut self,
        priced: &PricedGraph<W, F>,
        ends: &Ends<'_>,
        least: &mut u64,
        crossing: Crossing,
    ) -> Result<(), AllocError>
        requires right { KeepsPrices (priced_faces W.FaceGraph F.PriceFn priced.now) }
        requires beyond { LeadsBeyond (priced_faces W.FaceGraph F.PriceFn priced.now) crossing }
        requires in_hand { IsInHand (priced_faces W.FaceGraph F.PriceFn priced.now)
            self.old crossing.dart crossing.height }
        requires known { IsSearch (priced_faces W.FaceGraph F.PriceFn priced.now)
            ends.now.v ends.now.other.now self.old least.old }
        ensures { IfOk result (λ _. RelaxesTwin (priced_faces W.FaceGraph F.PriceFn priced.now)
            ends.now.v ends.now.other.now self.old least.old
            crossing.dart crossing.height self.new least.new) }
    {
        let twin = across(priced.graph, crossing.dart);
        if !self.is_lowered_by(*least, crossing.beyond, crossing.height + 1) {
            return Ok(());
        }
        match priced.price(crossing.dart) {
            Some(price) => {
                let price = price as u64;
                let lowered = crossing.height + price;
                if self.is_lowered_by(*least, crossing.beyond, lowered) {
                    self.lower(ends.other, least, crossing.beyond, twin, lowered)?;
                    let left = left_to_go(priced.graph, ends.guide, crossing.beyond);
                    let order = lowered.saturating_add(left);
                    self.waiting.push(order, item_of(twin, lowered))?;
                }
                Ok(())
            }
            None => Ok(()),
        }
    }

    /// Spreads the height of a face over the segments round it, as far as it lowers what is there:
    /// one walk round the face.
    fn relax_face<W: FaceGraph, F: PriceFn>(
        &mut self,
        priced: &PricedGraph<W, F>,
        ends: &Ends<'_>,
        least: &mut u64,
        dart: u32,
        height: u64,
    ) -> Result<(), AllocError>
        requires right { KeepsPrices (priced_faces W.FaceGraph F.PriceFn priced.now) }
        requires in_hand { IsInHand (priced_faces W.FaceGraph F.PriceFn priced.now)
            self.old dart height }
        requires known { IsSearch (priced_faces W.FaceGraph F.PriceFn priced.now)
            ends.now.v ends.now.other.now self.old least.old }
        ensures { let p = priced_faces W.FaceGraph F.PriceFn priced.now in
            IfOk result (λ _. RelaxesFrom p ends.now.v ends.now.other.now
            self.old least.old dart self.new least.new p.named.size) }
    {
        let mut at = dart;
        for _steps in 0..priced.graph.size() {
            let (next, face) = step(priced.graph, at);
            let crossing = Crossing {
                dart: at,
                beyond: face,
                height,
            };
            self.relax_twin(priced, ends, least, crossing)?;
            at = next;
            if at == dart {
                return Ok(());
            }
        }
        Ok(())
    }

    /// Spreads the heights of all that wait and are lower than the level, or whose sum with the
    /// height above the other end is neither above `most` nor above the least.
    pub(crate) fn spread<W: FaceGraph, F: PriceFn>(
        &mut self,
        priced: &PricedGraph<W, F>,
        ends: &Ends<'_>,
        least: &mut u64,
        level: u64,
        most: u64,
    ) -> Result<(), AllocError>
        requires { let p = priced_faces W.FaceGraph F.PriceFn priced.now in
            IsSpread p ends.now.v ends.now.other.now
            (top_of level (min most least.old) (heights_over p ends.now.other.now))
            self.old least.old }
        ensures { let p = priced_faces W.FaceGraph F.PriceFn priced.now in
            IfOk result (λ _. Settles p ends.now.v ends.now.other.now
            (top_of level (min most least.new) (heights_over p ends.now.other.now))
            self.old least.old self.new least.new) }
    {
        // For the proof: what the type keeps.
        let _darts = priced.graph.size();
        while let Some((dart, height)) = next_pending(
            priced.graph,
            &self.heights,
            &mut self.waiting,
            ends.other,
            level,
            most.min(*least),
        ) {
            self.relax_face(priced, ends, least, dart, height)?;
        }
        Ok(())
    }

    /// Spreads the heights of all that wait and make up no more than the least with what is at
    /// least left to go by the guide. Faces are taken by the rising sum of both.
    pub(crate) fn spread_toward<W: FaceGraph, F: PriceFn>(
        &mut self,
        priced: &PricedGraph<W, F>,
        other: &StampedArray,
        guide: &Guide,
        least: &mut u64,
        v: u32,
    ) -> Result<(), AllocError>
        requires { IsSpread (priced_faces W.FaceGraph F.PriceFn priced.now)
            v other.now (λ _. reach_of least.old) self.old least.old }
        ensures { IfOk result (λ _. Settles (priced_faces W.FaceGraph F.PriceFn priced.now)
            v other.now (top_toward W.FaceGraph priced.now.graph.now guide.now least.new)
            self.old least.old self.new least.new) }
    {
        // For the proof: what the type keeps.
        let _darts = priced.graph.size();
        let ends = Ends {
            v,
            other,
            guide: Some(guide),
        };
        while let Some((dart, height)) = next_toward(
            priced.graph,
            &self.heights,
            &mut self.waiting,
            guide,
            *least,
        ) {
            self.relax_face(priced, &ends, least, dart, height)?;
        }
        Ok(())
    }

    /// Spreads the height of one that waits and is not above the least sum, if there is one: its
    /// height.
    pub(crate) fn spread_next<W: FaceGraph, F: PriceFn>(
        &mut self,
        priced: &PricedGraph<W, F>,
        other: &StampedArray,
        least: &mut u64,
        v: u32,
    ) -> Result<Option<u64>, AllocError>
        requires { IsSpread (priced_faces W.FaceGraph F.PriceFn priced.now)
            v other.now (λ _. reach_of least.old) self.old least.old }
        ensures goes_on { IfOk result (λ _. GoesOn (priced_faces W.FaceGraph F.PriceFn priced.now)
            v other.now (λ _. reach_of least.new) self.old least.old self.new least.new) }
        ensures falls { IfOk result (λ found. IfSome found (λ _.
            effort self.new.heights self.new.waiting < effort self.old.heights self.old.waiting)) }
    {
        // For the proof: what the type keeps.
        let _darts = priced.graph.size();
        let ends = Ends {
            v,
            other,
            guide: None,
        };
        let reach = (*least).saturating_add(1);
        match next_pending(
            priced.graph,
            &self.heights,
            &mut self.waiting,
            other,
            reach,
            0,
        ) {
            Some((dart, height)) => {
                self.relax_face(priced, &ends, least, dart, height)?;
                Ok(Some(height))
            }
            None => Ok(None),
        }
    }

    /// Gives the faces at the end height 0, and puts their corners among the items that wait.
    pub(crate) fn start_at<W: FaceGraph, F: PriceFn>(
        &mut self,
        priced: &PricedGraph<W, F>,
        other: &StampedArray,
        least: &mut u64,
        v: u32,
    ) -> Result<(), AllocError>
        requires { IsSearch (priced_faces W.FaceGraph F.PriceFn priced.now)
            v other.now self.old least.old }
        ensures relaxes { let p = priced_faces W.FaceGraph F.PriceFn priced.now in
            IfOk result (λ _. RelaxesFrom p v other.now
            self.old least.old p.named.size self.new least.new p.named.size) }
        ensures ends { let p = priced_faces W.FaceGraph F.PriceFn priced.now in
            IfOk result (λ _. IsZeroAt p.named.rows v
            (height_of p.named (heights_over p self.new.heights))) }
    {
        for position in 0..priced.graph.degree(v) {
            if let Some(corner) = corner_at(priced.graph, v, position) {
                let face = face_at(priced.graph, corner);
                if self.heights.get(face) > 0 {
                    self.lower(other, least, face, corner, 0)?;
                    self.waiting.push(0, item_of(corner, 0))?;
                }
            }
        }
        Ok(())
    }
}

/// Takes out the next dart that waits with the height of its face, which is lower than the level or
/// makes up no more than `most` with the face's height above the other end: the dart and that
/// height. An item of another height is passed over: the face was lowered since, and then its new
/// height waits too or was spread. No height is read for an item that says that it is too high.
fn next_pending<W: FaceGraph>(
    graph: &W,
    heights: &StampedArray,
    waiting: &mut BucketQueue,
    other: &StampedArray,
    level: u64,
    most: u64,
) -> Option<(u32, u64)>
    requires one_each { length heights.now ≡ W.face_bound graph.now }
    requires names { AreOfDarts (W.named graph.now) waiting.old }
    ensures taken { let high = heights_on W.FaceGraph graph.now heights.now in
        let top = top_of level most (heights_on W.FaceGraph graph.now other.now) in
        MatchOption result (NoneWaits (W.named graph.now) high top waiting.old)
        (λ r. IsTaken (W.named graph.now) high top waiting.old waiting.new r.0 r.1) }
    ensures left { AreLeft waiting.old waiting.new }
{
    let bound = level.max(most.saturating_add(1));
    while let Some(item) = waiting.pop() {
        if least_height(item) < bound {
            let dart = dart_of_item(item);
            let face = face_at(graph, dart);
            let height = heights.get(face);
            let is_low = height < level || height.saturating_add(other.number_at(face)) <= most;
            if is_low && item_of(dart, height) == item {
                return Some((dart, height));
            }
        }
    }
    None
}

/// What is at least left to go from a face, by its label; nothing where the search is not guided.
fn left_to_go<W: FaceGraph>(graph: &W, guide: Option<&Guide>, face: u32) -> u64 {
    match guide {
        Some(guide) => guide.bound(graph.potentials(face)),
        None => 0,
    }
}

/// Whether a height makes up no more than the least sum with what is left to go from a face. While
/// no sum is known all do, and no potentials are read.
fn is_near<W: FaceGraph>(graph: &W, guide: &Guide, face: u32, height: u64, least: u64) -> bool
    ensures { IsTrue result
        ↔ min (height + bound_by guide.now (W.potentials graph.now face)) unreached ≤ least }
{
    least == u64::MAX || height.saturating_add(guide.bound(graph.potentials(face))) <= least
}

/// As `next_pending`, for a search that is guided to its other end: the next dart that waits with
/// the height of its face, which makes up no more than the least with what is left to go.
fn next_toward<W: FaceGraph>(
    graph: &W,
    heights: &StampedArray,
    waiting: &mut BucketQueue,
    guide: &Guide,
    least: u64,
) -> Option<(u32, u64)>
    requires one_each { length heights.now ≡ W.face_bound graph.now }
    requires names { AreOfDarts (W.named graph.now) waiting.old }
    ensures taken { let high = heights_on W.FaceGraph graph.now heights.now in
        let top = top_toward W.FaceGraph graph.now guide.now least in
        MatchOption result (NoneWaits (W.named graph.now) high top waiting.old)
        (λ r. IsTaken (W.named graph.now) high top waiting.old waiting.new r.0 r.1) }
    ensures left { AreLeft waiting.old waiting.new }
{
    while let Some(item) = waiting.pop() {
        if least_height(item) <= least {
            let dart = dart_of_item(item);
            let face = face_at(graph, dart);
            let height = heights.get(face);
            if item_of(dart, height) == item && is_near(graph, guide, face, height, least) {
                return Some((dart, height));
            }
        }
    }
    None
}
