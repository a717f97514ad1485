//! The search, step by step.

use crate::best::{Best, keep};
use crate::board::{Board, Score};
use crate::expansion::expanded;
use crate::graph::{Graph, cost_of_rows};
use crate::lists::{append, first_numbers, length_of};
use crate::moves::{add_crossed, crossings_of, put_in};
use crate::orders::{begin_order, first_forbidden};
use crate::pace::Pace;
use crate::reduction::{Reduction, reduced};
use crate::repair::Repair;
use crate::shakes::{Shaken, about_shaken, shake};
use std::alloc::{AllocError, Global};
use std::sync::Arc;
use topo_core::rows::Rows;
use topo_graph::{Effort, GraphEdge};
use topo_picture::LoadFault;
use topo_price::tariff::{PriceFn, Tariff};

/// What a search is told.
#[derive(Clone, Copy, Debug, PartialEq, Eq)]
pub struct Options {
    /// Seed of the random numbers: one seed gives one picture.
    pub seed: u32,
    pub effort: Effort,
}

/// Why a search has ended without a picture, or before its time.
#[derive(Clone, Copy, Debug, Drop, PartialEq, Eq)]
pub enum SearchFault {
    /// A growth of memory was refused.
    Memory,
    /// This edge has no route that crosses only edges that may be crossed, or must not be crossed
    /// itself and has no route that crosses nothing. Another picture of the others may have one.
    NotPlanarized(u32),
    /// There are more vertices, edges or crossings than a picture may have.
    TooLarge,
    /// The planar part of the graph is no picture, as where the graph is not connected.
    NotLoaded(LoadFault),
}

impl From<AllocError> for SearchFault {
    fn from(_lack: AllocError) -> SearchFault {
        SearchFault::Memory
    }
}

/// How far a search has come.
#[derive(Clone, Copy, Debug, PartialEq, Eq)]
pub enum Progress {
    /// It goes on. `crossings` is how many the best picture so far has, where there is one, and
    /// `orders` how many orders have ended.
    Going { crossings: Option<u64>, orders: u32 },
    /// The search has ended.
    Done,
}

/// What comes next, once nothing waits to be put in again.
#[derive(Clone, Copy)]
enum Stage {
    /// A new order begins.
    Order,
    /// The edges that wait are put in.
    Inserting,
    /// A round over all crossed edges has ended; before it the picture was so dear.
    Round(Score),
    /// A new shake begins.
    Shake,
    /// The edges that were taken out are put in.
    Replacing,
    /// The shake comes to its end.
    Settling,
    /// Nothing comes any more.
    Done,
}

/// A step ends once it has done so much, in faces looked at.
const STEP_COST: u64 = 300_000;

/// And after so many moves.
const STEP_MOVES: u32 = 100_000;

/// Where an order ends with at most so many crossings, a quick search tries another, and where it
/// ends with at most so many, a longer one does.
const FEW_CROSSINGS: u64 = 30;

const SOME_CROSSINGS: u64 = 700;

/// So many orders are tried at most.
const ORDERS: u32 = 3;

/// And so many by a longer search where the best picture has at most `MANY_CROSSINGS`.
const MORE_ORDERS: u32 = 6;

/// An edge that was put in is put in again, with those that it crosses, where it has at least so
/// many crossings.
const REPAIRED_FROM: u32 = 4;

/// So many orders at most may fail before there is a picture.
const FAILED_ORDERS: u32 = 8;

/// So many passes go at most over all edges, or over what a shake has touched.
const PASSES: u32 = 20;

/// So many shakes in a row that save nothing end the search.
const IDLE: u64 = 200;

/// And so many end a thorough one.
const THOROUGH_IDLE: u64 = 400;

/// Where the best picture has more crossings, a default search minds its work, too: it ends once
/// shakes save little for it, and gives bad orders up.
const MANY_CROSSINGS: u64 = 100;

/// A picture that costs more than so many hundredths of the best one is far from it: shakes go on
/// from the best one, and a bad order is given up once all edges are in.
const FAR: u64 = 110;

/// A search for a picture of a graph with few crossings.
pub struct Search<F: PriceFn> {
    board: Board<F>,
    // How the graph of the board came of the whole one, where it is smaller.
    reduction: Option<Reduction>,
    options: Options,
    stage: Stage,
    repair: Repair,
    // Edges to be put in, the next one last.
    waiting: Vec<u32>,
    shaken: Shaken,
    best: Option<Best>,
    tries: Vec<u64>,
    // How many shakes in a row have saved nothing.
    idle: u64,
    failed: u32,
    is_hurried: bool,
    pace: Pace,
}

// Written out, so that it is proved once: a derived one is proved anew in each function that lets
// such a value go.
impl<F: PriceFn + Drop> Drop for Search<F> {
    fn drop(self) {
        let Search {
            board,
            reduction,
            options: _,
            stage: _,
            repair,
            waiting,
            shaken,
            best,
            tries,
            idle: _,
            failed: _,
            is_hurried: _,
            pace: _,
        } = self;
        drop(board);
        drop(reduction);
        drop(repair);
        drop(waiting);
        drop(shaken);
        drop(best);
        drop(tries);
    }
}

impl<F: PriceFn> Search<F> {
    /// A search for pictures of the graph with so many vertices and these edges, which is connected
    /// and has no loops and at least one edge, at these prices. Prices are those of kinds; where
    /// they are not known by the kind, they count as 1.
    pub fn new(
        alloc: Global,
        vertices: usize,
        edges: Vec<GraphEdge>,
        tariff: Arc<Tariff<F>>,
        options: Options,
    ) -> Result<Self, AllocError>
    where
        F: Drop,
    {
        let (vertices, edges, reduction) = reduced(alloc, vertices, edges)?;
        let graph = Graph::new(alloc, vertices, edges, &tariff)?;
        Ok(Search {
            board: Board::new(alloc, graph, tariff, options.seed)?,
            reduction,
            options,
            stage: Stage::Order,
            repair: Repair::none(alloc),
            waiting: Vec::new(alloc),
            shaken: Shaken {
                out: Vec::new(alloc),
                crossed: Vec::new(alloc),
            },
            best: None,
            tries: Vec::new(alloc),
            idle: 0,
            failed: 0,
            is_hurried: false,
            pace: Pace::NONE,
        })
    }

    /// Begins with a picture in place of an order: its rows, whose edges are those of the graph, in
    /// their order and with ids from 0 on. A picture that is none is a fault.
    pub fn begin_from(&mut self, alloc: Global, rows: &Rows) -> Result<(), SearchFault>
    where
        F: Drop,
    {
        self.take_whole_graph(alloc)?;
        self.pace.first_order = u64::MAX;
        let edges = first_numbers(alloc, self.board.graph.edge_count())?;
        let cost = cost_of_rows(&self.board.graph, rows);
        self.board.load(alloc, rows, &edges, cost)?;
        keep(alloc, &self.board, &mut self.best)?;
        self.begin_round(alloc)
    }

    /// Searches for a while, some 50 milliseconds, and says how far it has come. An order begins in
    /// one step. Once a fault was answered the search has ended, and the best picture is kept.
    pub fn step(&mut self, alloc: Global) -> Result<Progress, SearchFault> {
        self.pace.steps = self.work();
        self.board.spent = 0;
        for _ in 0..STEP_MOVES {
            if self.is_done() || self.board.spent >= STEP_COST {
                break;
            }
            if let Err(why) = self.advance(alloc) {
                if let Err(fault) = self.note_fault(alloc, why) {
                    return Err(self.in_whole_graph(fault));
                }
            }
        }
        Ok(self.progress())
    }

    /// The rows of the best picture so far, with ids from 0 on, and for each row of an edge the
    /// place of its edge in the graph. Each edge leads from its `a` to its `b`.
    pub fn into_best(self, alloc: Global) -> Result<Option<(Rows, Vec<u32>)>, AllocError>
    where
        F: Drop,
    {
        let Search {
            board,
            reduction,
            options: _,
            stage: _,
            repair,
            waiting,
            shaken,
            best,
            tries,
            idle: _,
            failed: _,
            is_hurried: _,
            pace: _,
        } = self;
        drop(board);
        drop(repair);
        drop(waiting);
        drop(shaken);
        drop(tries);
        let Some(Best { rows, edges, .. }) = best else {
            return Ok(None);
        };
        match reduction {
            Some(reduction) => Ok(Some(expanded(alloc, &reduction, &rows, &edges)?)),
            None => Ok(Some((rows, edges))),
        }
    }

    /// The crossings at the end of each order.
    pub fn tries(&self) -> &[u64] {
        &self.tries
    }

    /// Leaves repair out until there is a picture.
    pub fn hurry(&mut self) {
        self.is_hurried = true;
    }

    /// Puts the whole graph on the board in place of the smaller one.
    fn take_whole_graph(&mut self, alloc: Global) -> Result<(), AllocError>
    where
        F: Drop,
    {
        let Some(
            Reduction {
                vertices,
                edges,
                ..
            },
        ) = self.reduction.take()
        else {
            return Ok(());
        };
        let tariff = Arc::clone(&self.board.tariff)?;
        let graph = Graph::new(alloc, vertices, edges, &tariff)?;
        self.board = Board::new(alloc, graph, tariff, self.options.seed)?;
        Ok(())
    }

    /// A fault with the place of its edge in the whole graph.
    fn in_whole_graph(&self, fault: SearchFault) -> SearchFault {
        match (fault, &self.reduction) {
            (SearchFault::NotPlanarized(edge), Some(reduction)) => {
                SearchFault::NotPlanarized(reduction.paths.first(edge))
            }
            _ => fault,
        }
    }

    /// What was done so far, in faces looked at.
    fn work(&self) -> u64 {
        self.pace.steps.saturating_add(self.board.spent)
    }

    /// Whether it minds its work.
    fn is_frugal(&self) -> bool {
        self.options.effort == Effort::Default
            && self.best_crossings().unwrap_or(0) > MANY_CROSSINGS
    }

    /// Whether it has ended.
    fn is_done(&self) -> bool {
        matches!(self.stage, Stage::Done)
    }

    /// How far it has come.
    fn progress(&self) -> Progress {
        if self.is_done() {
            return Progress::Done;
        }
        Progress::Going {
            crossings: self.best_crossings(),
            orders: self.orders(),
        }
    }

    /// How many crossings the best picture has.
    fn best_crossings(&self) -> Option<u64> {
        match &self.best {
            Some(best) => Some(best.score.crossings),
            None => None,
        }
    }

    /// How many orders have ended with a picture.
    fn orders(&self) -> u32 {
        length_of(&self.tries)
    }

    /// Whether the edges of an order were put in, one has no route, and another order may be tried.
    fn may_try_again(&self, why: SearchFault) -> bool {
        matches!(self.stage, Stage::Inserting)
            && matches!(why, SearchFault::NotPlanarized(_))
            && self.failed < FAILED_ORDERS
    }

    /// Ends the search with a fault. But where an order has led nowhere, it goes on from the best
    /// picture, or tries another order where there is none yet. Where a picture was found, only
    /// want of memory is a fault.
    fn note_fault(&mut self, alloc: Global, why: SearchFault) -> Result<(), SearchFault> {
        let may_try_again = self.may_try_again(why);
        self.stage = Stage::Done;
        if self.best.is_none() && may_try_again {
            self.failed = self.failed.saturating_add(1);
            self.stage = Stage::Order;
            return Ok(());
        }
        if self.best.is_none() || why == SearchFault::Memory {
            return Err(why);
        }
        if may_try_again {
            return self.end_orders(alloc);
        }
        Ok(())
    }

    /// Puts one edge in again, or begins what comes next.
    fn advance(&mut self, alloc: Global) -> Result<(), SearchFault> {
        if self.repair.advance(alloc, &mut self.board)? {
            return Ok(());
        }
        match self.stage {
            Stage::Order => self.begin_order(alloc),
            Stage::Inserting => self.insert_next(alloc),
            Stage::Round(before) => self.end_round(alloc, before),
            Stage::Shake => self.begin_shake(alloc),
            Stage::Replacing => self.replace_next(alloc),
            Stage::Settling => self.end_shake(alloc),
            Stage::Done => Ok(()),
        }
    }

    /// Begins a new order.
    fn begin_order(&mut self, alloc: Global) -> Result<(), SearchFault> {
        let is_random = self.orders() > 0 || self.failed > 0;
        self.waiting = begin_order(alloc, &mut self.board, is_random)?;
        if let Some(edge) = first_forbidden(&self.board.graph, &self.waiting) {
            return Err(SearchFault::NotPlanarized(edge));
        }
        self.stage = Stage::Inserting;
        Ok(())
    }

    /// Puts the next edge of an order in, or begins the first round.
    fn insert_next(&mut self, alloc: Global) -> Result<(), SearchFault> {
        let Some(edge) = self.waiting.pop() else {
            if self.is_frugal() && self.is_far() {
                return self.end_order(alloc);
            }
            keep(alloc, &self.board, &mut self.best)?;
            return self.begin_round(alloc);
        };
        put_in(alloc, &mut self.board, edge)?;
        if self.is_hurried && self.best.is_none() {
            return Ok(());
        }
        self.repair_about(alloc, edge)
    }

    /// Has an edge and those that it crosses put in again, where these are many.
    fn repair_about(&mut self, alloc: Global, edge: u32) -> Result<(), SearchFault> {
        if crossings_of(&self.board, edge) < REPAIRED_FROM {
            return Ok(());
        }
        let mut about = Vec::new(alloc);
        add_crossed(&self.board, edge, &mut about)?;
        append(&mut about, edge)?;
        self.repair.begin(alloc, &mut self.board, about, 1)?;
        Ok(())
    }

    /// Has all crossed edges put in again.
    fn begin_round(&mut self, alloc: Global) -> Result<(), SearchFault> {
        let all = first_numbers(alloc, self.board.graph.edge_count())?;
        let before = self.board.score();
        self.repair.begin(alloc, &mut self.board, all, PASSES)?;
        self.stage = Stage::Round(before);
        Ok(())
    }

    /// Begins another round where the last one has saved something, and else ends the order.
    fn end_round(&mut self, alloc: Global, before: Score) -> Result<(), SearchFault> {
        keep(alloc, &self.board, &mut self.best)?;
        if self.board.score() < before {
            return self.begin_round(alloc);
        }
        if self.pace.first_order == 0 {
            self.pace.first_order = self.work();
        }
        self.end_order(alloc)
    }

    /// Ends an order, and begins what comes next.
    fn end_order(&mut self, alloc: Global) -> Result<(), SearchFault> {
        self.note_try()?;
        if self.wants_order() {
            self.stage = Stage::Order;
            return Ok(());
        }
        self.end_orders(alloc)
    }

    /// Whether the picture is far from the best one.
    fn is_far(&self) -> bool {
        match &self.best {
            Some(best) => {
                let most = best.score.cost.saturating_mul(FAR);
                self.board.cost.saturating_mul(100) > most
            }
            None => false,
        }
    }

    /// Makes the best picture the one to go on from.
    fn take_best(&mut self, alloc: Global) -> Result<(), SearchFault> {
        match &self.best {
            Some(best) => {
                let cost = best.score.cost;
                self.board.load(alloc, &best.rows, &best.edges, cost)
            }
            None => Ok(()),
        }
    }

    /// Notes the crossings at the end of an order.
    fn note_try(&mut self) -> Result<(), AllocError> {
        let crossings = self.board.crossings();
        self.tries.push(crossings)?;
        Ok(())
    }

    /// How many orders are to be tried where the best picture has so many crossings.
    fn most_orders(&self, crossings: u64) -> u32 {
        let is_quick = self.options.effort == Effort::Quick;
        let some = if is_quick {
            FEW_CROSSINGS
        } else {
            SOME_CROSSINGS
        };
        if crossings > some {
            1
        } else if is_quick || crossings > MANY_CROSSINGS {
            ORDERS
        } else {
            MORE_ORDERS
        }
    }

    /// Whether to try another order.
    fn wants_order(&self) -> bool {
        match self.best_crossings() {
            Some(0) | None => false,
            Some(crossings) => self.orders() < self.most_orders(crossings),
        }
    }

    /// Goes on from the best picture with shakes, or ends.
    fn end_orders(&mut self, alloc: Global) -> Result<(), SearchFault> {
        if self.options.effort == Effort::Quick {
            self.stage = Stage::Done;
            return Ok(());
        }
        self.take_best(alloc)?;
        self.pace.orders = self.work();
        self.pace.saved = self.pace.orders;
        self.stage = Stage::Shake;
        Ok(())
    }

    /// Whether enough shakes in a row have saved nothing, or nothing can be saved, or it would take
    /// too much work.
    fn has_shaken_enough(&self) -> bool {
        let limit = match self.options.effort {
            Effort::Thorough => THOROUGH_IDLE,
            _ => IDLE,
        };
        self.best_crossings().unwrap_or(0) == 0
            || self.idle >= limit
            || self.is_frugal() && self.pace.is_enough(self.idle, self.work())
    }

    /// Begins a shake: takes some edges out. Or ends the search.
    fn begin_shake(&mut self, alloc: Global) -> Result<(), SearchFault> {
        if self.has_shaken_enough() {
            self.stage = Stage::Done;
            return Ok(());
        }
        self.shaken = shake(alloc, &mut self.board)?;
        self.waiting = Vec::from_slice(alloc, &self.shaken.out)?;
        self.stage = Stage::Replacing;
        Ok(())
    }

    /// Puts the next of the edges in that were taken out, or goes over what the shake has touched.
    fn replace_next(&mut self, alloc: Global) -> Result<(), SearchFault> {
        if let Some(edge) = self.waiting.pop() {
            put_in(alloc, &mut self.board, edge)?;
            return self.repair_about(alloc, edge);
        }
        let about = about_shaken(alloc, &mut self.board, &mut self.shaken)?;
        self.repair.begin(alloc, &mut self.board, about, PASSES)?;
        self.stage = Stage::Settling;
        Ok(())
    }

    /// Ends the last shake, and goes back to the best picture where it has led far from it.
    fn end_shake(&mut self, alloc: Global) -> Result<(), SearchFault> {
        let has_saved = keep(alloc, &self.board, &mut self.best)?;
        if has_saved {
            self.idle = 0;
            self.pace.saved = self.work();
        } else {
            self.idle = self.idle.saturating_add(1);
        }
        if self.is_far() {
            self.take_best(alloc)?;
        }
        self.stage = Stage::Shake;
        Ok(())
    }
}
