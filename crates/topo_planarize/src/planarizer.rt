//! Searches for pictures of a graph, and the judge of what they find.

ghost use Rattle.std.specs.Prelude.{◌≡◌, IfErr, IfOk};
ghost use Rattle.topo_planarize.specs.Answers.{HasNoAnswer, IsAnswerOf, IsAnswerTo, IsOfSearch};
ghost use Rattle.topo_planarize.specs.Answers.{IsPriceFaultOf, IsStartFault, StartsWell, drawn};
ghost use Rattle.topo_planarize.specs.Answers.{total_cost, total_crossings};
ghost use Rattle.topo_planarize.specs.Ways.{TellsWay};
ghost use Rattle.topo_price.specs.Prices.{IsPromise};
ghost use Rattle.topo_io.specs.Settings.{price_table};

use crate::answers::{Answer, total_cost, total_crossings};
use crate::searches::{Beginning, Found, Searches, Way};
use crate::side_by_side::{Terms, have_all_ended, search_in_turn, search_to_the_end};
use std::alloc::{AllocError, Global};
use std::io::Write;
use std::marker::Model;
use std::rt::Clock;
use std::sync::Arc;
use std::thread::Threads;
use topo_core::listed::Listed;
use topo_graph::{Graph, GraphFault};
use topo_io::settings::table_of;
use topo_io::{FromTable, RunFault, greatest_limits};
use topo_price::table::PriceTable;
use topo_price::tariff::{PriceFn, Tariff};
use topo_script::{GraphAsked, GraphStart};
use topo_search::{Options, SearchFault};
use topo_shown::{Planarized, ShowFault, shown};

/// Searches for pictures of a graph, each from a seed of its own, at the prices of a table.
pub struct Planarizer<F: PriceFn> {
    graph: Graph,
    prices: PriceTable,
    all: Vec<Searches<F>>,
}

// Written out, so that it is proved once: a derived one is proved anew in each function that lets
// such a value go.
impl<F: PriceFn + Drop> Drop for Planarizer<F> {
    fn drop(self) {
        let Planarizer { graph, prices, all } = self;
        drop(graph);
        drop(prices);
        drop(all);
    }
}

impl<F: PriceFn> Model for Planarizer<F> {
    ghost use Rattle.topo_planarize.specs.Answers.{Sought};

    ghost Value = { Sought };

    ghost view = { λ p. record { graph = p.graph; prices = p.prices } };
}

/// The table of the prices of all kinds, twice: for the search, and for the judge.
fn tables(prices: &[Option<u32>]) -> Result<(PriceTable, PriceTable), RunFault>
    ensures search { IfOk result (λ both. both.0 ≡ price_table prices.now) }
    ensures judge { IfOk result (λ both. both.1 ≡ price_table prices.now) }
    ensures fault { IfErr result (IsPriceFaultOf prices.now) }
{
    match (table_of(prices), table_of(prices)) {
        (Ok(search), Ok(judge)) => Ok((search, judge)),
        (Err(fault), _) => Err(RunFault::Price(fault)),
        (_, Err(fault)) => Err(RunFault::Price(fault)),
    }
}

/// What was found, if it shows the graph.
fn judged(
    alloc: Global,
    graph: &Graph,
    prices: &PriceTable,
    found: Found,
) -> Result<Answer, RunFault>
    ensures shows { IfOk result (λ answer. IsAnswerOf graph.now prices.now answer) }
    ensures fault { IfErr result IsOfSearch }
{
    let Found {
        parts,
        others,
        tries,
    } = found;
    match shown(alloc, greatest_limits(), graph, prices, parts, others) {
        Ok(planarized) => told(planarized, prices, tries),
        Err(ShowFault::Memory) => Err(RunFault::Memory),
        Err(_) => Err(RunFault::Graph(GraphFault::NotShown)),
    }
}

/// Pictures that show a graph, with what is told of them.
fn told(
    planarized: Planarized<'_>,
    prices: &PriceTable,
    tries: Vec<u64>,
) -> Result<Answer, RunFault>
    requires { prices.now ≡ planarized.prices }
    ensures told { IfOk result (λ answer. (answer.parts ≡ planarized.entry.parts)
        × (answer.lonely ≡ planarized.entry.others)) }
    ensures cost { IfOk result (λ answer. answer.cost ≡ total_cost prices.now answer.parts) }
    ensures crossings { IfOk result
        (λ answer. answer.crossings ≡ total_crossings answer.parts) }
    ensures fault { IfErr result IsOfSearch }
{
    let cost = total_cost(prices, planarized.parts());
    let crossings = total_crossings(planarized.parts());
    let (Some(cost), Some(crossings)) = (cost, crossings) else {
        return Err(RunFault::Graph(GraphFault::TooLarge));
    };
    let (parts, others) = planarized.into_lists();
    Ok(Answer {
        cost,
        crossings,
        lonely: Listed::from_vec(others),
        parts: Listed::from_vec(parts),
        tries: Listed::from_vec(tries),
    })
}

/// The pictures that a search begins with, where they show the graph.
fn begun(
    alloc: Global,
    graph: &Graph,
    prices: &PriceTable,
    start: Option<GraphStart>,
) -> Result<Option<Arc<Beginning>>, RunFault>
    ensures shown { IfOk result (λ _. StartsWell graph.now prices.now start) }
    ensures fault { IfErr result (IsStartFault graph.now prices.now start) }
{
    let Some(start) = start else {
        return Ok(None);
    };
    let GraphStart { parts, lonely } = start;
    let (parts, others) = (parts.into_vec(), lonely.into_vec());
    match shown(alloc, greatest_limits(), graph, prices, parts, others) {
        Ok(planarized) => {
            let (parts, others) = planarized.into_lists();
            match Arc::new(alloc, Beginning { parts, others }) {
                Ok(beginning) => Ok(Some(beginning)),
                Err(_) => Err(RunFault::Memory),
            }
        }
        Err(ShowFault::Memory) => Err(RunFault::Memory),
        Err(_) => Err(RunFault::Graph(GraphFault::OtherGraph)),
    }
}

/// How dear pictures are: first by what their crossings cost, and then by how many they are.
fn score_of(prices: &PriceTable, found: &Found) -> (u64, u64) {
    let cost = total_cost(prices, &found.parts).unwrap_or(u64::MAX);
    let crossings = total_crossings(&found.parts).unwrap_or(u64::MAX);
    (cost, crossings)
}

/// Whether pictures are better than the best ones so far.
fn is_better(prices: &PriceTable, found: &Found, best: &Option<Found>) -> bool {
    match best {
        Some(best) => score_of(prices, found) < score_of(prices, best),
        None => true,
    }
}

/// The best of what searches found, of equal ones the first; else the first fault.
fn best_of<F: PriceFn + Drop>(
    prices: &PriceTable,
    all: Vec<Searches<F>>,
) -> Result<Found, SearchFault> {
    let mut best = None;
    let mut first = SearchFault::Memory;
    let mut has_failed = false;
    for searches in all {
        match searches.into_found() {
            Ok(found) => if is_better(prices, &found, &best) {
                best = Some(found);
            },
            Err(fault) => if !has_failed {
                has_failed = true;
                first = fault;
            },
        }
    }
    best.ok_or(first)
}

/// As many searches as there are to be side by side, each from a seed of its own.
fn begin_all<F: PriceFn + Drop>(
    alloc: Global,
    graph: &Graph,
    beginning: Option<Arc<Beginning>>,
    ask: F,
    options: Options,
    threads: u32,
) -> Result<Vec<Searches<F>>, AllocError>
    requires callable { F.is_callable ask }
    requires promise { IsPromise (F.may_return ask) }
{
    let tariff = Arc::new(alloc, Tariff::new(ask))?;
    let mut all = Vec::with_capacity(alloc, threads as usize)?;
    let mut options = options;
    for _ in 0..threads {
        let beginning = match &beginning {
            Some(beginning) => Some(Arc::clone(beginning)?),
            None => None,
        };
        let tariff = Arc::clone(&tariff)?;
        let searches = Searches::new(alloc, graph, beginning, tariff, options)?;
        if all.push(searches).is_err() {
            return Err(AllocError);
        }
        options.seed = options.seed.wrapping_add(1);
    }
    Ok(all)
}

/// What is told of a fault of a search.
fn fault_of(fault: SearchFault) -> RunFault
    ensures { IsOfSearch result }
{
    match fault {
        SearchFault::Memory => RunFault::Memory,
        SearchFault::NotPlanarized(place) => {
            RunFault::Graph(GraphFault::NotPlanarized(place as usize))
        }
        SearchFault::TooLarge => RunFault::Graph(GraphFault::TooLarge),
        SearchFault::NotLoaded(_) => RunFault::Graph(GraphFault::NotShown),
    }
}

impl<F: PriceFn> Planarizer<F> {
    /// The searches that are asked for, none of which has begun.
    pub fn open(alloc: Global, asked: GraphAsked) -> Result<Self, RunFault>
    where
        F: FromTable,
        ensures graph { IfOk result (λ p. p.graph ≡ drawn asked) }
        ensures prices { IfOk result (λ p. p.prices ≡ price_table asked.prices) }
        ensures start { IfOk result
            (λ _. StartsWell (drawn asked) (price_table asked.prices) asked.start) }
        ensures fault { IfErr result (HasNoAnswer asked) }
    {
        let options = Options {
            seed: asked.seed,
            effort: asked.effort,
        };
        let (ask, prices) = tables(asked.prices.as_slice())?;
        let graph = match Graph::new(asked.vertices, asked.edges.into_vec()) {
            Ok(graph) => graph,
            Err(fault) => return Err(RunFault::Graph(fault)),
        };
        let beginning = begun(alloc, &graph, &prices, asked.start)?;
        let ask = F::from_table(ask);
        match begin_all(alloc, &graph, beginning, ask, options, asked.threads) {
            Ok(all) => Ok(Planarizer { graph, prices, all }),
            Err(_) => Err(RunFault::Memory),
        }
    }

    /// How far the first of the searches has come.
    pub fn way(&self) -> Way {
        match self.all.first() {
            Some(first) => first.way(),
            None => Way::NONE,
        }
    }

    /// Whether all searches have ended.
    pub fn have_ended(&self) -> bool {
        have_all_ended(&self.all)
    }

    /// Searches for a while, some 50 milliseconds for each of the searches.
    pub fn step(&mut self, alloc: Global)
    where
        F: Drop,
        ensures { self.new ≡ self.old }
    {
        for searches in self.all.iter_mut() {
            searches.step(alloc);
        }
    }

    /// Leaves repair out in each component until there is a picture of it.
    pub fn hurry(&mut self)
        ensures { self.new ≡ self.old }
    {
        for searches in self.all.iter_mut() {
            searches.hurry();
        }
    }

    /// Ends the search in each component as soon as there is a picture of it.
    pub fn end_soon(&mut self)
        ensures { self.new ≡ self.old }
    {
        for searches in self.all.iter_mut() {
            searches.end_soon();
        }
    }

    /// Searches to the end in the thread that calls.
    pub fn run(&mut self, alloc: Global)
    where
        F: Drop,
        ensures { self.new ≡ self.old }
    {
        search_in_turn(alloc, &mut self.all);
    }

    /// Searches to the end, each search in a thread of its own.
    pub(crate) fn search<R: Threads + Clock + Sync, E: Write>(
        &mut self,
        rt: &R,
        alloc: Global,
        terms: &Terms,
        told: &mut E,
    )
    where
        F: Drop + Send + Sync,
        ensures same { self.new ≡ self.old }
        ensures way { TellsWay terms.now.is_told (E.contents told.old) (E.contents told.new) }
    {
        search_to_the_end(rt, alloc, &mut self.all, terms, told);
    }

    /// The best of what was found, if it shows the graph.
    pub fn into_answer(self, alloc: Global) -> Result<Answer, RunFault>
    where
        F: Drop,
        ensures answer { IfOk result (IsAnswerOf self.graph self.prices) }
        ensures fault { IfErr result IsOfSearch }
    {
        let Planarizer { graph, prices, all } = self;
        match best_of(&prices, all) {
            Ok(found) => judged(alloc, &graph, &prices, found),
            Err(fault) => Err(fault_of(fault)),
        }
    }
}
