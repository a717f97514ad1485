//! A search for pictures of a graph, with the text of its last answer.

ghost use Rattle.std.specs.Prelude.{◌≡◌, IfErr, IfOk, OnErr, string_bytes};
ghost use Rattle.fezdrok_c.specs.Searches.{HasPictures, IsNoSearch, IsSearchAnswered, IsSearchBegun};
ghost use Rattle.fezdrok_c.specs.Searches.{IsOpenFor, IsSearchLost, IsSearchTold, LosesPictures, SearchReplies};
ghost use Rattle.fezdrok_c.specs.Searches.{search_request_of};

use crate::handle::{DONE, NO_MEMORY, Text, place, tell};
use std::alloc::{AllocError, Global};
use topo_faults::Fault;
use topo_io::{FromTable, RunFault};
use topo_planarize::{Planarizer, Way};
use topo_price::tariff::PriceFn;
use topo_script::path::JsonPath;
use topo_script::written::write_after;
use topo_script::{ScriptFault, read_graph};
use topo_session::texts::{fault_text, numbered_text, text_of};

/// A search, until its pictures are taken, with the text of its last answer.
pub struct Searching<F: PriceFn> {
    pub(crate) heap: Global,
    pub(crate) planarizer: Option<Planarizer<F>>,
    text: Vec<u8>,
}

// Written out, so that it is proved once: a derived one is proved anew in each function that lets
// such a value go.
impl<F: PriceFn + Drop> Drop for Searching<F> {
    fn drop(self) {
        let Searching {
            heap: _,
            planarizer,
            text,
        } = self;
        drop(planarizer);
        drop(text);
    }
}

/// What a program in C asks of a search.
#[derive(Clone, Copy, Debug, PartialEq, Eq)]
enum SearchRequest {
    /// To search for a while.
    Step,
    /// To leave repair out until there is a picture.
    Hurry,
    /// To end as soon as there is a picture of each component.
    End,
    /// For the pictures, after which there is no search.
    Pictures,
}

/// What a text asks of a search.
fn request_of(text: &[u8]) -> Option<SearchRequest>
    ensures { result ≡ search_request_of text.now }
{
    if text == "\"step\"".as_bytes() {
        Some(SearchRequest::Step)
    } else if text == "\"hurry\"".as_bytes() {
        Some(SearchRequest::Hurry)
    } else if text == "\"end\"".as_bytes() {
        Some(SearchRequest::End)
    } else if text == "\"pictures\"".as_bytes() {
        Some(SearchRequest::Pictures)
    } else {
        None
    }
}

/// Writes how many crossings the best picture of a component has; null where there is none yet.
fn write_crossings(out: &mut String, crossings: Option<u64>) -> Result<(), AllocError> {
    match crossings {
        Some(count) => write_after(out, ",\"crossings\":", &count),
        None => out.push_str(",\"crossings\":null"),
    }
}

/// The text of how far a search has come.
fn way_text(heap: Global, way: Way, have_ended: bool) -> Result<String, AllocError> {
    let mut text = String::new(heap);
    write_after(&mut text, "{\"component\":", &(way.component as u64))?;
    write_after(&mut text, ",\"components\":", &(way.components as u64))?;
    write_crossings(&mut text, way.crossings)?;
    let ended = if have_ended {
        ",\"ended\":true"
    } else {
        ",\"ended\":false"
    };
    text.push_str(ended)?;
    write_after(&mut text, ",\"orders\":", &way.orders)?;
    text.push('}')?;
    Ok(text)
}

/// Has a search go on as it is asked, and says how far it has come.
fn go_on<F: PriceFn + Drop>(
    heap: Global,
    planarizer: &mut Planarizer<F>,
    request: SearchRequest,
) -> Result<String, AllocError>
    ensures { planarizer.new ≡ planarizer.old }
{
    match request {
        SearchRequest::Hurry => planarizer.hurry(),
        SearchRequest::End => planarizer.end_soon(),
        _ => planarizer.step(heap),
    }
    way_text(heap, planarizer.way(), planarizer.have_ended())
}

/// The pictures that a search found, or why there are none.
fn pictures_text<F: PriceFn + Drop>(
    heap: Global,
    planarizer: Planarizer<F>,
) -> Result<String, AllocError>
    ensures { IfOk result (λ text. HasPictures planarizer (string_bytes text)) }
{
    match planarizer.into_answer(heap) {
        Ok(answer) => text_of(heap, &answer),
        Err(fault) => fault_text(heap, fault),
    }
}

/// The answer to a request.
fn reply<F: PriceFn + Drop>(
    heap: Global,
    planarizer: &mut Option<Planarizer<F>>,
    request: SearchRequest,
) -> Result<String, AllocError>
    ensures told { IfOk result (λ text.
        SearchReplies request planarizer.old planarizer.new (string_bytes text)) }
    ensures lost { OnErr result (LosesPictures request planarizer.old planarizer.new) }
{
    // The pictures were taken, or there was no graph.
    let Some(mut found) = planarizer.take() else {
        return numbered_text(heap, Fault::NotOpen);
    };
    if request == SearchRequest::Pictures {
        return pictures_text(heap, found);
    }
    let told = go_on(heap, &mut found, request);
    *planarizer = Some(found);
    told
}

/// The answer to a text. One that asks for nothing that there is is told as a bad shape.
fn reply_to<F: PriceFn + Drop>(
    heap: Global,
    planarizer: &mut Option<Planarizer<F>>,
    text: &[u8],
) -> Result<String, AllocError>
    ensures told { IfOk result (λ told. IsSearchTold (search_request_of text.now)
        planarizer.old planarizer.new (string_bytes told)) }
    ensures lost { OnErr result
        (IsSearchLost (search_request_of text.now) planarizer.old planarizer.new) }
{
    match request_of(text) {
        Some(request) => reply(heap, planarizer, request),
        None => fault_text(
            heap,
            RunFault::Script(ScriptFault::BadShape(JsonPath::WHOLE)),
        ),
    }
}

/// The search that a text asks for.
fn opened<F: FromTable>(heap: Global, graph: &[u8]) -> Result<Planarizer<F>, RunFault>
    ensures open { IfOk result (IsOpenFor graph.now) }
    ensures fault { IfErr result (IsNoSearch graph.now) }
{
    match read_graph(heap, graph) {
        Ok(asked) => Planarizer::open(heap, asked),
        Err(fault) => Err(RunFault::Script(fault)),
    }
}

/// Begins the search that a text asks for. Where that is at fault there is no search, and the text
/// is that of the fault; else there is no text.
pub fn begin_search<F: FromTable>(
    heap: Global,
    graph: &[u8],
    text: &mut Text,
    status: &mut u8,
) -> Searching<F>
    ensures { IsSearchBegun graph.now result text.new status.new }
{
    let searching = match opened(heap, graph) {
        Ok(planarizer) => {
            *status = DONE;
            Searching {
                heap,
                planarizer: Some(planarizer),
                text: Vec::new(heap),
            }
        }
        Err(fault) => {
            let (now, told) = tell(heap, fault);
            *status = now;
            Searching {
                heap,
                planarizer: None,
                text: told,
            }
        }
    };
    place(&searching.text, text);
    searching
}

/// Answers a request. Out of memory there is no text.
pub fn answer_search<F: FromTable>(
    searching: &mut Searching<F>,
    request: &[u8],
    text: &mut Text,
) -> u8
    ensures { IsSearchAnswered searching.old request.now result searching.new text.new }
{
    let status = match reply_to(searching.heap, &mut searching.planarizer, request) {
        Ok(told) => {
            searching.text = told.into_bytes();
            DONE
        }
        Err(_) => {
            searching.text.clear();
            NO_MEMORY
        }
    };
    place(&searching.text, text);
    status
}

/// Lets a search go.
pub fn shut_search<F: FromTable>(searching: Searching<F>) {
    drop(searching);
}
