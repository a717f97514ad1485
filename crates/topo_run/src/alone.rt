//! A run of one list: on a book, with no lock and no versions, since nobody else takes part.

ghost use Rattle.std.specs.Prelude.{◌≡◌, ◌++◌, ◌∷◌, [], IfErr, IfOk, OnOk, true};
ghost use Rattle.std.specs.Arc.{arc_value};
ghost use Rattle.topo_book.specs.Books.{IsAnswered, IsSameBook};
ghost use Rattle.topo_core.specs.History.{IsRun, call_of};
ghost use Rattle.topo_price.specs.Prices.{prices_of};
ghost use Rattle.topo_run.specs.Working.{HasEntered};

use crate::outcome::{RunOutcome, outcome_of};
use std::alloc::{AllocError, Global};
use std::sync::Arc;
use topo_book::Book;
use topo_core::calls::{Call, Command, Reply};
use topo_io::RunFault;
use topo_picture::Picture;
use topo_price::tariff::{PriceFn, Tariff};
use topo_service::{Gate, between};

/// The call that a command makes.
fn call_of(command: Command) -> Call
    ensures { result ≡ call_of command }
{
    match command {
        Command::Plain(call) => call,
        Command::Planned { u, v, kind } => Call::Insert { u, v, kind },
    }
}

/// Carries a list out, each command between the gate's calls for it, until it is out of memory.
/// Says whether all of it was carried out.
fn carry_out<F: PriceFn, T: Gate>(
    alloc: Global,
    book: &mut Book<F>,
    list: &[Command],
    gate: &T,
) -> bool
    requires { book.old.history ≡ [] }
    ensures entered { result ≡ true → HasEntered list.now book.new.history }
    ensures same_book { IsSameBook book.old book.new }
{
    for (index, command) in list.iter().enumerate() {
        let made = between(
            gate,
            (0, index),
            book,
            |book: &mut Book<F>|
                ensures answered { OnOk result ((reply : Reply) × IsAnswered
                    (prices_of (F.may_return book.entry.now.tariff)) 0 (call_of command.entry.now)
                    reply book.entry.now book.exit.now) }
                ensures same_book { IsSameBook book.entry.now book.exit.now }
            { book.enter(alloc, 0, call_of(*command)) },
        );
        if made.is_err() {
            return false;
        }
    }
    true
}

/// How many vertices and how many edges the commands of a list add at most. No contract rests on
/// it.
fn most_added(list: &[Command]) -> (usize, usize) {
    let grows = |command: &&Command| matches!(command, Command::Plain(Call::Grow { .. }));
    let adds = |command: &&Command| !matches!(command, Command::Plain(Call::Delete { .. }));
    let vertices = list.iter().filter(grows).count();
    let edges = list.iter().filter(adds).count();
    (vertices, edges)
}

/// What one list leads to from a start.
pub(crate) fn outcome_alone<F: PriceFn + Drop, T: Gate>(
    alloc: Global,
    start: Picture,
    tariff: Arc<Tariff<F>>,
    list: &[Command],
    gate: &T,
) -> Result<RunOutcome, RunFault>
    ensures run { IfOk result (λ outcome. IsRun (prices_of (F.may_return (arc_value tariff)))
        start.limits start.rows (list.now ∷ []) outcome.history outcome.picture) }
    ensures fault { IfErr result (λ fault. fault ≡ RunFault.Memory) }
{
    let Ok(mut book) = Book::new(alloc, start, tariff) else {
        return Err(RunFault::Memory);
    };
    let (vertices, edges) = most_added(list);
    if book.reserve(list.len(), vertices, edges).is_err() {
        return Err(RunFault::Memory);
    }
    if carry_out(alloc, &mut book, list, gate) {
        // For the proof: what the type keeps.
        book.history();
        outcome_of(alloc, book)
    } else {
        Err(RunFault::Memory)
    }
}
