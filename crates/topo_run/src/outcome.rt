//! What a run of lists leads to.

ghost use Rattle.std.specs.Prelude.{◌≡◌, IfErr, IfOk};

use std::alloc::Global;
use topo_book::Book;
use topo_core::calls::Entry;
use topo_core::listed::Listed;
use topo_core::rows::Rows;
use topo_io::RunFault;
use topo_price::tariff::PriceFn;

/// A history, and the picture at its end.
#[derive(Drop)]
pub(crate) struct RunOutcome {
    pub(crate) history: Listed<Entry>,
    pub(crate) picture: Rows,
}

/// The history of a book, and its picture.
pub(crate) fn outcome_of<F: PriceFn + Drop>(
    alloc: Global,
    book: Book<F>,
) -> Result<RunOutcome, RunFault>
    ensures history { IfOk result (λ outcome. outcome.history ≡ book.history) }
    ensures picture { IfOk result (λ outcome. outcome.picture ≡ book.picture.rows) }
    ensures fault { IfErr result (λ fault. fault ≡ RunFault.Memory) }
{
    let Ok((history, picture)) = book.into_history_and_rows(alloc) else {
        return Err(RunFault::Memory);
    };
    Ok(RunOutcome {
        history: Listed::from_vec(history),
        picture,
    })
}
