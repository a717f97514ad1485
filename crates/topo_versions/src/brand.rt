//! What the type parameter of a service names.

ghost use Rattle.std.specs.Prelude.{Option};
ghost use Rattle.logbook.specs.Pages.{Book};
ghost use Rattle.topo_rows.specs.Shown.{Shown};

use std::marker::Brand;
use std::sync::ledger::Ledger;

/// The list of the accepted entries.
pub trait LogBrand: Ledger {
    ghost book: { Book };
}

/// The start of a service, and the closure that answers its prices.
pub trait ServiceBrand<F>: LogBrand {
    ghost start: { Shown };

    ghost closure: { Option F };
}

impl LogBrand for Brand {
    ghost book = { record { number = 0; log_name = 0; cells_name = 0 } };
}

impl<F> ServiceBrand<F> for Brand {
    ghost use Rattle.std.specs.Prelude.{None};
    ghost use Rattle.topo_versions.specs.Names.{smallest};

    ghost start = { smallest };

    ghost closure = { None };
}
