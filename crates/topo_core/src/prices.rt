//! Prices as a type: what names them where a contract has to range over all prices.

/// The prices of edges. A type stands for them, since a clause cannot range over relations.
pub trait Prices {
    ghost use Rattle.std.specs.Prelude.{ℕ};
    ghost use Rattle.topo_core.specs.declared.rows.Facts.{Facts};

    /// Crossing an edge with these facts costs this number.
    ghost price: { Facts → ℕ → Type 0 };
}
