//! Rows, the halves along each edge, and the segments that these are halves of.

ghost use Rattle.std.specs.Prelude.{◌≡◌, option_copied};
ghost use Rattle.topo_core.specs.Picture.{edge_row};
ghost use Rattle.topo_table.specs.Places.{entries, value_of};

use crate::bounds::Bounds;
use crate::kinds::Kinds;
use crate::path::Path;
use topo_core::rows::EdgeRow;
use topo_kept_rows::KeptRows;
use topo_map::Embedding;
use topo_table::NumberedTable;

/// The parts of an embedding (`Embedded`), whether or not they agree. A method that changes them
/// says what has to agree before, and that it agrees after.
#[derive(Drop)]
pub(crate) struct Parts {
    pub(crate) rows: KeptRows,
    pub(crate) paths: NumberedTable<Path>,
    pub(crate) segments: Embedding,
    pub(crate) bounds: Bounds,
    pub(crate) kinds: Kinds,
}

impl Parts {
    /// The edge with an id.
    pub(crate) fn edge(&self, id: u32) -> Option<&EdgeRow>
        ensures { option_copied result ≡ edge_row self.now.rows id }
    {
        self.rows.edge(id)
    }

    /// The path of the edge with an id.
    pub(crate) fn path(&self, id: u32) -> Option<&Path>
        ensures { option_copied result ≡ value_of id (entries self.now.paths) }
    {
        self.paths.get(id)
    }
}
