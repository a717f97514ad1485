//! Reports.

use crate::scripts::LimitRows;
use topo_core::calls::Entry;
use topo_core::listed::Listed;
use topo_core::rows::Rows;

/// What a run did: from the start the calls of the history, in order, lead to the picture.
#[derive(Drop, Debug)]
pub struct Report {
    pub limits: LimitRows,
    pub prices: Listed<Option<u32>>,
    pub start: Rows,
    pub history: Listed<Entry>,
    pub picture: Rows,
}
