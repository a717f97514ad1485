//! Scripts.

use topo_core::calls::Command;
use topo_core::listed::Listed;
use topo_core::rows::Rows;

/// Limits as they were handed in. `Limits::new` of `topo_core` says which are in range.
#[derive(Clone, Copy, Debug, PartialEq, Eq)]
pub struct LimitRows {
    pub vertices: u32,
    pub edges: u32,
    pub crossings: u32,
}

/// What a run is asked to do. The prices are those of kind 0, 1, ..; a kind past the end has price
/// 1, and a price may be none, so that nothing crosses edges of this kind. No start is the first
/// picture.
#[derive(Drop, Debug)]
pub struct Script {
    pub limits: LimitRows,
    pub prices: Listed<Option<u32>>,
    pub start: Option<Rows>,
    pub workers: Listed<Listed<Command>>,
}
