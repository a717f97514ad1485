//! The gate that lets every command pass.

use topo_service::Gate;

/// It does nothing before a command and nothing after it.
pub struct OpenGate;

impl Gate for OpenGate {
    fn before(&self, _worker: usize, _index: usize) {}

    fn after(&self, _worker: usize, _index: usize) {}
}
