//! Whether a picture shows given rows, and whether its rows can be loaded again.

ghost use Rattle.std.specs.Prelude.{◌≡◌, ◌↔◌, IfOk, IsTrue};

use std::alloc::{AllocError, Global};
use topo_core::limits::Limits;
use topo_core::rows::Rows;
use topo_picture::Picture;
use topo_rows::LoadFault;

/// Whether a picture shows these rows.
pub fn shows(alloc: Global, picture: &Picture, rows: &Rows) -> Result<bool, AllocError>
    ensures { IfOk result (λ same. IsTrue same ↔ (picture.now.rows ≡ rows.now)) }
{
    let now = picture.rows(alloc)?;
    let same = now.equals(rows);
    drop(now);
    Ok(same)
}

/// Whether rows are loaded under limits and given back.
fn are_given_back(alloc: Global, limits: Limits, rows: &Rows) -> Result<bool, LoadFault> {
    let again = Picture::load(alloc, limits, rows)?;
    let same = shows(alloc, &again, rows);
    drop(again);
    match same {
        Ok(same) => Ok(same),
        Err(_) => Err(LoadFault::Memory),
    }
}

/// Whether a picture's rows are loaded under its limits and given back, or the first test that they
/// fail. By the contracts of `rows` and `load` they are, unless memory runs out.
pub fn is_loaded_again(alloc: Global, picture: &Picture) -> Result<bool, LoadFault> {
    match picture.rows(alloc) {
        Ok(rows) => {
            let same = are_given_back(alloc, picture.limits(), &rows);
            drop(rows);
            same
        }
        Err(_) => Err(LoadFault::Memory),
    }
}
