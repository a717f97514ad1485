//! Square grids: their vertices and edges by row and column, and their pictures.

ghost use Rattle.std.specs.Prelude.{◌≡◌, ◌+◌, ◌-◌, ◌*◌, IfOk};

use crate::pictures::greatest_limits;
use std::alloc::{AllocError, Global};
use topo_core::listed::Listed;
use topo_core::rows::{EdgeRow, Rows};
use topo_picture::Picture;
use topo_rows::LoadFault;

/// A square grid whose edges are all of kind 0. Vertices are numbered row by row. So are edges:
/// first those along the rows, and then those along the columns.
#[derive(Clone, Copy)]
pub struct Grid {
    /// So many vertices has a row, and so many rows there are: two or more.
    pub width: u8,
}

impl Grid {
    /// The last row and the last column.
    fn last(&self) -> u8
        ensures { result ≡ self.now.width - 1 }
    {
        self.width.saturating_sub(1)
    }

    /// How far a place is from the first, where a row has so many.
    #[tactic(auto, using(crate::proofs::Places::product_fits))]
    fn place(row: u8, length: u8, column: u8) -> u32
        ensures { result ≡ row * length + column }
    {
        row as u32 * length as u32 + column as u32
    }

    /// The vertex in a row and a column, both counted from 0.
    pub fn at(&self, row: u8, column: u8) -> u32
        ensures { result ≡ row * self.now.width + column }
    {
        Grid::place(row, self.width, column)
    }

    /// The edge from a vertex to the one on its right.
    pub fn right_of(&self, row: u8, column: u8) -> u32
        ensures { result ≡ row * (self.now.width - 1) + column }
    {
        Grid::place(row, self.last(), column)
    }

    /// The edge from a vertex to the one below it.
    #[tactic(auto, using(crate::proofs::Places::product_fits))]
    pub fn below(&self, row: u8, column: u8) -> u32
        ensures { result ≡ self.now.width * (self.now.width - 1) + row * self.now.width + column }
    {
        Grid::place(self.width, self.last(), 0) + self.at(row, column)
    }

    /// How many edges there are. The next edge that is put in gets this number.
    pub fn edge_count(&self) -> u32
        ensures { result ≡ self.now.width * (self.now.width - 1)
            + (self.now.width - 1) * self.now.width }
    {
        self.below(self.last(), 0)
    }

    /// The edges round a vertex, clockwise from the one with the least id.
    fn around(&self, alloc: Global, row: u8, column: u8) -> Result<Listed<u32>, AllocError> {
        let mut edges = Vec::with_capacity(alloc, 4)?;
        if column > 0 {
            edges.push(self.right_of(row, column - 1))?;
            if row > 0 {
                edges.push(self.below(row - 1, column))?;
            }
        }
        if column < self.last() {
            edges.push(self.right_of(row, column))?;
        }
        if row < self.last() {
            edges.push(self.below(row, column))?;
        }
        if column == 0 && row > 0 {
            edges.push(self.below(row - 1, column))?;
        }
        Ok(Listed::from_vec(edges))
    }

    fn rotations(&self, alloc: Global) -> Result<Listed<Listed<u32>>, AllocError> {
        let mut rotations = Vec::new(alloc);
        for row in 0..self.width {
            for column in 0..self.width {
                rotations.push(self.around(alloc, row, column)?)?;
            }
        }
        Ok(Listed::from_vec(rotations))
    }

    /// The edges along the rows, and then those along the columns.
    fn edges(&self, alloc: Global) -> Result<Listed<EdgeRow>, AllocError> {
        let mut edges = Vec::new(alloc);
        for row in 0..self.width {
            for column in 0..self.last() {
                let (a, b) = (self.at(row, column), self.at(row, column.saturating_add(1)));
                edges.push(edge(alloc, self.right_of(row, column), a, b))?;
            }
        }
        for row in 0..self.last() {
            for column in 0..self.width {
                let (a, b) = (self.at(row, column), self.at(row.saturating_add(1), column));
                edges.push(edge(alloc, self.below(row, column), a, b))?;
            }
        }
        Ok(Listed::from_vec(edges))
    }

    /// The rows of the grid.
    pub fn rows(&self, alloc: Global) -> Result<Rows, AllocError>
        ensures next_edge { IfOk result
            (λ rows. rows.next_edge ≡ self.now.width * (self.now.width - 1)
            + (self.now.width - 1) * self.now.width) }
        ensures next_crossing { IfOk result (λ rows. rows.next_crossing ≡ 0) }
    {
        Ok(Rows {
            rotations: self.rotations(alloc)?,
            edges: self.edges(alloc)?,
            crossings: Listed::new(alloc),
            next_edge: self.edge_count(),
            next_crossing: 0,
        })
    }

    /// The picture of the grid, within the greatest limits.
    pub fn picture(&self, alloc: Global) -> Result<Picture, LoadFault>
        ensures vertices { IfOk result (λ picture. picture.limits.vertices ≡ 65536) }
    {
        let Ok(rows) = self.rows(alloc) else {
            return Err(LoadFault::Memory);
        };
        let picture = Picture::load(alloc, greatest_limits(), &rows);
        drop(rows);
        picture
    }
}

/// An edge of kind 0 that crosses nothing.
fn edge(alloc: Global, id: u32, a: u32, b: u32) -> EdgeRow {
    EdgeRow {
        id,
        a,
        b,
        kind: 0,
        crossings: Listed::new(alloc),
    }
}
