//! The embedding of a graph: segments between points, with the clockwise order of the halves round
//! each point.
//!
//! A half is a segment with a direction, and is kept as one number: `2 * key` and `2 * key + 1` are
//! the two of the segment at a key of a slab. An `Embedding` is seen as a `Rotation`: which numbers
//! are live halves (`is_live`), how they turn (`turn`), the label of the edge that each is on
//! (`edge_of`) and of the face on its left (`face_of`), and for how many more segments there is
//! room. In that view a free slot is an isolated segment. So the turn is always a permutation of
//! all numbers below `half_limit`, and laws of whole permutations apply to it. A new segment is
//! first stored by itself, which changes no turn, and then put in.
//!
//! Each edit (`hang`, `chord`, `split`, `unchord`, `smooth`) is exactly the edit of that name on
//! the turn. Its contract gives the points, segments and faces more or fewer, that all other halves
//! stay and keep their labels, and that what hangs together stays together. The edit works in any
//! case; only its clause about counts asks for two corners of one face, or for two faces beside the
//! segment. With room an edit takes no memory and cannot fail.
//!
//! Both directions of the turn are kept, and with each half a label of the face on its left: two
//! halves have one label exactly where they lie in one face. Labels stay below about twice the
//! number of halves that there is place for, so a list by label stays short however often the graph
//! is changed. `hang`, `split`, `smooth`, `face` and `same_face` take a constant number of steps.
//! `chord` and `unchord` join two faces or part one, and give a new label to the smaller of the
//! two: they take time by its length. `degree` walks round a point.
//!
//! A caller:
//!
//! ```rust
//! /// Two segments in a row: that of edge 0, and one of edge 1 that hangs from its end.
//! pub fn two_in_a_row(alloc: Global) -> Result<Embedding, AllocError> {
//!     let (mut embedding, half) = Embedding::seed(alloc, 0)?;
//!     embedding.reserve(1)?;
//!     let _hung = embedding.hang(half, 1);
//!     Ok(embedding)
//! }
//! ```
#![tactic(auto)]

mod build;
pub mod embedding;
mod faces;
pub mod half;
mod segments;

pub use embedding::Embedding;
pub use half::Half;
