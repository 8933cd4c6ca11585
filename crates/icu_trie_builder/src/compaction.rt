//! Stores blocks of cells. Equal blocks are stored once. A block may be anywhere among the cells
//! stored so far. A block that does not occur among them is appended, overlapping the longest tail
//! that equals a prefix of the block.
//!
//! - `cell_store`: [`CellStore`](cell_store::CellStore), the cells stored so far. It finds a block
//!   among them or appends it
//! - `window_table`: finds a block by its hash, which `hashing` computes
//! - `blocks`: one block of some cells, and how far it overlaps the end of others

pub(crate) mod blocks;
pub(crate) mod cell_store;
mod hashing;
mod window_table;
