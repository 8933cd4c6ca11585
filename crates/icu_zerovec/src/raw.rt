//! Reads of cells in packed bytes, each with two bodies under one contract. In `proved` a proof takes
//! the place of the test of an index. In `tested` there is one test, in a form that rustc optimizes
//! well.
mod proved;
mod tested;

pub use proved::{cell_at, cell_below, cell_known, likely_cell_below};
