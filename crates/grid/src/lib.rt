// The grid: a plain link table with a cell for each pair of routers.
#![tactic(auto)]

pub mod grid;

pub use grid::Grid;
