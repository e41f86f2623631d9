//! The size of a board, its points, which points are neighbours, and the list of refusals.

#![tactic(auto)]

pub mod neighbours;
pub mod refusal;
pub mod sides;
pub mod size;
pub mod theorems;
