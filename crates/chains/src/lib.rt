//! Positions, colours, chains and their breath.

#![tactic(auto)]

pub mod colour;
pub mod labels;
pub mod liberties;
pub mod position;
pub mod theorems;
