//! Moves: playing a stone, and what is proved of moves.

#![tactic(auto)]

pub mod stone;
pub mod theorems;
