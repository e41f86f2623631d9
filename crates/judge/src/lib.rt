//! The judge: which stones nobody can ever take.

#![tactic(auto)]

pub mod any_board;
pub mod boards;
pub mod judgement;
pub mod statements;
mod striking;
mod survey;
