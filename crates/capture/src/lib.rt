//! How a stone is taken, and the auditor of marks.

#![tactic(auto)]

pub mod audit;
mod capturing;
pub mod judgement;
pub mod showing;
mod survey;
mod target;
pub mod theorems;
