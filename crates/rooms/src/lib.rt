//! Rooms of the judged side, and which of them are vital to which chains.

#![tactic(auto)]

pub mod region_sets;
pub mod room_set;
mod tables;
