//! The referee of whole records, the rules of a record, and what is proved of them.

#![tactic(auto)]

mod game;
pub mod moves;
pub mod outcome;
pub mod record;
pub mod theorems;
