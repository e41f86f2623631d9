//! Boards as bytes: the size, then the points in reading order; and the lines that the programs print.

#![tactic(auto)]

pub mod auditing;
pub mod board;
pub mod failure;
pub mod judging;
pub mod lines;
pub mod point_lines;
pub mod record;
pub mod showing;
pub mod written;
