//! Tests over all crates: examples that are run and compared.

#![tactic(auto)]

#[cfg(test)]
mod all_boards;
#[cfg(test)]
mod audit_calls;
#[cfg(test)]
mod auditing;
#[cfg(test)]
mod auditing_bytes;
#[cfg(test)]
mod drawing;
#[cfg(test)]
mod faulty_bytes;
#[cfg(test)]
mod judge_calls;
#[cfg(test)]
mod judgements;
#[cfg(test)]
mod memory;
#[cfg(test)]
mod playing;
#[cfg(test)]
mod positions;
#[cfg(test)]
mod reading;
#[cfg(test)]
mod records;
#[cfg(test)]
mod refereeing;
#[cfg(test)]
mod region_sets;
#[cfg(test)]
mod rows;
#[cfg(test)]
mod sets_of_rooms;
#[cfg(test)]
mod show_calls;
#[cfg(test)]
mod showing;
#[cfg(test)]
mod showing_bytes;
#[cfg(test)]
mod table;
