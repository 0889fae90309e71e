//! What a capture of git holds: its entries one after another, how their payloads are spelled, and their count.
#![tactic(auto)]

pub mod entry;
pub mod payload;
pub mod totals;
