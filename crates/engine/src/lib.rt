// The reading engine: what one byte of text does to a state, and what a piece does.
#![tactic(auto)]

pub mod rules; // rules.rt: what a run reads by, the table and an allowed choice
mod step; // step.rt: what one byte does, in 01's order
mod digits; // digits.rt: the loop over digits as they stand
mod parts; // parts.rt: a text in parts, counting alone and in place
pub mod piece; // piece.rt: the runs over a piece: into a buffer, in place, and counting alone
