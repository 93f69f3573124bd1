// The reader's stream by value: start, step and finish.
#![tactic(auto)]

pub mod reader; // reader.rt: the state and its methods
