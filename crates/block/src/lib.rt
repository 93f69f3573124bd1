// The whole calls of reading: judge, reader into a second buffer, reader in place. The tidier stands above, in `tidier`.
#![tactic(auto)]

pub mod judging; // judging.rt: the judge, and the answer that a run over a whole text stands for
pub mod reader; // reader.rt: the reader into a second buffer, and in place

pub use judging::judge;
pub use reader::{read, read_in_place};
