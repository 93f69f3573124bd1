// The lent form of the streams: a state that the serial driver keeps is changed in place. Each stream has functions of its own, which the pages name:
// their contracts are those of its own step and finish.
#![tactic(auto)]

mod lawful; // lawful.rt: the two streams keep the law of the lent form
pub mod reader; // reader.rt: the reader's step and finish
pub mod writer; // writer.rt: the writer's step and finish
