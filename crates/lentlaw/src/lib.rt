// The law of the lent form of a stream, once for every state: a function that lends the state calls the one that takes it by value, keeps the state
// that this returned and hands on what it told. Whatever holds of the result and of the buffer at exit holds of the state at exit and what is told,
// put together. A step, a finish and a finish that writes have a trait each, since they take different things. The other way is here too: what holds
// of a lent form holds of the state by value through it.
#![tactic(auto)]

mod delay; // delay.rt: a stream that the law is used on
pub mod ending; // ending.rt: a finish that writes
pub mod finishing; // finishing.rt: a finish
pub mod stepping; // stepping.rt: a step
pub mod two; // two.rt: a state, what is told and the struct of the two

pub use ending::{Write, WriteIn, write_lent, write_through};
pub use finishing::{Finish, FinishIn, finish_lent, finish_through};
pub use stepping::{Step, StepIn, step_lent, step_through};
pub use two::Two;
