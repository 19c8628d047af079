//! A machine that runs the code of templates on given answers.
//!
//! [`replay::replay`] returns the record of a run of compiled code, how the run ended and after how
//! many steps; [`replay::replay_within`] does so for any code, with a bound on the steps. What the
//! code asks of a renderer is an event, which takes the next of the answers. [`laws`] say that each
//! run of compiled code ends.
#![tactic(auto)]

mod asking;
pub mod laws;
mod loops;
mod machine;
mod operate;
pub mod replay;
mod stack;
