//! The commands of `mjc`, on any readers and writers: [`run::run`] runs the one that is asked for.
#![tactic(auto)]

pub mod answers;
pub mod each;
pub mod failure;
mod help;
mod labelled;
mod options;
mod print;
pub mod run;
pub mod template;
mod usage;
pub mod watched;

pub use minijinja_replay::replay;
pub use print::PrintedToken;
pub use usage::{Action, Command, FileCommand, parse};
