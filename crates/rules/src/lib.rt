// The ten rules on the run's bytes: an item is taken by its rule; a step, and a list of steps.
#![tactic(auto)]

mod calls; // calls.rt: a step, and a list of steps
mod numbered; // numbered.rt: the rules and their numbers
mod taking; // taking.rt: one item is taken, or refused

pub use calls::{Stopped, step, steps};
pub use numbered::Rule;
pub use taking::{take, waits};
