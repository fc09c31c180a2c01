// The map program's own work, apart from input and output: its draws, the place it takes, and the run it makes.
#![tactic(auto)]

mod generator; // generator.rt: the generator's state, and the place it draws
mod running; // running.rt: the place that is taken, and the run to its end

pub use running::draw;
