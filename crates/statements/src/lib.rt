// The statement file loaded into a run, and written back.
#![tactic(auto)]

mod loading; // loading.rt: the file into a run
mod writing; // writing.rt: a run back into its file

pub use loading::load;
pub use writing::write;
