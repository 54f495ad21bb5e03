//! The run on one thread: a checked process is run whole, by a chooser or by what the command line
//! chooses, or a trace of it is made again.
#![tactic(auto)]

mod chosen;
mod numbers;
mod process;
mod replaying;
mod run;

pub use chosen::chosen_run;
pub use cqp_engine::{ReplayEnd, Replayed};
pub use replaying::replay;
pub use run::{Run, plain_run};
