//! The commands of the program, over what comes in and what goes out.
#![tactic(auto)]

mod client;
mod command;
mod end;
mod generate;
mod input;
mod laws;
mod log;
mod refused;
mod replay;
mod rest;
mod serve;
mod status;
mod words;

pub use command::run;
pub use laws::{
    inputs_end_once, lines_are_received_once, order_changes_no_best, repeats_change_nothing,
};
pub use status::Status;
