// The lines of sheetlog: one line of input to a command, and an answer to a line of output.
#![tactic(auto)]

pub mod command;
pub mod numeral;
pub mod text;
