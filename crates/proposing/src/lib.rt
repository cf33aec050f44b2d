// Our own vertex and our own no-vote.
#![tactic(auto)]

pub mod making;
mod own;
pub mod signing;
mod weak;
