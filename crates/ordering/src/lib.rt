// The calls that admit something: a vertex, a first message, a timeout, a no-vote, a bundle of timeouts.
#![tactic(auto)]

pub mod bundle;
pub mod first;
pub mod notes;
mod search;
mod steps;
pub mod vertex;
