// Records and masks of members: what can be asked of a record of which only the member count is known.
#![tactic(auto)]

pub mod group;
pub mod layout;
pub mod members;
pub mod questions;
pub mod refusal;
pub mod words;
