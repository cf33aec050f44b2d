// The replica state, its well-formedness, and the calls that admit nothing: opening, status and the lists.
#![tactic(auto)]

pub mod answer;
pub mod layout;
pub mod lists;
pub mod masks;
pub mod opening;
pub mod parents;
pub mod places;
pub mod status;
pub mod wellformed;
