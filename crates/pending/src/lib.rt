// The pending buffer: vertices that came before their parents, and the vertex call with it.
#![tactic(auto)]

mod buffer;
pub mod early;
pub mod layout;
mod moves;
mod sweep;
