// The calls for C: slices and plain numbers in, plain structs out. Every call is total.
#![tactic(auto)]

pub mod answer;
pub mod calls;
