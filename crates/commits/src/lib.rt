// The round rule and the commits.
#![tactic(auto)]

pub mod commit;
pub mod history;
pub mod rounds;
pub mod walk;
