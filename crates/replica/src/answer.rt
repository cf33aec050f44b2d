// What the calls answer where nothing refuses them.

// How many leaders and journal entries a call added.
#[derive(Clone, Copy)]
pub struct Added {
    pub leaders: u32,
    pub journal: u32,
}

pub const NOTHING: Added = Added {
    leaders: 0,
    journal: 0,
};

// Words 1 to 4 of the state.
#[derive(Clone, Copy)]
pub struct Status {
    pub current_round: u32,
    pub committed_round: u32,
    pub leader_count: u32,
    pub journal_count: u32,
}
