// The words of a record: round, source, and a body. Every size and place of them is written here.

// Of a whole record.
pub const ROUND: usize = 0;

pub const SOURCE: usize = 1;

pub const BODY: usize = 2;

// Of a body.
pub const STRONG: usize = 0;

pub const TIMEOUTS: usize = 1;

pub const NO_VOTES: usize = 2;

pub const DIGEST: usize = 3;

pub const DIGEST_SIZE: usize = 8;

pub const WEAK_COUNT: usize = DIGEST + DIGEST_SIZE;

pub const WEAK: usize = WEAK_COUNT + 1;

pub const WEAK_SLOTS: usize = 5;

// All of a body, and of a whole record.
pub const BODY_SIZE: usize = WEAK + WEAK_SLOTS;

pub const RECORD_SIZE: usize = BODY + BODY_SIZE;
