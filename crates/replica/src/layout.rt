// Where each word of the state stands, and how many there are. Every size and place of them is written here.
ghost use Rattle.std.specs.Prelude.{◌≡◌, ◌<◌, ◌≤◌};
ghost use Rattle.record.specs.Members.{rounds, slots, id_round, is_round};
ghost use Rattle.replica.specs.Layout.{masks_at, cell_at};

use record::layout::BODY_SIZE;
use record::members::{ID_LIMIT, ROUNDS, SLOTS};

// The head: words 0 to 7.
pub const MEMBER_COUNT: usize = 0;

pub const CURRENT_ROUND: usize = 1;

pub const COMMITTED_ROUND: usize = 2;

pub const LEADER_COUNT: usize = 3;

pub const JOURNAL_COUNT: usize = 4;

// The own member plus 1, or a watcher's word.
pub const OWN: usize = 5;

pub const WATCHER: u32 = 0;

// The rounds for which a record was made, and those for which a no-vote was signed: bit r - 1 for round r.
pub const MADE: usize = 6;

pub const SIGNED: usize = 7;

pub const HEAD_SIZE: usize = 8;

// The masks of a round, one of each kind, from `masks_at`.
pub const HELD: usize = 0;

pub const HEARD: usize = 1;

pub const VOTES: usize = 2;

pub const TIMEOUTS: usize = 3;

pub const NO_VOTES: usize = 4;

pub const ORDERED: usize = 5;

pub const KINDS: usize = 6;

// The two lists.
pub const LEADERS: usize = 200;

pub const LEADERS_SIZE: usize = 32;

pub const JOURNAL: usize = 232;

pub const JOURNAL_SIZE: usize = 512;

// The cells, a body each. The words of a round's.
pub const CELLS: usize = 744;

pub const ROUND_SIZE: usize = BODY_SIZE * (SLOTS as usize);

// Where the two lists end.
pub const LEADERS_END: usize = LEADERS + LEADERS_SIZE;

pub const JOURNAL_END: usize = JOURNAL + JOURNAL_SIZE;

// Of the whole state.
pub const STATE_SIZE: usize = CELLS + ROUND_SIZE * (ROUNDS as usize);

pub fn masks_at(round: u32) -> usize
    requires { (1 ≤ round) × (round ≤ rounds) }
    ensures { result ≡ masks_at round }
{
    HEAD_SIZE + KINDS * (round - 1) as usize
}

pub fn cell_at(round: u32, member: u32) -> usize
    requires { (1 ≤ round) × (round ≤ rounds) × (member < slots) }
    ensures { result ≡ cell_at round member }
{
    CELLS + BODY_SIZE * (SLOTS * (round - 1) + member) as usize
}

// The number is the id of a vertex of rounds 1 to 32.
pub fn is_id(x: u32) -> bool
    ensures { result ≡ is_round (id_round x) }
{
    if x < SLOTS {
        return false;
    }
    x < ID_LIMIT
}
