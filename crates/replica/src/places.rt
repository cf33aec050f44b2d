// The places of the leader list: a round and how many of its leaders are taken.
ghost use Rattle.std.specs.Prelude.{◌≡◌, ◌<◌, ◌≤◌, length};
ghost use Rattle.replica.specs.Layout.{state_size, leaders_size};
ghost use Rattle.replica.specs.State.{member_count, leader_count, width, leader_index, last_place};

use super::layout::{LEADER_COUNT, LEADERS, is_id};
use record::members::{SLOTS, leader_at};

// How many leaders a round has: one so far.
const WIDTH: u32 = 1;

pub fn width_of(state: &[u32]) -> u32
    requires { length state.now ≡ state_size }
    ensures { result ≡ width state.now }
{
    WIDTH
}

// Which of the leaders of its round the vertex with the id x is of, and the width if it is of none.
pub fn index_of(state: &[u32], n: u32, x: u32) -> u32
    requires { (length state.now ≡ state_size) × (n ≡ member_count state.now) × (0 < n) }
    ensures { result ≡ leader_index state.now x }
{
    let width = width_of(state);
    if !is_id(x) {
        return width;
    }
    (0..width)
        .find(|i| leader_at(n, x / SLOTS, *i) == x % SLOTS)
        .unwrap_or(width)
}

// How many leaders of the last round of the leader list are in it.
pub fn last_place(state: &[u32], n: u32) -> u32
    requires { (length state.now ≡ state_size) × (n ≡ member_count state.now) × (0 < n) × (leader_count state.now ≤ leaders_size) }
    ensures { result ≡ last_place state.now }
{
    let count = state[LEADER_COUNT] as usize;
    if count == 0 {
        return 0;
    }
    index_of(state, n, state[LEADERS + (count - 1)]) + 1
}
