// The round rule.
ghost use Rattle.std.specs.Prelude.{◌≡◌, ◌≤◌};
ghost use Rattle.record.specs.Members.{rounds};
ghost use Rattle.commits.specs.Commit.{passable, highest_passable, raise_round};
ghost use Rattle.commits.specs.Standing.{GroupOf};

use record::group::Group;
use record::members::{Members, ROUNDS, leader_of};
use replica::layout::{CURRENT_ROUND, HELD, TIMEOUTS};
use replica::masks::mask_of;

// The round holds a quorum of vertices, and its leader's vertex or a quorum of timeouts.
fn is_passable(state: &[u32], group: Group, round: u32) -> bool
    requires { GroupOf state.now group.n × (1 ≤ round) × (round ≤ rounds) }
    ensures { result ≡ passable state.now round }
{
    let held = Members {
        bits: mask_of(state, HELD, round),
    };
    if !held.meets_quorum(group.quorum) {
        return false;
    }
    if held.has(leader_of(group.n, round)) {
        return true;
    }
    let timeouts = Members {
        bits: mask_of(state, TIMEOUTS, round),
    };
    timeouts.meets_quorum(group.quorum)
}

fn highest_passable(state: &[u32], group: Group) -> u32
    requires { GroupOf state.now group.n }
    ensures { (result ≡ highest_passable state.now rounds) × (result ≤ rounds) }
{
    for round in (1..=ROUNDS).rev() {
        if is_passable(state, group, round) {
            return round;
        }
    }
    0
}

// Raises the current round to one above the highest passable round.
pub fn raise_round(state: &mut [u32], group: Group)
    requires { GroupOf state.old group.n }
    ensures { state.new ≡ raise_round state.old }
{
    let next = 1 + highest_passable(state, group);
    if state[CURRENT_ROUND] < next {
        state[CURRENT_ROUND] = next;
    }
}
