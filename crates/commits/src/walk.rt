// The walk over leaders.
ghost use Rattle.std.specs.Prelude.{◌≡◌, ◌≤◌};
ghost use Rattle.record.specs.Members.{has, leader_at, rounds};
ghost use Rattle.record.specs.Below.{longest};
ghost use Rattle.commits.specs.Taken.{TakenRuns};
ghost use Rattle.protocol.specs.Masks.{parents};
ghost use Rattle.replica.specs.State.{member_count, vertices};
ghost use Rattle.commits.specs.Standing.{Standing, WalkReady, RunBegun};

use record::layout::STRONG;
use record::members::{MASKS, has_bit, leader_at, leader_of, power};
use replica::layout::cell_at;

// The union of the strong masks of the round's vertices of the members in the mask.
fn parents_of(state: &[u32], n: u32, round: u32, mask: u32) -> u32
    requires { Standing state.now × (n ≡ member_count state.now) × (1 ≤ round) × (round ≤ rounds) }
    ensures { result ≡ parents (vertices state.now) round mask n }
{
    let mut joined: u32 = 0;
    for p in 0..n {
        if has_bit(mask, p) {
            let at = cell_at(round, p);
            joined |= state[at + STRONG];
        }
    }
    joined
}

// How many of the round's m leaders, from the main one on, the mask has, where it has the main one.
fn run_in(n: u32, m: u32, round: u32, mask: u32) -> u32
    requires { RunBegun n m round mask }
    ensures { result ≡ longest m (λ i. has mask (leader_at n round i)) }
{
    for i in 1..m {
        if !has_bit(mask, leader_at(n, round, i)) {
            return i;
        }
    }
    m
}

// How many leaders of each round committing round q's main leader takes, of m a round, down to round low and with it. Going down,
// `reached` has the members that strong paths reach, in the round above t, from the main leader's vertex that one stands on.
pub fn taken_runs(state: &[u32], n: u32, m: u32, low: u32, q: u32) -> [u32; MASKS]
    requires { WalkReady state.now n m low q }
    ensures { TakenRuns n m (vertices state.now) low q result }
{
    let mut runs = [0u32; MASKS];
    runs[q as usize] = 1;
    let mut reached = power(leader_of(n, q));
    for t in (low..q).rev() {
        let below = parents_of(state, n, t + 1, reached);
        let leader = leader_of(n, t);
        reached = if has_bit(below, leader) {
            runs[t as usize] = run_in(n, m, t, below);
            power(leader)
        } else {
            below
        };
    }
    runs
}
