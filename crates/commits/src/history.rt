// Histories as 32 masks, one for each round, filled by falling round.
ghost use Rattle.std.specs.Prelude.{◌≡◌, ◌/◌, ◌%◌, ◌^◌, ◌<◌, ◌≤◌};
ghost use Rattle.protocol.specs.Masks.{join, join_weak_parents, join_parents, join_round_parents, reach_masks, history_masks};
ghost use Rattle.record.specs.Members.{rounds, slots, id_limit, id_round, id_member};
ghost use Rattle.replica.specs.State.{member_count, vertices};
ghost use Rattle.commits.specs.Standing.{Standing};

use record::layout::{STRONG, WEAK, WEAK_COUNT};
use record::members::{MASKS, Members, SLOTS, has_bit, power};
use replica::layout::cell_at;

// Adds the vertex with the id x.
fn join_id(masks: &mut [u32; MASKS], x: u32)
    requires { (slots ≤ x) × (x < id_limit) }
    ensures { masks.new ≡ join masks.old (id_round x) (2 ^ id_member x) }
{
    let at = (x / SLOTS - 1) as usize;
    let members = Members { bits: masks[at] };
    let more = members.with(x % SLOTS);
    masks[at] = more.bits;
}

// Adds the weak parents of the vertex in the cell.
fn join_weak(state: &[u32], masks: &mut [u32; MASKS], round: u32, member: u32)
    requires { Standing state.now × (1 ≤ round) × (round ≤ rounds) × (member < slots) }
    ensures { masks.new ≡ join_weak_parents (vertices state.now) masks.old round member }
{
    let at = cell_at(round, member);
    let count = state[at + WEAK_COUNT] as usize;
    for i in 0..count {
        join_id(masks, state[at + (WEAK + i)]);
    }
}

// Adds all parents of the vertex, which is of round 2 or later.
fn join_parents(state: &[u32], masks: &mut [u32; MASKS], round: u32, member: u32)
    requires { Standing state.now × (2 ≤ round) × (round ≤ rounds) × (member < slots) }
    ensures { masks.new ≡ join_parents (vertices state.now) masks.old round member }
{
    let at = cell_at(round, member);
    let below = (round - 2) as usize;
    masks[below] |= state[at + STRONG];
    join_weak(state, masks, round, member);
}

// Adds the parents of the round's vertices that the masks have.
fn join_round(state: &[u32], n: u32, masks: &mut [u32; MASKS], round: u32)
    requires { Standing state.now × (n ≡ member_count state.now) × (2 ≤ round) × (round ≤ rounds) }
    ensures { masks.new ≡ join_round_parents (vertices state.now) masks.old round n }
{
    let mask = masks[(round - 1) as usize];
    for p in 0..n {
        if has_bit(mask, p) {
            join_parents(state, masks, round, p);
        }
    }
}

// The histories of the round's vertices of the members in the mask, together.
pub fn reach_of(state: &[u32], n: u32, round: u32, mask: u32) -> [u32; MASKS]
    requires { Standing state.now × (n ≡ member_count state.now) × (1 ≤ round) × (round ≤ rounds) }
    ensures { result ≡ reach_masks n (vertices state.now) round mask }
{
    let mut masks = [0u32; MASKS];
    masks[(round - 1) as usize] = mask;
    for r in (2..=round).rev() {
        join_round(state, n, &mut masks, r);
    }
    masks
}

// The history of the vertex.
pub fn history_of(state: &[u32], n: u32, round: u32, member: u32) -> [u32; MASKS]
    requires { Standing state.now × (n ≡ member_count state.now) × (1 ≤ round) × (round ≤ rounds) × (member < slots) }
    ensures { result ≡ history_masks n (vertices state.now) round member }
{
    reach_of(state, n, round, power(member))
}
