// Question 14: whether all parents of an admitted record are held.
ghost use Rattle.std.specs.Prelude.{◌≡◌, ◌-◌, ◌≤◌, length};
ghost use Rattle.record.specs.Below.{all};
ghost use Rattle.record.specs.Members.{rounds};
ghost use Rattle.record.specs.Layout.{weak_count_of, weak_of};
ghost use Rattle.replica.specs.Layout.{state_size};
ghost use Rattle.replica.specs.State.{held_mask, held_id};
ghost use Rattle.replica.specs.Parents.{parents_held};
ghost use Rattle.replica.specs.WellFormed.{subset};
ghost use Rattle.replica.specs.Inner.{AdmittedIn, WeakIn};

use super::layout::HELD;
use super::masks::mask_of;
use record::layout::{STRONG, WEAK, WEAK_COUNT, WEAK_SLOTS};
use record::members::{SLOTS, has_bit};

// The strong parents, in the round before, are held.
fn strong_held(state: &[u32], round: u32, strong: u32) -> bool
    requires { (length state.now ≡ state_size) × (2 ≤ round) × (round ≤ rounds) }
    ensures { result ≡ subset strong (held_mask state.now (round - 1)) }
{
    strong & mask_of(state, HELD, round - 1) == strong
}

// The weak ids that are used are held. The number of slots bounds the loop, so that a compiler can write out its turns.
fn weak_held(state: &[u32], body: &[u32]) -> bool
    requires { WeakIn state.now body.now }
    ensures { result ≡ all (weak_count_of body.now) (λ i. held_id state.now (weak_of body.now i)) }
{
    let count = body[WEAK_COUNT] as usize;
    for i in 0..WEAK_SLOTS {
        if count <= i {
            return true;
        }
        let x = body[WEAK + i];
        if !has_bit(mask_of(state, HELD, x / SLOTS), x % SLOTS) {
            return false;
        }
    }
    true
}

// A record of round 1 has no parents.
pub fn parents_held(state: &[u32], round: u32, body: &[u32]) -> bool
    requires { AdmittedIn state.now round body.now }
    ensures { result ≡ parents_held state.now round body.now }
{
    if round < 2 {
        return true;
    }
    if !strong_held(state, round, body[STRONG]) {
        return false;
    }
    weak_held(state, body)
}
