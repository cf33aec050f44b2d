// The masks of a round: six, one of each kind.
ghost use Rattle.std.specs.Prelude.{◌≡◌, ◌<◌, ◌≤◌, length};
ghost use Rattle.replica.specs.Layout.{state_size, kinds};
ghost use Rattle.replica.specs.State.{mask_of, add_member, add_members, marked_id};
ghost use Rattle.record.specs.Members.{rounds};

use super::layout::{is_id, masks_at};
use record::members::{Members, SLOTS, has_bit};

// The mask of that kind of the round.
pub fn mask_of(state: &[u32], kind: usize, round: u32) -> u32
    requires { (length state.now ≡ state_size) × (kind < kinds) × (1 ≤ round) × (round ≤ rounds) }
    ensures { result ≡ mask_of state.now kind round }
{
    let at = masks_at(round);
    state[at + kind]
}

// The vertex with the id x is in its round's mask of that kind.
pub fn is_marked(state: &[u32], kind: usize, x: u32) -> bool
    requires { (length state.now ≡ state_size) × (kind < kinds) }
    ensures { result ≡ marked_id state.now kind x }
{
    if !is_id(x) {
        return false;
    }
    has_bit(mask_of(state, kind, x / SLOTS), x % SLOTS)
}

// Member p is added to the mask in the word.
pub fn add_member(state: &mut [u32], at: usize, p: u32)
    requires { (at < length state.old) × (p < 32) }
    ensures { state.new ≡ add_member state.old at p }
{
    let members = Members { bits: state[at] };
    let more = members.with(p);
    state[at] = more.bits;
}

// The members of a mask are added to the mask in the word.
pub fn add_members(state: &mut [u32], at: usize, mask: u32)
    requires { at < length state.old }
    ensures { state.new ≡ add_members state.old at mask }
{
    state[at] |= mask;
}
