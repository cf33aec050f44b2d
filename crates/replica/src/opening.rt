// Opening.
ghost use Rattle.std.specs.Prelude.{◌≡◌, length, replicate};
ghost use Rattle.replica.specs.Outcome.{told};
ghost use Rattle.replica.specs.Opening.{open_state};

use super::answer::{Added, NOTHING};
use super::layout::{CURRENT_ROUND, MEMBER_COUNT, OWN, STATE_SIZE};
use record::members::is_legal;
use record::refusal::Refusal;

// Writes 0 to every word.
pub fn clear(words: &mut [u32])
    ensures { words.new ≡ replicate (length words.old) 0 }
{
    words.fill(0);
}

// Opens the state for a group of n members. The own word is the own member plus 1, or `WATCHER`.
pub fn open(state: &mut [u32], n: u32, own: u32) -> Result<Added, Refusal>
    ensures { told result state.new ≡ open_state state.old n own }
{
    if state.len() != STATE_SIZE {
        return Err(Refusal::StateSize);
    }
    if !is_legal(n) {
        return Err(Refusal::MemberCount);
    }
    if n < own {
        return Err(Refusal::Source);
    }
    clear(state);
    state[MEMBER_COUNT] = n;
    state[CURRENT_ROUND] = 1;
    state[OWN] = own;
    Ok(NOTHING)
}
