// What making and signing share: the rounds that are marked in a word, and the questions that both ask first.
ghost use Rattle.std.specs.Prelude.{◌≡◌, ◌<◌, ◌≤◌, length};
ghost use Rattle.record.specs.Members.{rounds};
ghost use Rattle.record.specs.Refusals.{first_no};
ghost use Rattle.proposing.specs.Own.{marks_round, mark_round, member_questions};

use record::members::{has_bit, is_round, power};
use record::refusal::Refusal;
use replica::layout::{OWN, WATCHER};
use replica::status::check_state;

// The round is marked in the word.
pub fn marks_round(word: u32, round: u32) -> bool
    ensures { result ≡ marks_round word round }
{
    if !is_round(round) {
        return false;
    }
    has_bit(word, round - 1)
}

// Marks the round in the word.
pub fn mark_round(state: &mut [u32], at: usize, round: u32)
    requires { (at < length state.old) × (1 ≤ round) × (round ≤ rounds) }
    ensures { state.new ≡ mark_round state.old at round }
{
    state[at] |= power(round - 1);
}

// Questions 1, 3 and 16.
pub fn check_member(state: &[u32]) -> Result<(), Refusal>
    ensures { result ≡ first_no (member_questions state.now) }
{
    check_state(state)?;
    if state[OWN] == WATCHER {
        return Err(Refusal::Watcher);
    }
    Ok(())
}
