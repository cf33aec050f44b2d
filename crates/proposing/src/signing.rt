// Signing our own no-vote.
ghost use Rattle.std.specs.Prelude.{◌≡◌};
ghost use Rattle.replica.specs.Outcome.{told};
ghost use Rattle.proposing.specs.Signing.{may_sign, sign_refusal, sign_no_vote};
ghost use Rattle.proposing.specs.Inner.{Opened};

use super::own::{check_member, mark_round, marks_round};
use record::members::{Members, leader_of};
use record::refusal::Refusal;
use replica::answer::{Added, NOTHING};
use replica::layout::{CURRENT_ROUND, HELD, MADE, MEMBER_COUNT, NO_VOTES, OWN, SIGNED, masks_at};
use replica::masks::{add_member, mask_of};

// Question 17: there is a round before, its leader's vertex is not held, and no record for the current round was made.
fn may_sign(state: &[u32], n: u32, round: u32) -> bool
    requires { Opened state.now n round }
    ensures { result ≡ may_sign state.now }
{
    if round < 2 {
        return false;
    }
    let held = Members {
        bits: mask_of(state, HELD, round - 1),
    };
    if held.has(leader_of(n, round - 1)) {
        return false;
    }
    !marks_round(state[MADE], round)
}

// All questions of signing.
fn check_sign(state: &[u32]) -> Result<(), Refusal>
    ensures { result ≡ sign_refusal state.now }
{
    check_member(state)?;
    let round = state[CURRENT_ROUND];
    if !may_sign(state, state[MEMBER_COUNT], round) {
        return Err(Refusal::Signing);
    }
    if marks_round(state[SIGNED], round - 1) {
        return Err(Refusal::Duplicate);
    }
    Ok(())
}

// Signs our no-vote for the round before the current one.
pub fn sign_no_vote(state: &mut [u32]) -> Result<Added, Refusal>
    ensures { told result state.new ≡ sign_no_vote state.old }
{
    check_sign(state)?;
    let round = state[CURRENT_ROUND] - 1;
    let own = state[OWN] - 1;
    mark_round(state, SIGNED, round);
    let at = masks_at(round) + NO_VOTES;
    add_member(state, at, own);
    Ok(NOTHING)
}
