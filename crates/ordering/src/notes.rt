// Taking a timeout and a no-vote.
ghost use Rattle.std.specs.Prelude.{◌≡◌, ◌<◌};
ghost use Rattle.replica.specs.Outcome.{told};
ghost use Rattle.ordering.specs.Calls.{note_refusal, take_note, take_timeout, take_no_vote};
ghost use Rattle.replica.specs.Layout.{kinds};

use commits::rounds::raise_round;
use record::group::Group;
use record::members::has_bit;
use record::questions::check_signer;
use record::refusal::Refusal;
use replica::answer::{Added, NOTHING};
use replica::layout::{MEMBER_COUNT, NO_VOTES, TIMEOUTS, masks_at};
use replica::masks::{add_member, mask_of};
use replica::status::check_state;

// All questions of a timeout or a no-vote, whose mask is the one of that kind of its round.
fn check_note(state: &[u32], round: u32, signer: u32, kind: usize) -> Result<(), Refusal>
    requires { kind < kinds }
    ensures { result ≡ note_refusal state.now round signer kind }
{
    check_state(state)?;
    let n = state[MEMBER_COUNT];
    check_signer(n, round, signer)?;
    if has_bit(mask_of(state, kind, round), signer) {
        return Err(Refusal::Duplicate);
    }
    Ok(())
}

// Takes a timeout or a no-vote: the signer joins the mask of that kind.
fn take_note(state: &mut [u32], round: u32, signer: u32, kind: usize) -> Result<Added, Refusal>
    requires { kind < kinds }
    ensures { told result state.new ≡ take_note state.old round signer kind }
{
    check_note(state, round, signer, kind)?;
    let at = masks_at(round) + kind;
    add_member(state, at, signer);
    Ok(NOTHING)
}

// Takes a timeout.
pub fn take_timeout(state: &mut [u32], round: u32, signer: u32) -> Result<Added, Refusal>
    ensures { told result state.new ≡ take_timeout state.old round signer }
{
    let added = take_note(state, round, signer, TIMEOUTS)?;
    let group = Group::of(state[MEMBER_COUNT]);
    raise_round(state, group);
    Ok(added)
}

// Takes a no-vote.
pub fn take_no_vote(state: &mut [u32], round: u32, signer: u32) -> Result<Added, Refusal>
    ensures { told result state.new ≡ take_no_vote state.old round signer }
{
    take_note(state, round, signer, NO_VOTES)
}
