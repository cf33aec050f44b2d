// Taking a bundle of timeouts: those of one round by the members of a mask.
ghost use Rattle.std.specs.Prelude.{◌≡◌};
ghost use Rattle.replica.specs.Outcome.{told};
ghost use Rattle.ordering.specs.Calls.{bundle_refusal, take_timeouts};

use commits::rounds::raise_round;
use record::group::Group;
use record::members::{is_round, is_within};
use record::refusal::Refusal;
use replica::answer::{Added, NOTHING};
use replica::layout::{MEMBER_COUNT, TIMEOUTS, masks_at};
use replica::masks::{add_members, mask_of};
use replica::status::check_state;

// All questions of a bundle.
fn check_bundle(state: &[u32], round: u32, mask: u32) -> Result<(), Refusal>
    ensures { result ≡ bundle_refusal state.now round mask }
{
    check_state(state)?;
    if !is_round(round) {
        return Err(Refusal::Round);
    }
    let n = state[MEMBER_COUNT];
    if !is_within(n, mask) {
        return Err(Refusal::MaskBits);
    }
    let noted = mask_of(state, TIMEOUTS, round);
    if noted | mask == noted {
        return Err(Refusal::Duplicate);
    }
    Ok(())
}

// Takes a bundle: one word is written, and then the round rule.
pub fn take_timeouts(state: &mut [u32], round: u32, mask: u32) -> Result<Added, Refusal>
    ensures { told result state.new ≡ take_timeouts state.old round mask }
{
    check_bundle(state, round, mask)?;
    let at = masks_at(round) + TIMEOUTS;
    add_members(state, at, mask);
    let group = Group::of(state[MEMBER_COUNT]);
    raise_round(state, group);
    Ok(NOTHING)
}
