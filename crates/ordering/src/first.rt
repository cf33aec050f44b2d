// Taking a first message.
ghost use Rattle.std.specs.Prelude.{◌≡◌, true, [], ◌∷◌, length};
ghost use Rattle.record.specs.Refusals.{first_no};
ghost use Rattle.record.specs.Members.{legal};
ghost use Rattle.replica.specs.Layout.{state_size};
ghost use Rattle.replica.specs.Outcome.{told};
ghost use Rattle.ordering.specs.Calls.{hear, take_first_message};
ghost use Rattle.ordering.specs.Inner.{Hearing, hearing_questions};

use super::steps::settle;
use record::group::Group;
use record::layout::{BODY, ROUND, SOURCE, STRONG};
use record::members::{has_bit, leader_of};
use record::questions::check;
use record::refusal::Refusal;
use replica::answer::Added;
use replica::layout::{HEARD, MEMBER_COUNT, VOTES, masks_at};
use replica::masks::{add_member, mask_of};
use replica::status::check_state;

// Questions 4 to 12, of a first message for a state whose own questions are passed.
fn check_first(state: &[u32], group: Group, rec: &[u32]) -> Result<(), Refusal>
    requires { (length state.now ≡ state_size) × (legal group.n ≡ true) }
    ensures { result ≡ first_no (hearing_questions state.now group.n rec.now) }
{
    check(group, rec)?;
    if has_bit(mask_of(state, HEARD, rec[ROUND]), rec[SOURCE]) {
        return Err(Refusal::Duplicate);
    }
    Ok(())
}

// The source is heard, and in votes if the record votes for the previous round's leader.
fn hear_record(state: &mut [u32], n: u32, round: u32, source: u32, strong: u32)
    requires { Hearing state.old n round source strong }
    ensures { state.new ≡ hear state.old round source (strong ∷ []) }
{
    let at = masks_at(round);
    add_member(state, at + HEARD, source);
    if round < 2 {
        return;
    }
    if has_bit(strong, leader_of(n, round - 1)) {
        add_member(state, at + VOTES, source);
    }
}

// Takes a first message. The group is worked out once, for the questions and the commits.
pub fn take_first_message(state: &mut [u32], rec: &[u32]) -> Result<Added, Refusal>
    ensures { told result state.new ≡ take_first_message state.old rec.now }
{
    check_state(state)?;
    let group = Group::of(state[MEMBER_COUNT]);
    check_first(state, group, rec)?;
    hear_record(state, group.n, rec[ROUND], rec[SOURCE], rec[BODY + STRONG]);
    Ok(settle(state, group))
}
