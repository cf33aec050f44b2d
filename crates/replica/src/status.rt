// The questions of the state, which every call but opening asks first, and status.
ghost use Rattle.std.specs.Prelude.{◌≡◌};
ghost use Rattle.record.specs.Refusals.{first_no};
ghost use Rattle.replica.specs.Status.{state_questions, status_of};

use super::answer::Status;
use super::layout::{COMMITTED_ROUND, CURRENT_ROUND, JOURNAL_COUNT, LEADER_COUNT, STATE_SIZE};
use super::wellformed::is_well_formed;
use record::refusal::Refusal;

// Questions 1 and 3.
pub fn check_state(state: &[u32]) -> Result<(), Refusal>
    ensures { result ≡ first_no (state_questions state.now) }
{
    if state.len() != STATE_SIZE {
        return Err(Refusal::StateSize);
    }
    if !is_well_formed(state) {
        return Err(Refusal::Malformed);
    }
    Ok(())
}

// Words 1 to 4.
pub fn status(state: &[u32]) -> Result<Status, Refusal>
    ensures { result ≡ status_of state.now }
{
    check_state(state)?;
    Ok(Status {
        current_round: state[CURRENT_ROUND],
        committed_round: state[COMMITTED_ROUND],
        leader_count: state[LEADER_COUNT],
        journal_count: state[JOURNAL_COUNT],
    })
}
