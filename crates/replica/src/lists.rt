// Asking for and handing over a list: the leader list, or the journal.
ghost use Rattle.std.specs.Prelude.{◌≡◌, ◌≤◌, get_or};
ghost use Rattle.replica.specs.Inner.{ListAt};
ghost use Rattle.replica.specs.Layout.{leader_count_at, journal_count_at};
ghost use Rattle.replica.specs.Outcome.{told};
ghost use Rattle.replica.specs.Place.{part_of, cut};
ghost use Rattle.replica.specs.Lists.{ask_list, ask_leaders, ask_journal, hand_list, hand_leaders, hand_journal};

use super::answer::{Added, NOTHING};
use super::layout::{JOURNAL, JOURNAL_COUNT, LEADER_COUNT, LEADERS};
use super::status::check_state;
use record::refusal::Refusal;

// Asks for a list from entry k on. Its count is the word `count`.
fn ask_list(state: &[u32], k: u32, count: usize) -> Result<Added, Refusal>
    requires { (leader_count_at ≤ count) × (count ≤ journal_count_at) }
    ensures { told result state.now ≡ ask_list state.now k (get_or state.now count 0) }
{
    check_state(state)?;
    if state[count] < k {
        return Err(Refusal::PastEnd);
    }
    Ok(NOTHING)
}

// Hands over a list from entry k on, as a part of the state. The list begins at the word `first`, and its count is the word `count`.
fn hand_list(state: &[u32], k: u32, first: usize, count: usize) -> &[u32]
    requires { ListAt first count }
    ensures { part_of result ≡ cut state.entry (hand_list state.now k first (get_or state.now count 0)) }
{
    if ask_list(state, k, count).is_err() {
        return &state[..0];
    }
    let start = first + k as usize;
    let end = first + state[count] as usize;
    &state[start..end]
}

// Asks for the leader list from entry k on.
pub fn ask_leaders(state: &[u32], k: u32) -> Result<Added, Refusal>
    ensures { told result state.now ≡ ask_leaders state.now k }
{
    ask_list(state, k, LEADER_COUNT)
}

// Asks for the journal from entry k on.
pub fn ask_journal(state: &[u32], k: u32) -> Result<Added, Refusal>
    ensures { told result state.now ≡ ask_journal state.now k }
{
    ask_list(state, k, JOURNAL_COUNT)
}

// Hands over the leader list from entry k on, as a part of the state.
pub fn hand_leaders(state: &[u32], k: u32) -> &[u32]
    ensures { part_of result ≡ cut state.entry (hand_leaders state.now k) }
{
    hand_list(state, k, LEADERS, LEADER_COUNT)
}

// Hands over the journal from entry k on, as a part of the state.
pub fn hand_journal(state: &[u32], k: u32) -> &[u32]
    ensures { part_of result ≡ cut state.entry (hand_journal state.now k) }
{
    hand_list(state, k, JOURNAL, JOURNAL_COUNT)
}
