// What a vertex and a first message share: the commits that follow an admitted record.
ghost use Rattle.std.specs.Prelude.{◌≡◌, true, length, Ok};
ghost use Rattle.replica.specs.Layout.{state_size};
ghost use Rattle.replica.specs.State.{member_count};
ghost use Rattle.replica.specs.WellFormed.{well_formed};
ghost use Rattle.replica.specs.Outcome.{told, admitted};
ghost use Rattle.commits.specs.Commit.{commit_all};

use commits::commit::commit_all;
use record::group::Group;
use replica::answer::Added;
use replica::layout::{JOURNAL_COUNT, LEADER_COUNT};

// The commits that follow an admitted record, and what they add.
pub fn settle(state: &mut [u32], group: Group) -> Added
    requires { (length state.old ≡ state_size) × (well_formed state.old ≡ true) × (group.n ≡ member_count state.old) }
    ensures { told (Ok result) state.new ≡ admitted state.old (commit_all state.old) }
{
    let leaders = state[LEADER_COUNT];
    let journal = state[JOURNAL_COUNT];
    commit_all(state, group);
    Added {
        leaders: state[LEADER_COUNT] - leaders,
        journal: state[JOURNAL_COUNT] - journal,
    }
}
