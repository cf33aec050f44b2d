// The commits: which rounds are committable, and what committing one writes.
ghost use Rattle.std.specs.Prelude.{◌≡◌, ◌-◌, ◌<◌, ◌≤◌, length};
ghost use Rattle.record.specs.Below.{if_below};
ghost use Rattle.record.specs.Members.{leader_at, most_leaders, rounds, slots, voted_rounds, id_limit};
ghost use Rattle.protocol.specs.Dag.{backed};
ghost use Rattle.protocol.specs.Chain.{leader_id, seats};
ghost use Rattle.protocol.specs.Masks.{voters};
ghost use Rattle.replica.specs.Layout.{state_size, journal_size};
ghost use Rattle.replica.specs.State.{member_count, committed_round, journal_count, vertices, dag};
ghost use Rattle.commits.specs.Commit.{append_leader, append_leaders, enter, order_leader};
ghost use Rattle.commits.specs.Commit.{commit, lowest, grows, is_ready, commit_all};
ghost use Rattle.commits.specs.Taken.{taken_of, lowest_taken, gather};
ghost use Rattle.commits.specs.Standing.{Standing, first_votes, Room, LeaderOf, LeaderRoom, LeaderReady, RunsReady};
ghost use Rattle.commits.specs.Standing.{order_from, LeadersReady, Going, AtPlace, Next, Further, commit_step, order_id, order_round};

use super::history::history_of;
use super::walk::taken_runs;
use record::group::Group;
use record::layout::STRONG;
use record::members::{MASKS, Members, ROUNDS, SLOTS, has_bit, leader_at};
use replica::layout::{
    COMMITTED_ROUND, HELD, JOURNAL, JOURNAL_COUNT, LEADER_COUNT, LEADERS, ORDERED, VOTES, cell_at,
    masks_at,
};
use replica::masks::{add_member, mask_of};
use replica::places::{last_place, width_of};

// The members whose first messages of round q + 1 vote for leader i of round q.
fn first_voters(state: &[u32], q: u32, i: u32) -> u32
    requires { (length state.now ≡ state_size) × (1 ≤ q) × (q ≤ voted_rounds) }
    ensures { result ≡ first_votes state.now q i }
{
    if i == 0 {
        return mask_of(state, VOTES, q + 1);
    }
    0
}

// The voters for leader i of round q, who is `voted`: the members whose first messages of round q + 1 name it, and those whose vertices do.
fn voters_for(state: &[u32], n: u32, q: u32, i: u32, voted: u32) -> Members
    requires { LeaderOf state.now n q i × (voted ≡ leader_at n q i) }
    ensures { result.bits ≡ voters n (dag state.now) q i n }
{
    let mut voters = Members {
        bits: first_voters(state, q, i),
    };
    for p in 0..n {
        let at = cell_at(q + 1, p);
        if has_bit(state[at + STRONG], voted) {
            voters = voters.with(p);
        }
    }
    voters
}

// Leader i of round q is backed: its vertex is held, and it has a quorum of voters.
fn is_backed(state: &[u32], group: Group, q: u32, i: u32) -> bool
    requires { LeaderOf state.now group.n q i }
    ensures { result ≡ backed group.n (dag state.now) q i }
{
    let leader = leader_at(group.n, q, i);
    if !has_bit(mask_of(state, HELD, q), leader) {
        return false;
    }
    let voters = voters_for(state, group.n, q, i, leader);
    voters.meets_quorum(group.quorum)
}

// The lowest committable round.
fn lowest_committable(state: &[u32], group: Group) -> Option<u32>
    requires { Standing state.now × (group.n ≡ member_count state.now) × (committed_round state.now ≤ voted_rounds) }
    ensures { result ≡ if_below rounds (lowest state.now) }
{
    for q in state[COMMITTED_ROUND] + 1..ROUNDS {
        if is_backed(state, group, q, 0) {
            return Some(q);
        }
    }
    None
}

// Leader i of the round joins the leader list.
fn append_leader(state: &mut [u32], n: u32, round: u32, i: u32)
    requires { LeaderRoom state.old 1 × (0 < n) × (1 ≤ round) × (round ≤ voted_rounds) × (i < most_leaders) }
    ensures { state.new ≡ append_leader state.old (leader_id n round i) }
{
    let count = state[LEADER_COUNT];
    let id = SLOTS * round + leader_at(n, round, i);
    state[LEADERS + count as usize] = id;
    state[LEADER_COUNT] = count + 1;
}

// Leaders a, .. b - 1 of the round join the leader list.
fn append_run(state: &mut [u32], n: u32, round: u32, a: u32, b: u32)
    requires { LeaderRoom state.old (b - a) × (0 < n) × (1 ≤ round) × (round ≤ voted_rounds) × (b ≤ most_leaders) }
    ensures { state.new ≡ append_leaders state.old (seats n round a b) }
{
    for i in a..b {
        append_leader(state, n, round, i);
    }
}

// How many leaders of the round are already taken, where `place` of the committed round are.
fn taken_of(round: u32, committed: u32, place: u32) -> u32
    ensures { result ≡ taken_of round committed place }
{
    if round == committed {
        return place;
    }
    0
}

// The lowest round that a commit can take a leader of.
fn lowest_taken(committed: u32, place: u32, width: u32) -> u32
    requires { committed ≤ voted_rounds }
    ensures { result ≡ lowest_taken committed place width }
{
    if committed == 0 {
        return 1;
    }
    if width <= place {
        return committed + 1;
    }
    committed
}

// The leaders taken of the rounds from low to q join the leader list, run by run; the first `taken` of round low are in it already.
fn append_runs(state: &mut [u32], n: u32, low: u32, taken: u32, q: u32, runs: [u32; MASKS])
    requires { RunsReady state.old n low taken q runs }
    ensures { state.new ≡ append_leaders state.old (gather n low taken runs rounds) }
{
    for r in low..=q {
        append_run(state, n, r, taken_of(r, low, taken), runs[r as usize]);
    }
}

// The vertex with the id is ordered, and joins the journal.
fn enter_id(state: &mut [u32], id: u32)
    requires { (length state.old ≡ state_size) × (slots ≤ id) × (id < id_limit) × (journal_count state.old < journal_size) }
    ensures { state.new ≡ enter state.old id }
{
    let count = state[JOURNAL_COUNT];
    let at = masks_at(id / SLOTS) + ORDERED;
    add_member(state, at, id % SLOTS);
    state[JOURNAL + count as usize] = id;
    state[JOURNAL_COUNT] = count + 1;
}

// The vertex with the id joins the journal if the mask, of its round, has its member and it is not yet ordered.
fn order_id(state: &mut [u32], mask: u32, id: u32)
    requires { (length state.old ≡ state_size) × (slots ≤ id) × (id < id_limit) × Room state.old }
    ensures { state.new ≡ order_id state.old mask id }
{
    if !has_bit(mask, id % SLOTS) {
        return;
    }
    if has_bit(mask_of(state, ORDERED, id / SLOTS), id % SLOTS) {
        return;
    }
    enter_id(state, id);
}

// The vertices of the round in the mask that are not yet ordered join the journal, by rising member.
fn order_round(state: &mut [u32], mask: u32, round: u32)
    requires { (length state.old ≡ state_size) × (1 ≤ round) × (round ≤ rounds) × Room state.old }
    ensures { state.new ≡ order_round state.old mask round slots }
{
    if mask & mask_of(state, ORDERED, round) == mask {
        return;
    }
    for p in 0..SLOTS {
        order_id(state, mask, SLOTS * round + p);
    }
}

// The history of the leader's vertex that is not yet ordered joins the journal, by rising id. It has nothing above its round.
fn order_leader(state: &mut [u32], n: u32, id: u32)
    requires { LeaderReady state.old n id }
    ensures { state.new ≡ order_leader (vertices state.old) state.old id }
{
    let round = id / SLOTS;
    let masks = history_of(state, n, round, id % SLOTS);
    for r in 0..round {
        order_round(state, masks[r as usize], r + 1);
    }
}

// So for the leaders in the list from an entry on.
fn order_leaders(state: &mut [u32], n: u32, first: usize)
    requires { LeadersReady state.old n first }
    ensures { state.new ≡ order_from state.old first }
{
    let count = state[LEADER_COUNT] as usize;
    for i in first..count {
        let id = state[LEADERS + i];
        order_leader(state, n, id);
    }
}

// Commits round q's main leader, where `place` leaders of the committed round are in the list.
fn commit_round(state: &mut [u32], n: u32, committed: u32, place: u32, q: u32)
    requires { Next state.old n committed place q }
    ensures { state.new ≡ commit state.old q 0 }
{
    let first = state[LEADER_COUNT] as usize;
    let width = width_of(state);
    let low = lowest_taken(committed, place, width);
    let runs = taken_runs(state, n, width, low, q);
    append_runs(state, n, low, taken_of(low, committed, place), q, runs);
    state[COMMITTED_ROUND] = q;
    order_leaders(state, n, first);
}

// The committed round grows: behind its leaders in the list, `place` of them, the next one is backed.
fn does_grow(state: &[u32], group: Group, committed: u32, place: u32) -> bool
    requires { AtPlace state.now group.n committed place }
    ensures { result ≡ grows state.now }
{
    if committed == 0 {
        return false;
    }
    if width_of(state) <= place {
        return false;
    }
    is_backed(state, group, committed, place)
}

// Commits the next leader of the committed round, leader i of round q: it alone joins the leader list, and the committed round stays.
fn commit_next(state: &mut [u32], n: u32, q: u32, i: u32)
    requires { Further state.old n q i }
    ensures { state.new ≡ commit state.old q i }
{
    let first = state[LEADER_COUNT] as usize;
    append_leader(state, n, q, i);
    order_leaders(state, n, first);
}

// Commits the first committable leader, if there is one: the committed round grows before a later one is committed.
fn commit_once(state: &mut [u32], group: Group) -> bool
    requires { Going state.old × (group.n ≡ member_count state.old) }
    ensures { (result ≡ is_ready state.old) × (state.new ≡ commit_step state.old) }
{
    let committed = state[COMMITTED_ROUND];
    let place = last_place(state, group.n);
    if does_grow(state, group, committed, place) {
        commit_next(state, group.n, committed, place);
        return true;
    }
    if let Some(q) = lowest_committable(state, group) {
        commit_round(state, group.n, committed, place, q);
        return true;
    }
    false
}

// And again until there is none.
pub fn commit_all(state: &mut [u32], group: Group)
    requires { Going state.old × (group.n ≡ member_count state.old) }
    ensures { state.new ≡ commit_all state.old }
{
    while commit_once(state, group) {}
}
