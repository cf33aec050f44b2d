// The test of question 3: a function for each clause of well-formedness.
ghost use Rattle.std.specs.Prelude.{◌≡◌, true, ◌+◌, ◌-◌, ◌*◌, ◌<◌, ◌≤◌, eqb, length, get_or, take, drop};
ghost use Rattle.record.specs.Below.{all};
ghost use Rattle.record.specs.Members.{rounds, slots, legal, id_round};
ghost use Rattle.record.specs.Layout.{body_size};
ghost use Rattle.replica.specs.Layout.{cell_at, state_size, kinds, leaders_size, journal_size, round_size};
ghost use Rattle.replica.specs.State.{member_count, committed_round, leader_count, journal_count, ordered_mask, leader_index};
ghost use Rattle.replica.specs.WellFormed.{own_ok, each_round, masks_within, kind_within, record_ok, cell_ok};
ghost use Rattle.replica.specs.WellFormed.{comes_next, leader_ok, last_leader_round, leaders_ok, journal_ok};
ghost use Rattle.replica.specs.WellFormed.{rest_zero, every, clauses, well_formed};
ghost use Rattle.replica.specs.Inner.{Grouped, GroupedRound, KnownIn};

use super::layout::{
    COMMITTED_ROUND, CURRENT_ROUND, HEARD, HELD, JOURNAL, JOURNAL_COUNT, JOURNAL_END, JOURNAL_SIZE,
    LEADER_COUNT, LEADERS, LEADERS_END, LEADERS_SIZE, MADE, MEMBER_COUNT, NO_VOTES, ORDERED, OWN,
    ROUND_SIZE, SIGNED, TIMEOUTS, VOTES, WATCHER, cell_at, is_id, masks_at,
};
use super::masks::{is_marked, mask_of};
use super::parents::parents_held;
use super::places::{index_of, width_of};
use record::group::{Group, Terms};
use record::layout::BODY_SIZE;
use record::members::{MASKS, Members, ROUNDS, SLOTS, VOTED_ROUNDS, has_bit, is_legal, is_within};
use record::questions::is_admitted;
use record::words::is_zero;

// The current round when the last one is passed.
const AFTER_LAST: u32 = ROUNDS + 1;

// Words 5 to 7. A watcher has made no record and signed no no-vote.
fn own_ok(state: &[u32]) -> bool
    requires { length state.now ≡ state_size }
    ensures { result ≡ own_ok state.now }
{
    if state[MEMBER_COUNT] < state[OWN] {
        return false;
    }
    if state[OWN] != WATCHER {
        return true;
    }
    state[MADE] | state[SIGNED] == 0
}

// Words 0 to 2 and 5 to 7: the member count, the current round, the committed round and the own words.
fn head_ok(state: &[u32]) -> bool
    requires { length state.now ≡ state_size }
    ensures { result ≡ every (take 4 (clauses state.now)) }
{
    if !is_legal(state[MEMBER_COUNT]) {
        return false;
    }
    if state[CURRENT_ROUND] < 1 {
        return false;
    }
    if AFTER_LAST < state[CURRENT_ROUND] {
        return false;
    }
    if VOTED_ROUNDS < state[COMMITTED_ROUND] {
        return false;
    }
    own_ok(state)
}

// No mask of the round has a bit at n or above.
fn round_within(state: &[u32], round: u32) -> bool
    requires { (length state.now ≡ state_size) × (1 ≤ round) × (round ≤ rounds) }
    ensures { result ≡ masks_within state.now round }
{
    let at = masks_at(round);
    let joined = state[at + HELD]
        | state[at + HEARD]
        | state[at + VOTES]
        | state[at + TIMEOUTS]
        | state[at + NO_VOTES]
        | state[at + ORDERED];
    is_within(state[MEMBER_COUNT], joined)
}

fn masks_within(state: &[u32]) -> bool
    requires { length state.now ≡ state_size }
    ensures { result ≡ each_round (masks_within state.now) }
{
    (0..ROUNDS).all(|i| round_within(state, i + 1))
}

// Each round's mask of the one kind lies within that of the other.
fn kind_within(state: &[u32], kind: usize, other: usize) -> bool
    requires { (length state.now ≡ state_size) × (kind < kinds) × (other < kinds) }
    ensures { result ≡ kind_within state.now kind other }
{
    (0..ROUNDS).all(|i| {
        let mask = mask_of(state, kind, i + 1);
        mask & mask_of(state, other, i + 1) == mask
    })
}

// The record passes questions 5 to 11 and 14.
fn record_ok(state: &[u32], terms: &Terms, source: u32, body: &[u32]) -> bool
    requires { KnownIn state.now terms.now.group.n terms.now.round source body.now }
    ensures { result ≡ record_ok state.now terms.now.round source body.now }
{
    if !is_admitted(terms, source, body) {
        return false;
    }
    parents_held(state, terms.round, body)
}

// A held record passes questions 5 to 11 and 14, and a cell not held is zero. The cell stands at the given word.
fn cell_ok(state: &[u32], terms: &Terms, member: u32, at: usize) -> bool
    requires { GroupedRound state.now terms.now.group.n terms.now.round × (member < slots) × (at ≡ cell_at terms.now.round member) }
    ensures { result ≡ cell_ok state.now terms.now.round member }
{
    let end = at + BODY_SIZE;
    if !has_bit(mask_of(state, HELD, terms.round), member) {
        return is_zero(&state[at..end]);
    }
    record_ok(state, terms, member, &state[at..end])
}

// The cells of the members pass.
fn members_ok(state: &[u32], group: Group, round: u32) -> bool
    requires { GroupedRound state.now group.n round }
    ensures { result ≡ all group.n (cell_ok state.now round) }
{
    let terms = Terms::of(group, round);
    // `all` over the members, with `cell_at` for each, was tried: the test of a state with 31 full rounds took 28% longer.
    let mut at = cell_at(round, 0);
    for p in 0..group.n {
        if !cell_ok(state, &terms, p, at) {
            return false;
        }
        at += BODY_SIZE;
    }
    true
}

// The cells of a round from member n on are zero. Their number is written out for each n, so that the test of so many words needs no loop.
fn rest_cells_zero(state: &[u32], n: u32, start: usize) -> bool
    requires { (legal n ≡ true) × (length state.now ≡ state_size) × (start + round_size ≤ state_size) }
    ensures { result ≡ all (body_size * (slots - n)) (λ i. eqb (get_or state.now (start + body_size * n + i) 0) 0) }
{
    let end = start + ROUND_SIZE;
    if n == 4 {
        let rest = start + BODY_SIZE * 4;
        return is_zero(&state[rest..end]);
    }
    if n == 7 {
        let rest = start + BODY_SIZE * 7;
        return is_zero(&state[rest..end]);
    }
    if n == 10 {
        let rest = start + BODY_SIZE * 10;
        return is_zero(&state[rest..end]);
    }
    if n == 13 {
        let rest = start + BODY_SIZE * 13;
        return is_zero(&state[rest..end]);
    }
    true
}

// Cells that nobody holds are tested together: all of a round that holds none, and those from n on.
fn round_cells_ok(state: &[u32], group: Group, round: u32) -> bool
    requires { GroupedRound state.now group.n round }
    ensures { result ≡ all slots (cell_ok state.now round) }
{
    let start = cell_at(round, 0);
    let end = start + ROUND_SIZE;
    if mask_of(state, HELD, round) == 0 {
        return is_zero(&state[start..end]);
    }
    if !members_ok(state, group, round) {
        return false;
    }
    rest_cells_zero(state, group.n, start)
}

// The group is worked out here, ahead of the loops over rounds and members, and handed on to the questions of every record.
fn cells_ok(state: &[u32]) -> bool
    requires { Grouped state.now }
    ensures { result ≡ each_round (λ r. all slots (cell_ok state.now r)) }
{
    let group = Group::of(state[MEMBER_COUNT]);
    (0..ROUNDS).all(|i| round_cells_ok(state, group, i + 1))
}

// Leader `index` of x's round comes next behind the entry before x.
fn comes_next(state: &[u32], n: u32, before: u32, x: u32, index: u32) -> bool
    requires { (length state.now ≡ state_size) × (n ≡ member_count state.now) × (0 < n) }
    ensures { result ≡ comes_next (id_round before) (leader_index state.now before + 1) (id_round x) index }
{
    if index == 0 {
        return before / SLOTS < x / SLOTS;
    }
    if x / SLOTS != before / SLOTS {
        return false;
    }
    index == index_of(state, n, before) + 1
}

// Entry i of the leader list is the held vertex of a leader of its round, and comes next behind the entry before.
fn leader_ok(state: &[u32], n: u32, i: usize) -> bool
    requires { (length state.now ≡ state_size) × (n ≡ member_count state.now) × (0 < n) × (i < leaders_size) }
    ensures { result ≡ leader_ok state.now i }
{
    let x = state[LEADERS + i];
    if !is_marked(state, HELD, x) {
        return false;
    }
    let index = index_of(state, n, x);
    if width_of(state) <= index {
        return false;
    }
    if i == 0 {
        return index == 0;
    }
    comes_next(state, n, state[LEADERS + (i - 1)], x, index)
}

// The round of the last of so many leaders is the committed round.
fn last_ok(state: &[u32], count: usize) -> bool
    requires { (length state.now ≡ state_size) × (count ≡ leader_count state.now) × (count ≤ leaders_size) }
    ensures { result ≡ eqb (last_leader_round state.now) (committed_round state.now) }
{
    if count == 0 {
        return 0 == state[COMMITTED_ROUND];
    }
    state[LEADERS + (count - 1)] / SLOTS == state[COMMITTED_ROUND]
}

fn leaders_ok(state: &[u32]) -> bool
    requires { (length state.now ≡ state_size) × (legal (member_count state.now) ≡ true) }
    ensures { result ≡ leaders_ok state.now }
{
    let n = state[MEMBER_COUNT];
    let count = state[LEADER_COUNT] as usize;
    if LEADERS_SIZE < count {
        return false;
    }
    if !(0..count).all(|i| leader_ok(state, n, i)) {
        return false;
    }
    last_ok(state, count)
}

// Every round's marks are its ordered mask.
fn all_marked(state: &[u32], marks: [u32; MASKS]) -> bool
    requires { length state.now ≡ state_size }
    ensures { result ≡ all rounds (λ i. eqb (get_or marks i 0) (ordered_mask state.now (i + 1))) }
{
    (0..ROUNDS).all(|i| marks[i as usize] == mask_of(state, ORDERED, i + 1))
}

// Each entry is an id and, in the marks of its round, new; it is marked there. In the end the marks are the ordered masks.
fn journal_ok(state: &[u32]) -> bool
    requires { Grouped state.now }
    ensures { result ≡ journal_ok state.now }
{
    let count = state[JOURNAL_COUNT] as usize;
    if JOURNAL_SIZE < count {
        return false;
    }
    let mut marks = [0u32; MASKS];
    for &x in &state[JOURNAL..JOURNAL + count] {
        if !is_id(x) {
            return false;
        }
        let at = (x / SLOTS - 1) as usize;
        let marked = Members { bits: marks[at] };
        if marked.has(x % SLOTS) {
            return false;
        }
        let more = marked.with(x % SLOTS);
        marks[at] = more.bits;
    }
    all_marked(state, marks)
}

// List words beyond the counts are 0.
fn rest_zero(state: &[u32]) -> bool
    requires { (length state.now ≡ state_size) × (leader_count state.now ≤ leaders_size) × (journal_count state.now ≤ journal_size) }
    ensures { result ≡ rest_zero state.now }
{
    let leaders = LEADERS + state[LEADER_COUNT] as usize;
    let journal = JOURNAL + state[JOURNAL_COUNT] as usize;
    if !is_zero(&state[leaders..LEADERS_END]) {
        return false;
    }
    is_zero(&state[journal..JOURNAL_END])
}

// The masks and the cells.
fn body_ok(state: &[u32]) -> bool
    requires { (length state.now ≡ state_size) × (legal (member_count state.now) ≡ true) }
    ensures { result ≡ every (take 4 (drop 4 (clauses state.now))) }
{
    if !masks_within(state) {
        return false;
    }
    if !kind_within(state, VOTES, HEARD) {
        return false;
    }
    if mask_of(state, VOTES, 1) != 0 {
        return false;
    }
    if !cells_ok(state) {
        return false;
    }
    kind_within(state, ORDERED, HELD)
}

pub fn is_well_formed(state: &[u32]) -> bool
    requires { length state.now ≡ state_size }
    ensures { result ≡ well_formed state.now }
{
    if !head_ok(state) {
        return false;
    }
    if !body_ok(state) {
        return false;
    }
    if !leaders_ok(state) {
        return false;
    }
    if !journal_ok(state) {
        return false;
    }
    rest_zero(state)
}
