// Making our own vertex.
ghost use Rattle.std.specs.Prelude.{◌≡◌, true, cond, ◌&&◌, [], ◌-◌, ◌<◌, ◌≤◌, eqb, length, drop, Some, None};
ghost use Rattle.record.specs.Members.{rounds};
ghost use Rattle.record.specs.Refusals.{first_no, or_zero};
ghost use Rattle.record.specs.Layout.{record_words};
ghost use Rattle.replica.specs.Layout.{state_size, kinds};
ghost use Rattle.replica.specs.State.{current_round, mask_of};
ghost use Rattle.proposing.specs.Making.{made_strong, made_record, making_questions, told_proposal, propose_vertex};
ghost use Rattle.proposing.specs.Inner.{Opened, Current, draft_of, enough_in};

use super::own::{check_member, mark_round, marks_round};
use super::weak::offer_rounds;
use commits::history::reach_of;
use record::group::{Group, Terms};
use record::layout::{
    BODY, DIGEST, DIGEST_SIZE, NO_VOTES as RECORD_NO_VOTES, RECORD_SIZE, ROUND, SOURCE, STRONG,
    TIMEOUTS as RECORD_TIMEOUTS,
};
use record::members::{Members, ROUNDS, faulty_of, leader_of};
use record::questions::lacks_leader;
use record::refusal::Refusal;
use record::words::copy_words;
use replica::layout::{CURRENT_ROUND, HELD, MADE, MEMBER_COUNT, NO_VOTES, OWN, SIGNED, TIMEOUTS};
use replica::masks::mask_of;

// The masks of the record: timeouts where question 9 wants them, and no-votes where question 10 does.
#[derive(Clone, Copy)]
struct Draft {
    strong: u32,
    timeouts: Option<u32>,
    no_votes: Option<u32>,
}

// All held of the round before, less its leader if we signed a no-vote for that round.
fn strong_of(state: &[u32], n: u32, round: u32) -> u32
    requires { Current state.now n round }
    ensures { result ≡ made_strong state.now }
{
    if round == 1 {
        return 0;
    }
    let held = Members {
        bits: mask_of(state, HELD, round - 1),
    };
    if !marks_round(state[SIGNED], round - 1) {
        return held.bits;
    }
    let rest = held.without(leader_of(n, round - 1));
    rest.bits
}

// The mask of that kind of the round before, where it is wanted.
fn copied(state: &[u32], kind: usize, round: u32, wanted: bool) -> Option<u32>
    requires { (length state.now ≡ state_size) × (kind < kinds) × (wanted ≡ true → 2 ≤ round) × (round ≤ rounds) }
    ensures { result ≡ cond wanted (Some (mask_of state.now kind (round - 1))) None }
{
    if !wanted {
        return None;
    }
    Some(mask_of(state, kind, round - 1))
}

// No-votes are wanted where timeouts are and the own member leads the round.
fn leads(wants_timeouts: bool, own: u32, leader: u32) -> bool
    requires { 1 ≤ own }
    ensures { result ≡ (wants_timeouts && eqb (own - 1) leader) }
{
    if !wants_timeouts {
        return false;
    }
    own - 1 == leader
}

fn draft_of(state: &[u32], group: Group, round: u32) -> Draft
    requires { Current state.now group.n round }
    ensures { result ≡ draft_of state.now }
{
    let terms = Terms::of(group, round);
    let strong = strong_of(state, group.n, round);
    let wants_timeouts = lacks_leader(&terms, strong);
    let wants_no_votes = leads(wants_timeouts, state[OWN], terms.leader);
    Draft {
        strong,
        timeouts: copied(state, TIMEOUTS, round, wants_timeouts),
        no_votes: copied(state, NO_VOTES, round, wants_no_votes),
    }
}

// A mask that is wanted is a quorum.
fn is_enough(quorum: u32, mask: Option<u32>) -> bool
    ensures { result ≡ enough_in quorum mask }
{
    match mask {
        Some(bits) => Members { bits }.meets_quorum(quorum),
        None => true,
    }
}

// Questions 9, 10, 12 and 18.
fn check_draft(state: &[u32], group: Group, round: u32, draft: Draft) -> Result<(), Refusal>
    requires { Current state.now group.n round × (draft ≡ draft_of state.now) }
    ensures { result ≡ first_no (drop 1 (making_questions state.now)) }
{
    if !is_enough(group.quorum, draft.timeouts) {
        return Err(Refusal::Timeouts);
    }
    if !is_enough(group.quorum, draft.no_votes) {
        return Err(Refusal::NoVotes);
    }
    if marks_round(state[MADE], round) {
        return Err(Refusal::Duplicate);
    }
    if round == 1 {
        return Ok(());
    }
    let parents = Members { bits: draft.strong };
    if !parents.meets_quorum(group.quorum) {
        return Err(Refusal::FewParents);
    }
    Ok(())
}

// A record without weak ids.
fn plain_record(
    round: u32,
    source: u32,
    draft: Draft,
    digest: &[u32; DIGEST_SIZE],
) -> [u32; RECORD_SIZE]
    ensures { result ≡ record_words round source draft.strong (or_zero draft.timeouts) (or_zero draft.no_votes) digest.now [] }
{
    let mut words = [0u32; RECORD_SIZE];
    words[ROUND] = round;
    words[SOURCE] = source;
    words[BODY + STRONG] = draft.strong;
    words[BODY + RECORD_TIMEOUTS] = draft.timeouts.unwrap_or(0);
    words[BODY + RECORD_NO_VOTES] = draft.no_votes.unwrap_or(0);
    let start = BODY + DIGEST;
    let end = start + DIGEST_SIZE;
    copy_words(&mut words[start..end], digest);
    words
}

// Questions 5, 9, 10, 12 and 18, of a member's state: 1, 3 and 16 are passed.
fn check_propose(state: &[u32], group: Group) -> Result<(), Refusal>
    requires { Opened state.now group.n (current_round state.now) }
    ensures { result ≡ first_no (making_questions state.now) }
{
    let round = state[CURRENT_ROUND];
    if ROUNDS < round {
        return Err(Refusal::Round);
    }
    check_draft(state, group, round, draft_of(state, group, round))
}

// The record. Below round 3 there is nothing two rounds down.
fn record_of(
    state: &[u32],
    group: Group,
    round: u32,
    digest: &[u32; DIGEST_SIZE],
) -> [u32; RECORD_SIZE]
    requires { Current state.now group.n round }
    ensures { result ≡ made_record state.now digest.now }
{
    let draft = draft_of(state, group, round);
    let mut words = plain_record(round, state[OWN] - 1, draft, digest);
    if round < 3 {
        return words;
    }
    let reached = reach_of(state, group.n, round - 1, draft.strong);
    offer_rounds(state, &mut words, faulty_of(group.n), reached, round);
    words
}

// Makes our own vertex of the current round, with the digest: the words of its record. The group is worked out once.
pub fn propose(
    state: &mut [u32],
    digest: &[u32; DIGEST_SIZE],
) -> Result<[u32; RECORD_SIZE], Refusal>
    ensures { told_proposal result state.new ≡ propose_vertex state.old digest.now }
{
    check_member(state)?;
    let group = Group::of(state[MEMBER_COUNT]);
    check_propose(state, group)?;
    let round = state[CURRENT_ROUND];
    let words = record_of(state, group, round, digest);
    mark_round(state, MADE, round);
    Ok(words)
}
