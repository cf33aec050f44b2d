// The calls that `yardbook_c` exports.
ghost use Rattle.std.specs.Prelude.{◌≡◌, ◌≤◌, get_or};
ghost use Rattle.replica.specs.Layout.{leader_count_at, journal_count_at, state_size};
ghost use Rattle.replica.specs.Opening.{open_state};
ghost use Rattle.replica.specs.Status.{status_of};
ghost use Rattle.replica.specs.Lists.{ask_list, ask_leaders, ask_journal, hand_list, hand_leaders, hand_journal};
ghost use Rattle.ordering.specs.Calls.{take_vertex, take_first_message, take_timeout, take_no_vote, take_timeouts};
ghost use Rattle.pending.specs.Early.{take_vertex_with};
ghost use Rattle.proposing.specs.Making.{propose_vertex};
ghost use Rattle.proposing.specs.Signing.{sign_no_vote};
ghost use Rattle.yardbook.specs.Plain.{plain, plain_with, proposed, status_plain, span_of};

use super::answer::{Answer, Part, Proposal, Status};
use ordering::bundle::take_timeouts;
use ordering::first::take_first_message;
use ordering::notes::{take_no_vote, take_timeout};
use ordering::vertex::take_vertex;
use pending::early::take_vertex_with;
use proposing::making::propose;
use proposing::signing::sign_no_vote;
use record::layout::DIGEST_SIZE;
use replica::layout::{JOURNAL, JOURNAL_COUNT, LEADER_COUNT, LEADERS};
use replica::lists::{ask_journal, ask_leaders};
use replica::opening::open;
use replica::status::status;

pub fn yardbook_open(state: &mut [u32], n: u32, own: u32) -> Answer
    ensures { plain result state.new ≡ open_state state.old n own }
{
    Answer::from(open(state, n, own))
}

pub fn yardbook_take_vertex(state: &mut [u32], rec: &[u32]) -> Answer
    ensures { plain result state.new ≡ take_vertex state.old rec.now }
{
    Answer::from(take_vertex(state, rec))
}

pub fn yardbook_take_vertex_with(state: &mut [u32], buffer: &mut [u32], rec: &[u32]) -> Answer
    ensures { plain_with result state.new buffer.new
        ≡ take_vertex_with state.old buffer.old rec.now }
{
    Answer::from(take_vertex_with(state, buffer, rec))
}

pub fn yardbook_take_first_message(state: &mut [u32], rec: &[u32]) -> Answer
    ensures { plain result state.new ≡ take_first_message state.old rec.now }
{
    Answer::from(take_first_message(state, rec))
}

pub fn yardbook_take_timeout(state: &mut [u32], round: u32, signer: u32) -> Answer
    ensures { plain result state.new ≡ take_timeout state.old round signer }
{
    Answer::from(take_timeout(state, round, signer))
}

pub fn yardbook_take_no_vote(state: &mut [u32], round: u32, signer: u32) -> Answer
    ensures { plain result state.new ≡ take_no_vote state.old round signer }
{
    Answer::from(take_no_vote(state, round, signer))
}

pub fn yardbook_take_timeouts(state: &mut [u32], round: u32, mask: u32) -> Answer
    ensures { plain result state.new ≡ take_timeouts state.old round mask }
{
    Answer::from(take_timeouts(state, round, mask))
}

pub fn yardbook_propose(state: &mut [u32], digest: &[u32; DIGEST_SIZE]) -> Proposal
    ensures { proposed result state.new ≡ propose_vertex state.old digest.now }
{
    Proposal::from(propose(state, digest))
}

pub fn yardbook_sign_no_vote(state: &mut [u32]) -> Answer
    ensures { plain result state.new ≡ sign_no_vote state.old }
{
    Answer::from(sign_no_vote(state))
}

pub fn yardbook_status(state: &[u32]) -> Status
    ensures { result ≡ status_plain (status_of state.now) }
{
    Status::from(status(state))
}

pub fn yardbook_ask_leaders(state: &[u32], k: u32) -> Answer
    ensures { plain result state.now ≡ ask_leaders state.now k }
{
    Answer::from(ask_leaders(state, k))
}

pub fn yardbook_ask_journal(state: &[u32], k: u32) -> Answer
    ensures { plain result state.now ≡ ask_journal state.now k }
{
    Answer::from(ask_journal(state, k))
}

// The part of a list from entry k on, where asking for it answers the number. The list begins at the word `first`, and its count is the
// word `count`.
fn hand_part(state: &[u32], k: u32, number: u32, first: u32, count: usize) -> Part
    requires number_value { number ≡ (ask_list state.now k (get_or state.now count 0)).number }
    requires first_le_state_size { (first ≤ state_size) × (leader_count_at ≤ count) × (count ≤ journal_count_at) }
    ensures { span_of result ≡ hand_list state.now k first (get_or state.now count 0) }
{
    if number != 0 {
        return Part {
            number,
            start: 0,
            length: 0,
        };
    }
    Part {
        number: 0,
        start: first + k,
        length: state[count] - k,
    }
}

pub fn yardbook_hand_leaders(state: &[u32], k: u32) -> Part
    ensures { span_of result ≡ hand_leaders state.now k }
{
    let asked = Answer::from(ask_leaders(state, k));
    hand_part(state, k, asked.number, LEADERS as u32, LEADER_COUNT)
}

pub fn yardbook_hand_journal(state: &[u32], k: u32) -> Part
    ensures { span_of result ≡ hand_journal state.now k }
{
    let asked = Answer::from(ask_journal(state, k));
    hand_part(state, k, asked.number, JOURNAL as u32, JOURNAL_COUNT)
}
