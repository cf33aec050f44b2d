// A call of the library for each operation, with its answer written.
use super::output::{checksum, put, put_last, put_list, put_words};
use ordering::bundle::take_timeouts;
use ordering::first::take_first_message;
use ordering::notes::{take_no_vote, take_timeout};
use ordering::vertex::take_vertex;
use pending::early::take_vertex_with;
use proposing::making::propose;
use proposing::signing::sign_no_vote;
use record::layout::{DIGEST_SIZE, RECORD_SIZE};
use record::refusal::{Refusal, number_of};
use replica::answer::{Added, NOTHING, Status};
use replica::lists::{ask_journal, ask_leaders, hand_journal, hand_leaders};
use replica::opening::open;
use replica::status::status;
use std::io;
use std::io::Write;

const NO_STATUS: Status = Status {
    current_round: 0,
    committed_round: 0,
    leader_count: 0,
    journal_count: 0,
};

// The number, the id, and the two counts.
fn put_answer<W: Write>(out: &mut W, answer: Result<Added, Refusal>) -> io::Result<()> {
    let id = match answer {
        Ok(_) => 0,
        Err(why) => why.missing_id().unwrap_or(0),
    };
    let added = answer.unwrap_or(NOTHING);
    put(out, number_of(answer))?;
    put(out, id)?;
    put(out, added.leaders)?;
    put(out, added.journal)
}

// The answer's four numbers, and the words of the record: zeros where making is refused.
fn put_proposal<W: Write>(
    out: &mut W,
    proposal: Result<[u32; RECORD_SIZE], Refusal>,
) -> io::Result<()> {
    put_answer(out, proposal.map(|_| NOTHING))?;
    put_words(out, &proposal.unwrap_or([0; RECORD_SIZE]))
}

// The answer's four numbers, and the checksum of the pending buffer.
fn put_answer_with<W: Write>(
    out: &mut W,
    answer: Result<Added, Refusal>,
    buffer: &[u32],
) -> io::Result<()> {
    put_answer(out, answer)?;
    put(out, checksum(buffer))
}

// The number alone: asking has no id, and adds nothing.
fn put_number<W: Write>(out: &mut W, answer: Result<Added, Refusal>) -> io::Result<()> {
    put(out, number_of(answer))
}

// The number, and the four words: zeros where status is refused.
fn put_status<W: Write>(out: &mut W, status: Result<Status, Refusal>) -> io::Result<()> {
    put(out, number_of(status))?;
    let head = status.unwrap_or(NO_STATUS);
    put(out, head.current_round)?;
    put(out, head.committed_round)?;
    put(out, head.leader_count)?;
    put(out, head.journal_count)
}

// The calls that change no word.
fn read<W: Write>(out: &mut W, state: &[u32], op: u32, a: u32) -> io::Result<()> {
    match op {
        4 => put_status(out, status(state)),
        5 => put_number(out, ask_leaders(state, a)),
        6 => put_number(out, ask_journal(state, a)),
        7 => put_list(out, hand_leaders(state, a)),
        8 => put_list(out, hand_journal(state, a)),
        _ => Ok(()),
    }
}

// The calls that may change words, and the others.
fn change<W: Write>(
    out: &mut W,
    state: &mut [u32],
    buffer: &mut [u32],
    rec: &[u32],
    digest: &[u32; DIGEST_SIZE],
    op: u32,
    a: u32,
    b: u32,
) -> io::Result<()> {
    match op {
        3 => put_answer(out, open(state, a, b)),
        9 => put_answer(out, take_vertex(state, rec)),
        10 => put_answer(out, take_first_message(state, rec)),
        11 => put_answer(out, take_timeout(state, a, b)),
        12 => put_answer(out, take_no_vote(state, a, b)),
        15 => put_proposal(out, propose(state, digest)),
        16 => put_answer(out, sign_no_vote(state)),
        17 => put_answer(out, take_timeouts(state, a, b)),
        18 => {
            let answer = take_vertex_with(state, buffer, rec);
            put_answer_with(out, answer, buffer)
        }
        _ => read(out, state, op, a),
    }
}

// One line of output.
pub fn call<W: Write>(
    out: &mut W,
    state: &mut [u32],
    buffer: &mut [u32],
    rec: &[u32],
    digest: &[u32; DIGEST_SIZE],
    op: u32,
    a: u32,
    b: u32,
) -> io::Result<()> {
    put(out, op)?;
    change(out, state, buffer, rec, digest, op, a, b)?;
    put_last(out, checksum(state))
}
