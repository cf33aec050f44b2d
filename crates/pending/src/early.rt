// Taking a vertex with a pending buffer.
ghost use Rattle.std.specs.Prelude.{◌≡◌, true, length, Ok, Err};
ghost use Rattle.record.specs.Members.{legal};
ghost use Rattle.record.specs.Refusals.{first_no};
ghost use Rattle.replica.specs.Layout.{state_size};
ghost use Rattle.ordering.specs.Inner.{Unstopped};
ghost use Rattle.pending.specs.Buffer.{buffer_ok};
ghost use Rattle.pending.specs.Early.{later_questions, told_with, release_after, admitted_with, take_vertex_with};
ghost use Rattle.pending.specs.Inner.{Keepable, refused_in, keep_early};

use super::buffer::{id_of, is_buffer};
use super::layout::{BUFFER_SLOTS, COUNT};
use super::moves::{check_waiting, put_in, rank_of};
use super::sweep::release;
use ordering::vertex::{admit_vertex, check_vertex};
use record::group::Group;
use record::refusal::Refusal;
use replica::answer::Added;
use replica::layout::{JOURNAL_COUNT, LEADER_COUNT, MEMBER_COUNT};
use replica::status::check_state;

// Question 19, and 4 to 14, for a state whose own questions are passed.
fn check_early(state: &[u32], buffer: &[u32], group: Group, rec: &[u32]) -> Result<(), Refusal>
    requires { (length state.now ≡ state_size) × (legal group.n ≡ true) }
    ensures { result ≡ first_no (later_questions state.now buffer.now group.n rec.now) }
{
    if !is_buffer(buffer, group) {
        return Err(Refusal::Buffer);
    }
    check_vertex(state, group, rec)
}

// A record whose parent is missing is put in the buffer, unless 12, 13 or 20 is answered in place of 14. Other refusals stay.
fn keep_early(buffer: &mut [u32], rec: &[u32], why: Refusal) -> Refusal
    requires { Keepable buffer.old rec.now why }
    ensures { refused_in (Err result) buffer.new ≡ keep_early buffer.old rec.now (Err why) }
{
    if !why.is_missing() {
        return why;
    }
    let j = rank_of(buffer, id_of(rec));
    if let Err(other) = check_waiting(buffer, j, rec) {
        return other;
    }
    if buffer[COUNT] == BUFFER_SLOTS {
        return Refusal::BufferFull;
    }
    put_in(buffer, j, rec);
    why
}

// The admission, the passes, and what they add.
fn admit_with(state: &mut [u32], buffer: &mut [u32], group: Group, rec: &[u32]) -> Added
    requires { Unstopped state.old group.n rec.now × (buffer_ok group.n buffer.old ≡ true) }
    ensures { told_with (Ok result) state.new buffer.new
        ≡ admitted_with state.old (release_after state.old buffer.old rec.now) }
{
    let leaders = state[LEADER_COUNT];
    let journal = state[JOURNAL_COUNT];
    admit_vertex(state, group, rec);
    release(state, buffer, group);
    Added {
        leaders: state[LEADER_COUNT] - leaders,
        journal: state[JOURNAL_COUNT] - journal,
    }
}

// Takes a vertex with a pending buffer: one that comes before its parents waits there, and an admitted one releases those that waited
// for it.
pub fn take_vertex_with(
    state: &mut [u32],
    buffer: &mut [u32],
    rec: &[u32],
) -> Result<Added, Refusal>
    ensures { told_with result state.new buffer.new
        ≡ take_vertex_with state.old buffer.old rec.now }
{
    check_state(state)?;
    let group = Group::of(state[MEMBER_COUNT]);
    if let Err(why) = check_early(state, buffer, group, rec) {
        return Err(keep_early(buffer, rec, why));
    }
    Ok(admit_with(state, buffer, group, rec))
}
