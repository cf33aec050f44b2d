// Taking a vertex.
ghost use Rattle.std.specs.Prelude.{◌≡◌, true, ◌<◌, ◌≤◌, length, Ok};
ghost use Rattle.record.specs.Refusals.{first_no};
ghost use Rattle.record.specs.Members.{rounds, slots, legal};
ghost use Rattle.record.specs.Layout.{body_size, round_of, source_of, body_of};
ghost use Rattle.replica.specs.Layout.{state_size};
ghost use Rattle.replica.specs.Outcome.{told};
ghost use Rattle.commits.specs.Commit.{raise_round};
ghost use Rattle.commits.specs.Standing.{GroupOf};
ghost use Rattle.ordering.specs.Calls.{same_body, place_questions, admission_questions, put_vertex, carry_timeouts, take_vertex};
ghost use Rattle.ordering.specs.Inner.{Placing, Unstopped};

use super::search::first_missing;
use super::steps::settle;
use commits::rounds::raise_round;
use record::group::Group;
use record::layout::{BODY, BODY_SIZE, RECORD_SIZE, ROUND, SOURCE, TIMEOUTS as RECORD_TIMEOUTS};
use record::members::has_bit;
use record::questions::check;
use record::refusal::Refusal;
use record::words::copy_words;
use replica::answer::Added;
use replica::layout::{HELD, MEMBER_COUNT, TIMEOUTS, cell_at, masks_at};
use replica::masks::{add_member, add_members, mask_of};
use replica::status::check_state;

// The cell has the words of this body.
fn same_body(state: &[u32], round: u32, member: u32, body: &[u32]) -> bool
    requires { (length state.now ≡ state_size) × (1 ≤ round) × (round ≤ rounds) × (member < slots) × (length body.now ≡ body_size) }
    ensures { result ≡ same_body state.now round member body.now }
{
    let at = cell_at(round, member);
    let end = at + BODY_SIZE;
    &state[at..end] == body
}

// The vertex is written to its cell and marked held.
fn put_vertex(state: &mut [u32], round: u32, member: u32, body: &[u32])
    requires { (length state.old ≡ state_size) × (1 ≤ round) × (round ≤ rounds) × (member < slots) × (length body.now ≡ body_size) }
    ensures { state.new ≡ put_vertex state.old round member body.now }
{
    let mask = masks_at(round) + HELD;
    add_member(state, mask, member);
    let at = cell_at(round, member);
    let end = at + BODY_SIZE;
    copy_words(&mut state[at..end], body);
}

// The timeout mask of a vertex joins the timeouts of the round before; before round 1 there is none.
fn carry_timeouts(state: &mut [u32], round: u32, mask: u32)
    requires { (length state.old ≡ state_size) × (1 ≤ round) × (round ≤ rounds) }
    ensures { state.new ≡ carry_timeouts state.old round mask }
{
    if round < 2 {
        return;
    }
    let at = masks_at(round - 1) + TIMEOUTS;
    add_members(state, at, mask);
}

// The timeout mask of a vertex counts, and then the round rule.
fn advance(state: &mut [u32], group: Group, round: u32, mask: u32)
    requires { GroupOf state.old group.n × (1 ≤ round) × (round ≤ rounds) }
    ensures { state.new ≡ raise_round (carry_timeouts state.old round mask) }
{
    carry_timeouts(state, round, mask);
    raise_round(state, group);
}

// Questions 12 to 14, of a vertex that the record's questions admit.
pub fn check_place(
    state: &[u32],
    n: u32,
    round: u32,
    source: u32,
    body: &[u32],
) -> Result<(), Refusal>
    requires { Placing state.now n round source body.now }
    ensures { result ≡ first_no (place_questions state.now round source body.now) }
{
    if has_bit(mask_of(state, HELD, round), source) {
        if same_body(state, round, source, body) {
            return Err(Refusal::Duplicate);
        }
        return Err(Refusal::Conflict);
    }
    if let Some(id) = first_missing(state, n, round, body) {
        return Err(Refusal::MissingParent(id));
    }
    Ok(())
}

// Questions 4 to 14, of a vertex for a state whose own questions are passed.
pub fn check_vertex(state: &[u32], group: Group, rec: &[u32]) -> Result<(), Refusal>
    requires { (length state.now ≡ state_size) × (legal group.n ≡ true) }
    ensures { result ≡ first_no (admission_questions state.now group.n
        (round_of rec.now) (source_of rec.now) (body_of rec.now)) }
{
    check(group, rec)?;
    check_place(
        state,
        group.n,
        rec[ROUND],
        rec[SOURCE],
        &rec[BODY..RECORD_SIZE],
    )
}

// What follows when no question stops a vertex.
pub fn admit_vertex(state: &mut [u32], group: Group, rec: &[u32]) -> Added
    requires { Unstopped state.old group.n rec.now }
    ensures { told (Ok result) state.new ≡ take_vertex state.old rec.now }
{
    put_vertex(state, rec[ROUND], rec[SOURCE], &rec[BODY..RECORD_SIZE]);
    advance(state, group, rec[ROUND], rec[BODY + RECORD_TIMEOUTS]);
    settle(state, group)
}

// Takes a vertex. The group is worked out once, for the questions, the round rule and the commits.
pub fn take_vertex(state: &mut [u32], rec: &[u32]) -> Result<Added, Refusal>
    ensures { told result state.new ≡ take_vertex state.old rec.now }
{
    check_state(state)?;
    let group = Group::of(state[MEMBER_COUNT]);
    check_vertex(state, group, rec)?;
    Ok(admit_vertex(state, group, rec))
}
