// The passes over the waiting records after an admission.
ghost use Rattle.std.specs.Prelude.{◌≡◌, true, ◌<◌};
ghost use Rattle.replica.specs.Outcome.{told};
ghost use Rattle.ordering.specs.Calls.{take_vertex};
ghost use Rattle.pending.specs.Buffer.{buffer_ok};
ghost use Rattle.pending.specs.Inner.{Standing, Trying, Sweeping, swept, sweep_one, both, release_in};

use super::layout::{COUNT, slot_at};
use super::moves::copy_slot;
use ordering::vertex::{admit_vertex, check_place};
use record::group::Group;
use record::layout::{BODY, RECORD_SIZE, ROUND, SOURCE};
use record::refusal::Refusal;
use replica::answer::Added;
use replica::opening::clear;

// A waiting record tried as a vertex call: its own questions are passed already.
fn retry(state: &mut [u32], group: Group, rec: &[u32]) -> Result<Added, Refusal>
    requires { Trying state.old group.n rec.now }
    ensures { told result state.new ≡ take_vertex state.old rec.now }
{
    check_place(
        state,
        group.n,
        rec[ROUND],
        rec[SOURCE],
        &rec[BODY..RECORD_SIZE],
    )?;
    Ok(admit_vertex(state, group, rec))
}

// The record of slot j is tried, and kept in slot `kept` where its parent is missing. Answers how many are kept.
fn sweep_one(state: &mut [u32], buffer: &mut [u32], group: Group, j: u32, kept: u32) -> u32
    requires { Sweeping state.old buffer.old group.n j kept }
    ensures { swept result state.new buffer.new ≡ sweep_one state.old buffer.old j kept }
{
    let at = slot_at(j);
    let end = at + RECORD_SIZE;
    let answer = retry(state, group, &buffer[at..end]);
    if answer.is_err_and(|why| why.is_missing()) {
        copy_slot(buffer, j, kept);
        return kept + 1;
    }
    kept
}

// One pass is all passes: a record's parents have lower ids than it, so what comes after it in the buffer releases none before it.
pub fn release(state: &mut [u32], buffer: &mut [u32], group: Group)
    requires { Standing state.old group.n × (buffer_ok group.n buffer.old ≡ true) }
    ensures { both state.new buffer.new ≡ release_in state.old buffer.old }
{
    let count = buffer[COUNT];
    let mut kept: u32 = 0;
    for j in 0..count {
        kept = sweep_one(state, buffer, group, j, kept);
    }
    let free = slot_at(kept);
    let end = slot_at(count);
    clear(&mut buffer[free..end]);
    buffer[COUNT] = kept;
}
