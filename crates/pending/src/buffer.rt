// When a pending buffer is well formed.
ghost use Rattle.std.specs.Prelude.{◌≡◌, true};
ghost use Rattle.record.specs.Members.{legal};
ghost use Rattle.pending.specs.Buffer.{record_id, records_in, records_ok, buffer_ok};
ghost use Rattle.pending.specs.Inner.{Bounded, Sized};

use super::layout::{BUFFER_SIZE, BUFFER_SLOTS, COUNT, slot_at};
use record::group::Group;
use record::layout::{RECORD_SIZE, ROUND, SOURCE};
use record::members::SLOTS;
use record::questions::check;
use record::words::is_zero;

// The id of a record.
pub fn id_of(rec: &[u32]) -> u32
    requires { Bounded rec.now }
    ensures { result ≡ record_id rec.now }
{
    SLOTS * rec[ROUND] + rec[SOURCE]
}

// Every record passes questions 5 to 11, and has a higher id than the one before.
fn records_ok(buffer: &[u32], group: Group) -> bool
    requires { Sized buffer.now × (legal group.n ≡ true) }
    ensures { result ≡ records_ok group.n 0 (records_in buffer.now) }
{
    let count = buffer[COUNT];
    let mut last: u32 = 0;
    for j in 0..count {
        let at = slot_at(j);
        let end = at + RECORD_SIZE;
        if check(group, &buffer[at..end]).is_err() {
            return false;
        }
        let id = id_of(&buffer[at..end]);
        if id <= last {
            return false;
        }
        last = id;
    }
    true
}

// The buffer is well formed for the group.
pub fn is_buffer(buffer: &[u32], group: Group) -> bool
    requires { legal group.n ≡ true }
    ensures { result ≡ buffer_ok group.n buffer.now }
{
    if buffer.len() != BUFFER_SIZE {
        return false;
    }
    let count = buffer[COUNT];
    if count > BUFFER_SLOTS {
        return false;
    }
    if !records_ok(buffer, group) {
        return false;
    }
    let rest = slot_at(count);
    is_zero(&buffer[rest..BUFFER_SIZE])
}
