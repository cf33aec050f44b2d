// The words of a pending buffer. Every size and place of them is written here.
ghost use Rattle.std.specs.Prelude.{◌≡◌, ◌≤◌};
ghost use Rattle.pending.specs.Layout.{buffer_slots, slot_at};

use record::layout::RECORD_SIZE;

// The most records that it holds.
pub const BUFFER_SLOTS: u32 = 32;

// The count, and then a slot for each record.
pub const COUNT: usize = 0;

pub const SLOTS_AT: usize = 1;

pub const BUFFER_SIZE: usize = SLOTS_AT + RECORD_SIZE * (BUFFER_SLOTS as usize);

// The first word of slot j, and the word after the last slot.
pub fn slot_at(j: u32) -> usize
    requires { j ≤ buffer_slots }
    ensures { result ≡ slot_at j }
{
    SLOTS_AT + RECORD_SIZE * j as usize
}
