// The exports for C: each calls the function of its name in `yardbook`, and promises what that does.
#![tactic(auto)]

ghost use Rattle.std.specs.Prelude.{◌≡◌};
ghost use Rattle.replica.specs.Opening.{open_state};
ghost use Rattle.replica.specs.Status.{status_of};
ghost use Rattle.replica.specs.Lists.{ask_leaders, ask_journal, hand_leaders, hand_journal};
ghost use Rattle.ordering.specs.Calls.{take_vertex, take_first_message, take_timeout, take_no_vote, take_timeouts};
ghost use Rattle.pending.specs.Early.{take_vertex_with};
ghost use Rattle.proposing.specs.Making.{propose_vertex};
ghost use Rattle.proposing.specs.Signing.{sign_no_vote};
ghost use Rattle.yardbook.specs.Plain.{plain, plain_with, proposed, status_plain, span_of};

use record::layout::DIGEST_SIZE;
use yardbook::answer::{Answer, Part, Proposal, Status};
use yardbook::calls;

#[unsafe(no_mangle)]
pub extern "C" fn yardbook_open(state: &mut [u32], n: u32, own: u32) -> Answer
    ensures { plain result state.new ≡ open_state state.old n own }
{
    calls::yardbook_open(state, n, own)
}

#[unsafe(no_mangle)]
pub extern "C" fn yardbook_take_vertex(state: &mut [u32], rec: &[u32]) -> Answer
    ensures { plain result state.new ≡ take_vertex state.old rec.now }
{
    calls::yardbook_take_vertex(state, rec)
}

#[unsafe(no_mangle)]
pub extern "C" fn yardbook_take_vertex_with(
    state: &mut [u32],
    buffer: &mut [u32],
    rec: &[u32],
) -> Answer
    ensures { plain_with result state.new buffer.new
        ≡ take_vertex_with state.old buffer.old rec.now }
{
    calls::yardbook_take_vertex_with(state, buffer, rec)
}

#[unsafe(no_mangle)]
pub extern "C" fn yardbook_take_first_message(state: &mut [u32], rec: &[u32]) -> Answer
    ensures { plain result state.new ≡ take_first_message state.old rec.now }
{
    calls::yardbook_take_first_message(state, rec)
}

#[unsafe(no_mangle)]
pub extern "C" fn yardbook_take_timeout(state: &mut [u32], round: u32, signer: u32) -> Answer
    ensures { plain result state.new ≡ take_timeout state.old round signer }
{
    calls::yardbook_take_timeout(state, round, signer)
}

#[unsafe(no_mangle)]
pub extern "C" fn yardbook_take_no_vote(state: &mut [u32], round: u32, signer: u32) -> Answer
    ensures { plain result state.new ≡ take_no_vote state.old round signer }
{
    calls::yardbook_take_no_vote(state, round, signer)
}

#[unsafe(no_mangle)]
pub extern "C" fn yardbook_take_timeouts(state: &mut [u32], round: u32, mask: u32) -> Answer
    ensures { plain result state.new ≡ take_timeouts state.old round mask }
{
    calls::yardbook_take_timeouts(state, round, mask)
}

#[unsafe(no_mangle)]
pub extern "C" fn yardbook_propose(state: &mut [u32], digest: &[u32; DIGEST_SIZE]) -> Proposal
    ensures { proposed result state.new ≡ propose_vertex state.old digest.now }
{
    calls::yardbook_propose(state, digest)
}

#[unsafe(no_mangle)]
pub extern "C" fn yardbook_sign_no_vote(state: &mut [u32]) -> Answer
    ensures { plain result state.new ≡ sign_no_vote state.old }
{
    calls::yardbook_sign_no_vote(state)
}

#[unsafe(no_mangle)]
pub extern "C" fn yardbook_status(state: &[u32]) -> Status
    ensures { result ≡ status_plain (status_of state.now) }
{
    calls::yardbook_status(state)
}

#[unsafe(no_mangle)]
pub extern "C" fn yardbook_ask_leaders(state: &[u32], k: u32) -> Answer
    ensures { plain result state.now ≡ ask_leaders state.now k }
{
    calls::yardbook_ask_leaders(state, k)
}

#[unsafe(no_mangle)]
pub extern "C" fn yardbook_ask_journal(state: &[u32], k: u32) -> Answer
    ensures { plain result state.now ≡ ask_journal state.now k }
{
    calls::yardbook_ask_journal(state, k)
}

#[unsafe(no_mangle)]
pub extern "C" fn yardbook_hand_leaders(state: &[u32], k: u32) -> Part
    ensures { span_of result ≡ hand_leaders state.now k }
{
    calls::yardbook_hand_leaders(state, k)
}

#[unsafe(no_mangle)]
pub extern "C" fn yardbook_hand_journal(state: &[u32], k: u32) -> Part
    ensures { span_of result ≡ hand_journal state.now k }
{
    calls::yardbook_hand_journal(state, k)
}
