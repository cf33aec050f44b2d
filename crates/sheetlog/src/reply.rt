// One line: the call that it stands for, and the line that is printed.
ghost use Rattle.std.specs.Prelude.{◌≡◌, ◌+◌, ◌≤◌, length};
ghost use Rattle.replica.specs.Outcome.{told};
ghost use Rattle.replica.specs.Status.{status_of};
ghost use Rattle.transcript.specs.Commands.{command_of};
ghost use Rattle.transcript.specs.Text.{Appended};
ghost use Rattle.transcript.specs.Claims.{longest_answer};
ghost use Rattle.sheetlog.specs.Reply.{status_words, call_for, outcome_of, outcome_text, reply_text};

use ordering::first::take_first_message;
use ordering::notes::{take_no_vote, take_timeout};
use ordering::vertex::take_vertex;
use record::refusal::{Refusal, number_of};
use replica::answer::Added;
use replica::layout::WATCHER;
use replica::opening::open;
use replica::status::status;
use transcript::command::{Command, parse};
use transcript::text::{STATUS_SIZE, put_answer, put_other};

// The four numbers of the status, 0 where it is refused.
fn status_words(state: &[u32]) -> [u32; STATUS_SIZE]
    ensures { result ≡ status_words (status_of state.now) }
{
    match status(state) {
        Ok(head) => [
            head.current_round,
            head.committed_round,
            head.leader_count,
            head.journal_count,
        ],
        Err(_) => [0; STATUS_SIZE],
    }
}

// Puts the line of a call that left this state: the answer's number, and the four numbers of the status.
fn put_outcome(answer: Result<Added, Refusal>, state: &[u32], out: &mut [u8], at: usize) -> usize
    requires { at + longest_answer ≤ length out.old }
    ensures { Appended out.old at (outcome_text (told answer state.now)) out.new result }
{
    put_answer(out, at, number_of(answer), &status_words(state))
}

// Makes the call. A state is opened for a watcher.
fn call(state: &mut [u32], command: Command) -> Result<Added, Refusal>
    ensures { told result state.new ≡ call_for command state.old }
{
    match command {
        Command::Open(members) => open(state, members, WATCHER),
        Command::Vertex(rec) => take_vertex(state, &rec),
        Command::First(rec) => take_first_message(state, &rec),
        Command::Timeout(round, signer) => take_timeout(state, round, signer),
        Command::NoVote(round, signer) => take_no_vote(state, round, signer),
    }
}

// Answers a line without its line feed. One of another form makes no call.
pub fn reply(state: &mut [u32], line: &[u8], out: &mut [u8], at: usize) -> usize
    requires { at + longest_answer ≤ length out.old }
    ensures appended { Appended out.old at (reply_text (command_of line.now) state.old) out.new result }
    ensures state_after { state.new ≡ (outcome_of (command_of line.now) state.old).words }
{
    let Some(command) = parse(line) else {
        return put_other(out, at);
    };
    put_outcome(call(state, command), state, out, at)
}
