//! Answers calls: reads them from standard input, and writes each answer with every buffer that was lent for writing.
//! What a call and its answer look like stands in tests/README.md. A failed read or write is said on standard error,
//! and by the exit status 2; the end of the input, or what is no call, ends the program well.
#![tactic(auto)]

ghost use Rattle.std.specs.Prelude.{◌≡◌};
ghost use Rattle.std.specs.Process.{exit_status};
ghost use Rattle.streams.specs.Input.{read_failure};
ghost use Rattle.streams.specs.Output.{write_failure};
ghost use Rattle.streams.specs.Ends.{status_of};
ghost use Rattle.answers.specs.Answered.{Turn, AnswersAll};

#[cfg(test)]
mod tests;

use calls::Room;
use std::io;
use std::io::{BufReader, Read, Write};
use std::process::ExitCode;
use streams::{Input, Output, tell};

fn main(rt: HostRuntime) -> io::Result<ExitCode> {
    let mut input = Input::new(BufReader::new(rt.alloc(), rt.stdin())?);
    Ok(answer_input(&rt, &mut input, &mut Output::new(rt.stdout())))
}

// Answers an input, says what failed, and answers the exit status.
fn answer_input<R: Read, W: Write>(
    rt: &impl Eprint,
    input: &mut Input<R>,
    output: &mut Output<W>,
) -> ExitCode
    ensures answers { AnswersAll R.remaining W.contents input.old input.new output.old output.new }
    ensures status { exit_status result ≡ status_of (read_failure input.new) (write_failure output.new) }
{
    answer_all(&mut Room::new(), input, output);
    tell(rt, "answers", input, output)
}

// Answers call after call, until the input ends or is no call, or a read or a write fails.
fn answer_all<R: Read, W: Write>(room: &mut Room, input: &mut Input<R>, output: &mut Output<W>)
    ensures { AnswersAll R.remaining W.contents input.old input.new output.old output.new }
{
    // The replies to the calls so far are handed on. No `forever`: that needs the handle to wait, and none is taken. No
    // run uses up the turns.
    for _ in 0..u64::MAX {
        if !answer_call(room, input, output) {
            return;
        }
    }
}

// Answers one call, and hands its reply on before the next is read. Says whether to go on.
fn answer_call<R: Read, W: Write>(
    room: &mut Room,
    input: &mut Input<R>,
    output: &mut Output<W>,
) -> bool
    ensures { Turn R.remaining W.contents input.old input.new output.old output.new result }
{
    let answered = room.answer(input, output).is_some();
    output.flush();
    answered && output.failure().is_none()
}
