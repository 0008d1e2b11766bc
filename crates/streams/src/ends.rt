//! How a program ends that reads an input and writes an output.

ghost use Rattle.std.specs.Prelude.{◌≡◌};
ghost use Rattle.std.specs.Process.{exit_status};
ghost use Rattle.streams.specs.Input.{read_failure};
ghost use Rattle.streams.specs.Output.{write_failure};
ghost use Rattle.streams.specs.Ends.{status_of};

use crate::{Input, Output};
use std::process::ExitCode;

// The exit status where a read or a write failed.
const NO_ANSWER: u8 = 2;

/// Says on standard error whether a read or a write of a program failed, and answers its exit status.
pub fn tell<R, W>(rt: &impl Eprint, program: &str, input: &Input<R>, output: &Output<W>) -> ExitCode
    ensures { exit_status result ≡ status_of (read_failure input.now) (write_failure output.now) }
{
    // A failed write to standard error is told by the status alone.
    let _ = match (input.failure(), output.failure()) {
        (Some(error), _) => eprintln!(rt; "{program}: cannot read standard input: {error}"),
        (None, Some(error)) => eprintln!(rt; "{program}: cannot write standard output: {error}"),
        (None, None) => return ExitCode::SUCCESS,
    };
    NO_ANSWER.into()
}
