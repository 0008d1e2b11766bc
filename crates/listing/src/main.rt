//! Reads the bytes of a policy file from standard input, and writes its listing, or the refusal. A failed read or write
//! is said on standard error, and by the exit status 2.
#![tactic(auto)]

ghost use Rattle.std.specs.Prelude.{◌≡◌};
ghost use Rattle.std.specs.Process.{exit_status};
ghost use Rattle.streams.specs.Input.{read_failure};
ghost use Rattle.streams.specs.Output.{write_failure};
ghost use Rattle.streams.specs.Ends.{status_of};
ghost use Rattle.listing.specs.Lists.{Lists, ListsAnew};

#[cfg(test)]
mod tests;

use std::io::{Read, Write};
use std::process::ExitCode;
use streams::{Input, Output, tell};
use text::{INPUT_ROOM, list};

fn main(rt: HostRuntime) -> ExitCode {
    list_input(
        &rt,
        &mut Input::new(rt.stdin()),
        &mut Output::new(rt.stdout()),
    )
}

// Lists an input, says what failed, and answers the exit status.
fn list_input<R: Read, W: Write>(
    rt: &impl Eprint,
    input: &mut Input<R>,
    output: &mut Output<W>,
) -> ExitCode
    ensures lists { Lists R.remaining W.contents input.old input.new output.old output.new }
    ensures anew { ListsAnew R.remaining W.contents input.old output.old output.new (exit_status result) }
    ensures status { exit_status result ≡ status_of (read_failure input.new) (write_failure output.new) }
{
    write_listing(input, output);
    tell(rt, "listing", input, output)
}

// Writes the listing of an input, of any length: whole, unless a read or a write fails.
fn write_listing<R: Read, W: Write>(input: &mut Input<R>, output: &mut Output<W>)
    ensures { Lists R.remaining W.contents input.old input.new output.old output.new }
{
    // An array, since a heap would add the C library's memory to what is trusted.
    let mut bytes = [0u8; INPUT_ROOM];
    if let Some(count) = input.fill(&mut bytes) {
        list(&bytes[..count], output);
        output.flush();
    }
}
