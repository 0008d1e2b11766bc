//! Answers frames: reads texts in the notation and policy files from standard input, and writes what they give. What a
//! frame and its answer look like stands in tests/README.md. The end of the input ends the program.
#![tactic(auto)]

mod frames;
mod replies;

use frames::{Frame, read_frame};
use replies::{reply, word};
use std::io;
use std::io::{BufReader, BufWriter, Read, Write};
use std::rt::Clock;

fn main(rt: HostRuntime) -> io::Result<()> {
    let mut input = BufReader::new(rt.alloc(), rt.stdin())?;
    let mut output = BufWriter::new(rt.alloc(), rt.stdout())?;
    // No run uses up the turns.
    for _ in 0..u64::MAX {
        let Some(frame) = read_frame(rt.alloc(), &mut input)? else {
            return output.flush();
        };
        let words = reply(rt.alloc(), &rt, &frame)?;
        write_words(&words, &mut output)?;
        output.flush()?;
    }
    Ok(())
}

// Writes how many words there are, and then these, each in four bytes, the lowest first.
fn write_words<W: Write>(words: &[u32], output: &mut W) -> io::Result<()> {
    output.write_all(&word(words.len()).to_le_bytes())?;
    for word in words {
        output.write_all(&word.to_le_bytes())?;
    }
    Ok(())
}
