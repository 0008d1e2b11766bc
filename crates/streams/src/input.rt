//! Where bytes come from.

ghost use Rattle.std.specs.Prelude.{◌≡◌, ◌≢◌, ◌≤◌, ◌<◌, ◌⊎◌, length, take, None};
ghost use Rattle.std.specs.Prelude.{IfSome, IsSome, IsNone, IfOk, IfErr, OnErr, option_copied};
ghost use Rattle.std.specs.declared.io.ErrorKind.TheVariants.{Interrupted};
ghost use Rattle.std.specs.IoError.{error_kind};
ghost use Rattle.std.specs.Io.KnownBytes.{Keeps, Consumes, IsAtEnd, ReadConsumes};
ghost use Rattle.streams.specs.Parts.{ConsumesPart};

use std::io::{Error, ErrorKind, Read};

/// A reader, and the error by which a read failed. The contracts of std name no error, so two things are read here and
/// not proved: that the reader is called, and that the error is one that it gave, or stands for interruptions without
/// end.
#[derive(Drop)]
pub struct Input<R> {
    inner: R,
    failure: Option<Error>,
}

impl<R> Input<R> {
    ghost use Rattle.streams.specs.Input.{NothingRead, read_failure};

    /// One from which nothing was read.
    pub fn new(inner: R) -> Input<R>
        ensures { NothingRead inner result }
    {
        Input {
            inner,
            failure: None,
        }
    }

    /// The error by which a read failed.
    pub fn failure(&self) -> Option<&Error>
        ensures { option_copied result ≡ read_failure self.now }
    {
        self.failure.as_ref()
    }
}

impl<R: Read> Input<R> {
    ghost use Rattle.streams.specs.Input.{Fills, Reads};

    /// Reads until a buffer is full or the input ends, and answers how many bytes were read. They stand at the start
    /// of the buffer, zeros behind them. `None` where a read failed, now or before.
    pub fn fill(&mut self, buf: &mut [u8]) -> Option<usize>
        ensures { Fills R.remaining self.old self.new buf.new result }
    {
        let count = self.read(buf);
        buf[count.unwrap_or(0)..].fill(0);
        count
    }

    // The same, but that the bytes behind those that were read are any.
    fn read(&mut self, buf: &mut [u8]) -> Option<usize>
        ensures { Reads R.remaining self.old self.new buf.new result }
    {
        if self.failure.is_some() {
            return None;
        }
        match read_full(&mut self.inner, buf) {
            Ok(count) => Some(count),
            Err(error) => {
                self.failure = Some(error);
                None
            }
        }
    }
}

// Reads until a buffer is full or the input ends. What was read stands at the start of the buffer.
#[tactic(auto, using(crate::proofs::Parts::reads))]
fn read_full<R: Read>(reader: &mut R, buf: &mut [u8]) -> Result<usize, Error>
    ensures within { IfOk result (λ count. count ≤ length buf.new) }
    ensures bytes { IfOk result (λ count.
        Consumes (R.remaining reader.old) (R.remaining reader.new) (take count buf.new)) }
    ensures end { IfOk result (λ count. (count ≡ length buf.new) ⊎ IsAtEnd (R.remaining reader.new)) }
    ensures lost { OnErr result (ConsumesPart (R.remaining reader.old) (R.remaining reader.new) (length buf.new)) }
    ensures not_interrupted { IfErr result (λ error. error_kind error ≢ Interrupted) }
{
    let mut count = 0;
    // The first count bytes are read. A read gives as many bytes as it likes, so no iterator counts them.
    while count < buf.len() {
        match read_part(reader, &mut buf[count..])? {
            0 => break,
            n => count += n,
        }
    }
    Ok(count)
}

// One read, made again where it was interrupted.
fn read_part<R: Read>(reader: &mut R, buf: &mut [u8]) -> Result<usize, Error>
    ensures bound { IfOk result (λ n. n ≤ length buf.new) }
    ensures bytes { ReadConsumes (R.remaining reader.old) (R.remaining reader.new) result buf.new }
    ensures not_interrupted { IfErr result (λ error. error_kind error ≢ Interrupted) }
{
    // No loop without an end, which would need the handle to wait. No run uses up the turns.
    for _ in 0..u64::MAX {
        match reader.read(buf) {
            Err(error) if error.kind() == ErrorKind::Interrupted => {}
            result => return result,
        }
    }
    Err(ErrorKind::TimedOut.into())
}
