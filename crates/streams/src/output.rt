//! Where bytes go: to a writer, a block at a time.

ghost use Rattle.std.specs.Prelude.{◌≡◌, ◌≢◌, ◌≤◌, ◌<◌, length, take, []};
ghost use Rattle.std.specs.Prelude.{IsTrue, IsFalse, IsNone, IfOk, IfErr, OnOk, OnErr, option_copied};
ghost use Rattle.std.specs.declared.io.ErrorKind.TheVariants.{Interrupted};
ghost use Rattle.std.specs.IoError.{error_kind};
ghost use Rattle.std.specs.Io.KnownBytes.{Keeps, Appends, WriteAppends};
ghost use Rattle.streams.specs.Parts.{AppendsPart};

use crate::Sink;
use arrayvec::ArrayVec;
use std::io::{Error, ErrorKind, Write};

// How many bytes an output keeps at most before it hands them on.
pub(crate) const BLOCK: usize = 8192;

/// A writer, the bytes that were put in and that it does not have yet, and the error by which a write failed. As with
/// an `Input`, it is read here and not proved that the writer is called, and that the error is one that it gave, or
/// stands for a write that took nothing or for interruptions without end.
#[derive(Drop)]
pub struct Output<W> {
    inner: W,
    block: ArrayVec<u8, BLOCK>,
    failure: Option<Error>,
}

impl<W> Output<W> {
    ghost use Rattle.streams.specs.Output.{NothingPut, write_failure};

    /// One into which nothing was put.
    pub fn new(inner: W) -> Output<W>
        ensures { NothingPut inner result }
    {
        Output {
            inner,
            block: ArrayVec::new(),
            failure: None,
        }
    }

    /// The error by which a write failed.
    pub fn failure(&self) -> Option<&Error>
        ensures { option_copied result ≡ write_failure self.now }
    {
        self.failure.as_ref()
    }
}

impl<W: Write> Output<W> {
    ghost use Rattle.streams.specs.Output.{Gives, HandsOn};

    /// Hands on all that was put in, unless a write fails. The writer's own `flush` is not called: what a writer keeps
    /// back itself is its own, and standard output keeps nothing back.
    pub fn flush(&mut self)
        ensures { HandsOn W.contents self.old [] self.new }
    {
        if self.failure.is_none() {
            self.failure = write_full(&mut self.inner, self.block.as_slice()).err();
            self.block.clear();
        }
    }

    // Puts bytes behind those that wait; says whether they fit, or a write had failed.
    fn keep(&mut self, bytes: &[u8]) -> bool
        ensures kept { IsTrue result → Gives W.contents self.old bytes.now self.new }
        ensures unchanged { IsFalse result → self.new ≡ self.old }
        ensures not_failed { IsFalse result → IsNone self.old.failure }
    {
        self.failure.is_some() || self.block.try_extend_from_slice(bytes).is_ok()
    }
}

impl<W: Write> Sink for Output<W> {
    ghost use Rattle.streams.specs.Output.{Gives};
    ghost use Rattle.streams.specs.OutputSink.{gives-none, gives-then};

    ghost gives = { Gives W.contents };

    ghost none = { gives-none W.contents };

    ghost then = { gives-then W.contents };

    fn put(&mut self, bytes: &[u8]) {
        if self.keep(bytes) {
            return;
        }
        self.flush();
        // Bytes that are more than a block are written as they are.
        if !self.keep(bytes) {
            self.failure = write_full(&mut self.inner, bytes).err();
        }
    }
}

// Writes bytes until all are written or a write fails.
#[tactic(auto, using(crate::proofs::Parts::writes))]
fn write_full<W: Write>(writer: &mut W, bytes: &[u8]) -> Result<(), Error>
    ensures whole { OnOk result (Appends (W.contents writer.old) (W.contents writer.new) bytes.now) }
    ensures part { OnErr result (AppendsPart (W.contents writer.old) (W.contents writer.new) bytes.now) }
    ensures not_interrupted { IfErr result (λ error. error_kind error ≢ Interrupted) }
{
    let mut count = 0;
    // The first count bytes are written.
    while count < bytes.len() {
        count += write_part(writer, &bytes[count..])?;
    }
    Ok(())
}

// One write, made again where it was interrupted, of some bytes, at least one.
fn write_part<W: Write>(writer: &mut W, bytes: &[u8]) -> Result<usize, Error>
    requires { 0 < length bytes.now }
    ensures bound { IfOk result (λ n. n ≤ length bytes.now) }
    ensures more { IfOk result (λ n. 0 < n) }
    ensures bytes { WriteAppends (W.contents writer.old) (W.contents writer.new) result bytes.now }
    ensures not_interrupted { IfErr result (λ error. error_kind error ≢ Interrupted) }
{
    // As in a read.
    for _ in 0..u64::MAX {
        match writer.write(bytes) {
            Ok(0) => return Err(ErrorKind::WriteZero.into()),
            Err(error) if error.kind() == ErrorKind::Interrupted => {}
            result => return result,
        }
    }
    Err(ErrorKind::TimedOut.into())
}
