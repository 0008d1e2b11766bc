// A reader and a writer that are interrupted, and that fail in mid-stream.
use super::*;
use crate::output::BLOCK;
use std::io;
use std::io::{ErrorKind, Read, Write};
use std::test::Fail;

// Gives a zero byte or an error at each call, and is then at its end.
#[derive(Drop)]
struct FaultyReader<'a> {
    calls: &'a [Option<ErrorKind>],
}

impl Read for FaultyReader<'_> {
    fn read(&mut self, buf: &mut [u8]) -> io::Result<usize> {
        let Some((&call, rest)) = self.calls.split_first() else {
            return Ok(0);
        };
        self.calls = rest;
        if let Some(kind) = call {
            return Err(kind.into());
        }
        let n = buf.len().min(1);
        buf[..n].fill(7);
        Ok(n)
    }
}

// Takes a byte or gives an error at each call, and then takes all.
#[derive(Drop)]
struct FaultyWriter<'a> {
    calls: &'a [Option<ErrorKind>],
    bytes: Vec<u8>,
}

impl Write for FaultyWriter<'_> {
    fn write(&mut self, buf: &[u8]) -> io::Result<usize> {
        let Some((&call, rest)) = self.calls.split_first() else {
            self.bytes.extend_from_slice(buf)?;
            return Ok(buf.len());
        };
        self.calls = rest;
        if let Some(kind) = call {
            return Err(kind.into());
        }
        let n = buf.len().min(1);
        self.bytes.extend_from_slice(&buf[..n])?;
        Ok(n)
    }

    fn flush(&mut self) -> io::Result<()> {
        Ok(())
    }
}

#[test]
fn reads_on_after_an_interruption(rt: HostRuntime) -> Result<(), Fail> {
    let calls = [
        Some(ErrorKind::Interrupted),
        None,
        Some(ErrorKind::Interrupted),
        None,
    ];
    let mut input = Input::new(FaultyReader { calls: &calls });
    let mut buf = [1u8; 4];
    assert_eq!(rt; input.fill(&mut buf[..1]), Some(1));
    assert_eq!(rt; input.fill(&mut buf[1..]), Some(1));
    assert_eq!(rt; buf, [7, 7, 0, 0]);
    assert_eq!(rt; input.fill(&mut buf), Some(0));
    assert!(rt; input.failure().is_none());
    Ok(())
}

#[test]
fn reads_no_more_after_a_failed_read(rt: HostRuntime) -> Result<(), Fail> {
    let calls = [None, None, Some(ErrorKind::ConnectionReset), None];
    let mut reader = FaultyReader { calls: &calls };
    let mut input = Input::new(&mut reader);
    let mut buf = [1u8; 4];
    assert_eq!(rt; input.fill(&mut buf), None);
    assert_eq!(rt; input.fill(&mut buf[2..]), None);
    assert_eq!(rt; buf, [0; 4]);
    assert_eq!(rt;
        input.failure().map(|error| error.kind()),
        Some(ErrorKind::ConnectionReset)
    );
    assert_eq!(rt; reader.calls.len(), 1);
    Ok(())
}

#[test]
fn writes_on_after_an_interruption(rt: HostRuntime) -> Result<(), Fail> {
    let calls = [
        Some(ErrorKind::Interrupted),
        None,
        Some(ErrorKind::Interrupted),
        None,
    ];
    let mut writer = FaultyWriter {
        calls: &calls,
        bytes: Vec::new(rt.alloc()),
    };
    let mut output = Output::new(&mut writer);
    output.put(b"ro");
    output.put(b"ws");
    output.flush();
    output.put(b"!");
    assert!(rt; output.failure().is_none());
    assert_eq!(rt; writer.bytes.as_slice(), b"rows".as_slice());
    Ok(())
}

#[test]
fn writes_no_more_after_a_failed_write(rt: HostRuntime) -> Result<(), Fail> {
    let calls = [None, None, Some(ErrorKind::StorageFull)];
    let mut writer = FaultyWriter {
        calls: &calls,
        bytes: Vec::new(rt.alloc()),
    };
    let mut output = Output::new(&mut writer);
    output.put(b"rows");
    output.flush();
    output.put(b"more");
    output.flush();
    assert_eq!(rt;
        output.failure().map(|error| error.kind()),
        Some(ErrorKind::StorageFull)
    );
    assert_eq!(rt; writer.bytes.as_slice(), b"ro".as_slice());
    Ok(())
}

#[test]
fn writes_more_than_a_block(rt: HostRuntime) -> Result<(), Fail> {
    let mut writer = Vec::new(rt.alloc());
    let mut output = Output::new(&mut writer);
    output.put(b"rows");
    output.put(&[7; BLOCK + 1]);
    output.put(b"!");
    output.flush();
    assert_eq!(rt; writer.len(), BLOCK + 6);
    assert_eq!(rt; &writer[..5], b"rows\x07".as_slice());
    assert_eq!(rt; &writer[BLOCK + 4..], b"\x07!".as_slice());
    Ok(())
}
