// The exit status, and what is written and read where a read or a write fails in mid-stream.
use super::*;
use std::io::ErrorKind;
use std::test::Fail;

// A call for the hidden rows of a table without words: its reply is three words, which are zeros.
const CALL: &[u8] = b"\x07\0\0\0\0\0\0\0";

// Gives nothing but an error.
#[derive(Drop)]
struct Broken;

impl Read for Broken {
    fn read(&mut self, _buf: &mut [u8]) -> io::Result<usize> {
        Err(ErrorKind::ConnectionReset.into())
    }
}

#[test]
fn answers_all_of_an_input(rt: HostRuntime) -> Result<(), Fail> {
    let mut writer = Vec::new(rt.alloc());
    let mut input = Input::new(CALL.chain(CALL));
    let status = answer_input(&rt, &mut input, &mut Output::new(&mut writer));
    assert_eq!(rt; writer.as_slice(), [0u8; 24].as_slice());
    assert_eq!(rt; status, ExitCode::SUCCESS);
    Ok(())
}

#[test]
fn hands_on_what_was_answered_before_a_failed_read(rt: HostRuntime) -> Result<(), Fail> {
    let mut writer = Vec::new(rt.alloc());
    let mut input = Input::new(CALL.chain(Broken));
    let status = answer_input(&rt, &mut input, &mut Output::new(&mut writer));
    assert_eq!(rt; writer.as_slice(), [0u8; 12].as_slice());
    assert_eq!(rt;
        input.failure().map(|error| error.kind()),
        Some(ErrorKind::ConnectionReset)
    );
    assert_eq!(rt; status, ExitCode::from(2));
    Ok(())
}

#[test]
fn takes_no_call_after_a_failed_write(rt: HostRuntime) -> Result<(), Fail> {
    let mut room = [b'-'; 14];
    let mut output = Output::new(room.as_mut_slice());
    // Behind the second call, whose reply has no room, stands what cannot be read.
    let mut input = Input::new(CALL.chain(CALL).chain(Broken));
    let status = answer_input(&rt, &mut input, &mut output);
    assert_eq!(rt;
        output.failure().map(|error| error.kind()),
        Some(ErrorKind::WriteZero)
    );
    assert_eq!(rt; input.failure().is_none(), true);
    assert_eq!(rt; room, [0u8; 14]);
    assert_eq!(rt; status, ExitCode::from(2));
    Ok(())
}
