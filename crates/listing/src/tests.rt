// The exit status, and what is written where a read or a write fails in mid-stream.
use super::*;
use std::io;
use std::io::ErrorKind;
use std::test::Fail;

// Gives nothing but an error.
#[derive(Drop)]
struct Broken;

impl Read for Broken {
    fn read(&mut self, _buf: &mut [u8]) -> io::Result<usize> {
        Err(ErrorKind::ConnectionReset.into())
    }
}

#[test]
fn lists_all_of_an_input(rt: HostRuntime) -> Result<(), Fail> {
    let mut writer = Vec::new(rt.alloc());
    let mut input = Input::new(b"\0".as_slice());
    let status = list_input(&rt, &mut input, &mut Output::new(&mut writer));
    assert_eq!(rt; writer.as_slice(), b"refused 18 0\n".as_slice());
    assert_eq!(rt; status, ExitCode::SUCCESS);
    Ok(())
}

#[test]
fn lists_nothing_of_a_failed_read(rt: HostRuntime) -> Result<(), Fail> {
    let mut input = Input::new(b"\0\0\0\0".as_slice().chain(Broken));
    let mut writer = Vec::new(rt.alloc());
    let status = list_input(&rt, &mut input, &mut Output::new(&mut writer));
    assert_eq!(rt; writer.as_slice(), b"".as_slice());
    assert_eq!(rt;
        input.failure().map(|error| error.kind()),
        Some(ErrorKind::ConnectionReset)
    );
    assert_eq!(rt; status, ExitCode::from(2));
    Ok(())
}

#[test]
fn writes_nothing_after_a_failed_write(rt: HostRuntime) -> Result<(), Fail> {
    let mut room = [b'-'; 2];
    let mut output = Output::new(room.as_mut_slice());
    let status = list_input(&rt, &mut Input::new(b"\0".as_slice()), &mut output);
    assert_eq!(rt;
        output.failure().map(|error| error.kind()),
        Some(ErrorKind::WriteZero)
    );
    assert_eq!(rt; room, *b"re");
    assert_eq!(rt; status, ExitCode::from(2));
    Ok(())
}
