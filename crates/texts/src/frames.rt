//! What is asked: a kind, and some bytes.

use std::alloc::Global;
use std::io;
use std::io::{ErrorKind, Read};

/// A frame of the input.
#[derive(Drop)]
pub struct Frame {
    pub kind: u32,
    pub bytes: Vec<u8>,
}

/// The next frame; none at the end of the input.
pub fn read_frame<R: Read>(alloc: Global, input: &mut R) -> io::Result<Option<Frame>> {
    let mut head = [0u8; 8];
    match input.read_exact(&mut head) {
        Ok(()) => {}
        Err(error) if error.kind() == ErrorKind::UnexpectedEof => return Ok(None),
        Err(error) => return Err(error),
    }
    let [a, b, c, d, e, f, g, h] = head;
    let kind = u32::from_le_bytes([a, b, c, d]);
    let count = u32::from_le_bytes([e, f, g, h]) as usize;
    let mut bytes = vec![in alloc; 0u8; count]?;
    input.read_exact(&mut bytes)?;
    Ok(Some(Frame { kind, bytes }))
}
