//! A sink in memory.

ghost use Rattle.std.specs.Prelude.{◌≡◌, [], None};
ghost use Rattle.canon.specs.Keeps.{kept_or};

use std::alloc::{AllocError, Global};
use streams::Sink;

/// Keeps the bytes that are put in, as long as there is memory.
#[derive(Drop)]
pub struct Kept {
    bytes: Vec<u8>,
    failure: Option<AllocError>,
}

impl Kept {
    /// One that has kept no bytes.
    pub fn new(alloc: Global) -> Kept
        ensures bytes { result.bytes.items ≡ [] }
        ensures failure { result.failure ≡ None }
    {
        Kept {
            bytes: Vec::new(alloc),
            failure: None,
        }
    }

    /// The bytes that were put in; the error where there was no memory for some.
    pub fn into_bytes(self) -> Result<Vec<u8>, AllocError>
        ensures { result ≡ kept_or self.failure self.bytes }
    {
        match self.failure {
            None => Ok(self.bytes),
            Some(failure) => Err(failure),
        }
    }
}

impl Sink for Kept {
    ghost use Rattle.canon.specs.Keeps.{Keeps, keeps-none, keeps-then};

    ghost gives = { λ a xs b. Keeps a.failure a.bytes.items xs b.failure b.bytes.items };

    ghost none = { λ s. keeps-none s.failure s.bytes.items };

    ghost then = { λ a b c. keeps-then a.failure b.failure c.failure a.bytes.items b.bytes.items c.bytes.items };

    fn put(&mut self, bytes: &[u8]) {
        if self.failure.is_none() {
            if let Err(failure) = self.bytes.extend_from_slice(bytes) {
                self.failure = Some(failure);
            }
        }
    }
}
