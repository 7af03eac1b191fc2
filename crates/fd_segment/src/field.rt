ghost use Rattle.std.specs.Prelude.{◌≡◌};
ghost use Rattle.sha2.specs.Sha256.{sha256};

use crate::writing::field_digest;
use fd_bytes::Bytes;
use std::marker::Model;

/// A field that is to be stored: its bytes, with their SHA-256 once that was looked for. So one thread may look for the
/// digests of fields that another thread stores. Contracts see the bytes.
#[derive(Drop)]
pub struct Field {
    bytes: Bytes,
    digest: Option<[u8; 32]>,
}

impl Model for Field {
    ghost use Rattle.std.specs.Prelude.{◌≡◌, List, ℕ, IfSome};
    ghost use Rattle.sha2.specs.Sha256.{sha256};

    ghost Value = { List ℕ };

    ghost view = { λ f. f.bytes };

    ghost invariant = { λ f. IfSome f.digest (λ d. d ≡ sha256 f.bytes) };
}

impl Field {
    /// The field of these bytes. Its digest wasn't looked for.
    pub fn new(bytes: Bytes) -> Field
        ensures { result ≡ bytes }
    {
        Field {
            bytes,
            digest: None,
        }
    }

    /// The bytes.
    pub fn as_slice(&self) -> &[u8]
        ensures { result.now ≡ self.now }
    {
        self.bytes.as_slice()
    }

    /// The bytes, without a copy.
    pub fn into_bytes(self) -> Bytes
        ensures { result ≡ self }
    {
        self.bytes
    }

    /// Looks for the digest, unless that was done before.
    pub fn find_digest(&mut self)
        ensures { self.new ≡ self.old }
    {
        if self.digest.is_none() {
            self.digest = Some(field_digest(self.bytes.as_slice()));
        }
    }

    /// The SHA-256 of the bytes, which is looked for now where that wasn't done before.
    pub fn digest(&self) -> [u8; 32]
        ensures { result ≡ sha256 self.now }
    {
        match self.digest {
            Some(digest) => digest,
            None => field_digest(self.bytes.as_slice()),
        }
    }
}
