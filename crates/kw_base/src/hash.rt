//! Texts: the hash that a text decides, so that its parts can't be chosen to make it slow.

ghost use Rattle.std.specs.Prelude.{◌≡◌};
ghost use Rattle.std.specs.Hash.DefaultHasher as sip;
ghost use Rattle.sha2.specs.Sha256.{sha256};

use sha2::{Digest, Sha256};
use std::hash::{BuildHasher, DefaultHasher, Hasher};
use std::marker::Model;

/// Hashes by SipHash that was fed with the digest of a text, and is seen by contracts as that hasher.
#[derive(Clone, Copy)]
pub struct HashOfText {
    fed: DefaultHasher,
}

impl Model for HashOfText {
    ghost use Rattle.std.specs.declared.hash.DefaultHasher.{DefaultHasher};

    ghost Value = { DefaultHasher };

    ghost view = { λ h. h.fed };

    ghost inverse = { λ fed. record { fed = fed } };
}

impl HashOfText {
    /// The hash of what is in this text.
    pub fn new(text: &[u8]) -> HashOfText
        ensures { result ≡ sip.write sip.initial (sha256 text.now) }
    {
        let mut fed = DefaultHasher::new();
        fed.write(&Sha256::digest(text));
        HashOfText { fed }
    }
}

impl BuildHasher for HashOfText {
    type Hasher = DefaultHasher;

    ghost build_hasher = { λ of_text. of_text };

    fn build_hasher(&self) -> DefaultHasher {
        self.fed
    }
}
