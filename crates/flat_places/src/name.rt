ghost use Rattle.std.specs.Prelude.{◌≡◌, ◌≤◌, length};

use flat_base::{Items, NAME_BYTES_MAX};
use std::marker::Model;

/// A name, as its bytes.
#[derive(Drop)]
pub struct Name {
    bytes: [u8; NAME_BYTES_MAX],
    len: u8,
}

impl Model for Name {
    ghost use Rattle.std.specs.Prelude.{List, ℕ, take, ◌≤◌};
    ghost use Rattle.flat_base.specs.declared.limits.TheConstants.{NAME_BYTES_MAX};

    ghost Value = { List ℕ };

    ghost view = { λ n. take n.len n.bytes };

    ghost invariant = { λ n. n.len ≤ NAME_BYTES_MAX };
}

/// Names in order of declaration.
pub type NameList = Items<Name>;

impl Name {
    /// The name that the word is.
    pub fn new(word: &[u8]) -> Name
        requires { length word.now ≤ NAME_BYTES_MAX }
        ensures { result ≡ word.now }
    {
        let mut bytes = [0; NAME_BYTES_MAX];
        bytes[..word.len()].copy_from_slice(word);
        Name {
            bytes,
            len: word.len() as u8,
        }
    }

    /// Its bytes.
    pub fn as_slice(&self) -> &[u8]
        ensures { result.now ≡ self.now }
    {
        &self.bytes[..self.len as usize]
    }
}
