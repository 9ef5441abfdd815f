//! The names of switches and terminals.
ghost use Rattle.std.specs.Prelude.{◌≡◌, IfOk, IsTrue};
ghost use Rattle.c104_plan.specs.TextWords.{is_name};

use c104_token::{Bytes, Items, NoMemory};
use std::alloc::{AllocError, Global};
use std::marker::Model;

/// The name of a switch or a terminal: a letter, and then letters, digits, `_` and `-`, at most
/// 32 bytes.
#[derive(Debug, Drop)]
pub struct Name {
    bytes: Bytes,
}

impl Model for Name {
    ghost use Rattle.std.specs.Prelude.{ℕ, List, IsTrue};
    ghost use Rattle.c104_plan.specs.TextWords.{is_name};

    ghost Value = { List ℕ };

    ghost view = { λ name. name.bytes };

    ghost invariant = { λ name. IsTrue (is_name name.bytes) };
}

impl Clone for Name {
    ghost is_clone = { λ name copy. copy ≡ name };

    fn clone(&self) -> Result<Self, AllocError> {
        let bytes = self.bytes.clone()?;
        Ok(Name { bytes })
    }
}

impl Name {
    /// The name that a word is. The only error is out of memory.
    pub fn new(alloc: Global, word: &[u8]) -> Result<Name, NoMemory>
        requires { IsTrue (is_name word.now) }
        ensures { IfOk result (λ name. name ≡ word.now) }
    {
        let bytes = word.to_vec(alloc)?;
        Ok(Name {
            bytes: Items::new(bytes),
        })
    }

    /// The name's bytes, all of them ASCII.
    pub fn as_bytes(&self) -> &[u8]
        ensures bytes { result.now ≡ self.now }
        ensures named { IsTrue (is_name self.now) }
    {
        self.bytes.as_slice()
    }

    /// The name as text.
    #[tactic(auto, using(crate::proofs::NameText::utf8_name))]
    pub fn as_str(&self) -> &str
        ensures text { result.now ≡ self.now }
        ensures named { IsTrue (is_name self.now) }
    {
        match str::from_utf8(self.as_bytes()) {
            Ok(text) => text,
            Err(_) => unreachable!(),
        }
    }
}
