//! What a writer took, for proofs alone. It takes no memory, and its functions do nothing when they run.
//!
//! By itself it says nothing: a function could pick any bytes. It is tied to what a writer took by the type that has
//! one, `Recorded`, whose only calls of it are those of its `write`. So only this crate has the type, and the proofs of
//! the two functions that make one are written by hand, in the form of the toolchain's libraries (`http_server`,
//! `serde_json`).
ghost use Rattle.std.specs.Prelude.{List, ℕ};

use std::marker::Model;

/// The bytes that were taken. They are erased: no code can read them.
#[derive(Drop)]
pub struct Record {
    pub ghost bytes: { List ℕ },
}

impl Model for Record {
    ghost use Rattle.std.specs.Borrow.{ftrue};

    ghost also_owns = { λ _. ftrue };
}

impl Record {
    ghost use Rattle.std.specs.Prelude.{[], ◌++◌, ◌≡◌};

    /// Nothing was taken yet.
    #[inline(always)]
    pub fn new() -> Record
        ensures { result.bytes ≡ [] }
    {
        Record {}
    }

    /// Further bytes were taken, which the caller's proof picks.
    #[inline(always)]
    pub fn told(&self) -> Record
        ghost piece: { List ℕ }
        ensures { result.bytes ≡ self.now.bytes ++ piece }
    {
        Record {}
    }

    /// The same, of a piece from which the caller's proof picks.
    #[inline(always)]
    pub fn told_by(&self, _piece: &[u8]) -> Record
        ghost piece: { List ℕ }
        ensures { result.bytes ≡ self.now.bytes ++ piece }
    {
        self.told()
    }

    /// This piece was taken.
    #[inline(always)]
    pub fn with(&self, piece: &[u8]) -> Record
        ensures { result.bytes ≡ self.now.bytes ++ piece.now }
    {
        self.told_by(piece)
    }
}
