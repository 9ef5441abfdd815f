//! What arrived at a terminal, a byte a byte.
//!
//! Nearly every token that arrives is a byte that tells nothing else. So what arrived is kept as bytes, and a token that is
//! more than its byte, such as a terminator, beside them with its place. It has a byte too, which says nothing.
ghost use Rattle.std.specs.Prelude.{IfOk, List, None, OnErr, OnOk, Some, [], length, map, slice_get, slice_set, ◌++◌, ◌<◌, ◌==◌, ◌∷◌, ◌≡◌};
ghost use Rattle.std.specs.Vec.{vec_capacity};
ghost use Rattle.{c104_node.specs.Arrivals.{others_in, overlaid}, c104_token.specs.Kinds.byte_token};

use super::spare::push_roomy;
use c104_token::{NoMemory, Token, TokenKind};
use std::alloc::Global;
use std::marker::Model;

/// A token that is more than a byte, and its place among all that arrived.
#[derive(Clone, Copy)]
pub struct OtherOf<T: TokenKind> {
    pub place: usize,
    pub token: T,
}

/// The tokens that arrived at a terminal, in order. A contract sees them as their list.
#[derive(Drop)]
pub struct ArrivedOf<T: TokenKind> {
    bytes: Vec<u8>,
    others: Vec<OtherOf<T>>,
}

impl<T: TokenKind> Model for ArrivedOf<T> {
    ghost use Rattle.std.specs.Prelude.{List};
    ghost use Rattle.c104_node.specs.Arrivals.{IsArrived, arrived_list};

    ghost Value = { List T };

    ghost view = { λ a. arrived_list T.kind a.bytes.items a.others.items };

    ghost invariant = { λ a. IsArrived T.kind a.bytes.items a.others.items };
}

impl<T: TokenKind> ArrivedOf<T> {
    /// Nothing arrived.
    pub fn new(alloc: Global) -> Self
        ensures { result ≡ [] }
    {
        ArrivedOf {
            bytes: Vec::new(alloc),
            others: Vec::new(alloc),
        }
    }

    /// How many tokens arrived.
    pub fn len(&self) -> usize
        ensures { result ≡ length self.now }
    {
        self.bytes.as_slice().len()
    }

    /// Whether none arrived.
    pub fn is_empty(&self) -> bool
        ensures { result ≡ (length self.now == 0) }
    {
        self.len() == 0
    }

    /// The token at this index, from 0 at the first. None past the last one. It looks at each token before that is more
    /// than a byte: who reads all of them takes `to_list`.
    pub fn get(&self, index: usize) -> Option<T>
        ensures { result ≡ slice_get self.now index }
    {
        let bytes = self.bytes.as_slice();
        if index >= bytes.len() {
            return None;
        }
        let first = T::random(0, Token::Byte(bytes[index]));
        Some(token_among(self.others.as_slice(), index, first))
    }

    /// The tokens as a list. The only error is out of memory.
    pub fn to_list(&self, alloc: Global) -> Result<Vec<T>, NoMemory>
        ensures { IfOk result (λ list. list.items ≡ self.now) }
    {
        let mut list = byte_tokens(alloc, self.bytes.as_slice())?;
        overlay(&mut list, self.others.as_slice());
        Ok(list)
    }

    /// The same tokens, of each what it is alone. The only error is out of memory.
    pub fn plain_list(&self, alloc: Global) -> Result<Vec<Token>, NoMemory>
        ensures { IfOk result (λ list. list.items ≡ map T.kind.plain self.now) }
    {
        let mut list = plain_bytes::<T>(alloc, self.bytes.as_slice())?;
        overlay_plain(&mut list, self.others.as_slice());
        Ok(list)
    }

    /// A copy. The only error is out of memory.
    pub fn copy(&self, alloc: Global) -> Result<Self, NoMemory>
        ensures { IfOk result (λ copy. copy ≡ self.now) }
    {
        let bytes = Vec::from_slice(alloc, self.bytes.as_slice())?;
        let others = Vec::from_slice(alloc, self.others.as_slice())?;
        Ok(ArrivedOf { bytes, others })
    }

    /// Forgets what arrived.
    pub fn clear(&mut self)
        ensures { self.new ≡ [] }
    {
        self.bytes.clear();
        self.others.clear();
    }

    /// A token arrives. Out of memory nothing changes.
    #[inline(always)]
    pub fn push(&mut self, token: T) -> Result<(), NoMemory>
        ensures done { OnOk result (self.new ≡ self.old ++ token ∷ []) }
        ensures kept { OnErr result (self.new ≡ self.old) }
    {
        match token.byte() {
            Some(byte) => {
                self.bytes.push(byte)?;
                Ok(())
            }
            None => self.push_other(token),
        }
    }

    /// The same of a token that is more than a byte.
    fn push_other(&mut self, token: T) -> Result<(), NoMemory>
        requires { T.kind.byte token ≡ None }
        ensures done { OnOk result (self.new ≡ self.old ++ token ∷ []) }
        ensures kept { OnErr result (self.new ≡ self.old) }
    {
        let place = self.bytes.as_slice().len();
        self.bytes.reserve(1)?;
        self.others.push(OtherOf { place, token })?;
        self.bytes.push_reserved(0);
        Ok(())
    }

    /// How many tokens arrived that are more than a byte.
    pub(super) fn other_count(&self) -> usize
        ensures { result ≡ others_in T.kind self.now }
    {
        self.others.len()
    }

    /// A token arrives, without memory: where a list is full, the empty one that was set aside takes its place.
    #[inline(always)]
    pub(super) fn push_into(&mut self, token: T, bytes: &mut Vec<u8>, others: &mut Vec<OtherOf<T>>)
        requires empty { (bytes.old.items ≡ []) × (others.old.items ≡ []) }
        requires bytes { length self.old < vec_capacity bytes.old }
        requires others { others_in T.kind self.old < vec_capacity others.old }
        ensures pushed { self.new ≡ self.old ++ token ∷ [] }
        ensures empty { (bytes.new.items ≡ []) × (others.new.items ≡ []) }
    {
        let place = self.bytes.as_slice().len();
        match token.byte() {
            Some(byte) => push_roomy(&mut self.bytes, bytes, byte),
            None => {
                push_roomy(&mut self.bytes, bytes, 0);
                push_roomy(&mut self.others, others, OtherOf { place, token });
            }
        }
    }
}

/// A token for each byte. The only error is out of memory.
fn byte_tokens<T: TokenKind>(alloc: Global, bytes: &[u8]) -> Result<Vec<T>, NoMemory>
    ensures { IfOk result (λ list. list.items ≡ map (byte_token T.kind) bytes.now) }
{
    let mut list = Vec::with_capacity(alloc, bytes.len())?;
    for byte in bytes {
        list.push(T::random(0, Token::Byte(*byte)))?;
    }
    Ok(list)
}

/// Each of these tokens takes its place in a list.
fn overlay<T: TokenKind>(list: &mut [T], others: &[OtherOf<T>])
    ensures { list.new ≡ overlaid others.now list.old }
{
    for other in others {
        lay(list, other);
    }
}

/// A token takes its place in a list, if it has such a place.
#[tactic(auto, using(std::proofs::lemmas::List::set_past))]
fn lay<T: TokenKind>(list: &mut [T], other: &OtherOf<T>)
    ensures { list.new ≡ slice_set list.old other.now.place other.now.token }
{
    if other.place < list.len() {
        list[other.place] = other.token;
    }
}

/// A plain token for each byte. The only error is out of memory.
fn plain_bytes<T: TokenKind>(alloc: Global, bytes: &[u8]) -> Result<Vec<Token>, NoMemory>
    ensures { IfOk result (λ list. list.items ≡ map T.kind.plain (map (byte_token T.kind) bytes.now)) }
{
    let mut list = Vec::with_capacity(alloc, bytes.len())?;
    for byte in bytes {
        list.push(T::random(0, Token::Byte(*byte)).plain())?;
    }
    Ok(list)
}

/// Each of these tokens takes its place in a list of plain ones.
fn overlay_plain<T: TokenKind>(list: &mut [Token], others: &[OtherOf<T>])
    ensures { (tokens : List T) → list.old ≡ map T.kind.plain tokens → list.new ≡ map T.kind.plain (overlaid others.now tokens) }
{
    for other in others {
        let laid = OtherOf {
            place: other.place,
            token: other.token.plain(),
        };
        lay(list, &laid);
    }
}

/// The token at an index where these are laid over a list that has this token there.
fn token_among<T: TokenKind>(others: &[OtherOf<T>], index: usize, first: T) -> T
    ensures { (list : List T) → slice_get list index ≡ Some first →
        slice_get (overlaid others.now list) index ≡ Some result }
{
    let mut token = first;
    for other in others {
        token = token_over(other, index, token);
    }
    token
}

/// The token at an index where this one is laid over a list that has that token there.
fn token_over<T: TokenKind>(other: &OtherOf<T>, index: usize, below: T) -> T
    ensures here { other.now.place ≡ index → result ≡ other.now.token }
    ensures elsewhere { (other.now.place ≡ index → ⊥) → result ≡ below }
{
    if other.place == index {
        other.token
    } else {
        below
    }
}
