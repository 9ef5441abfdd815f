ghost use Rattle.std.specs.Prelude.{◌≡◌, ◌<◌, All, List};

use std::alloc::AllocError;
use std::marker::Model;

/// A list in a field of a public type. It is made from a `Vec` and gives it back, neither of
/// which takes memory, and a contract sees it as the list.
// A plain `Vec` shows its capacity and its place in memory to contracts, and then two equal packets need not be equal
// values.
#[derive(Debug, Drop)]
pub struct Items<T> {
    items: Vec<T>,
}

/// A list of bytes.
pub type Bytes = Items<u8>;

impl<T> Model for Items<T> {
    ghost Value = { List T };

    ghost view = { λ list. list.items.items };
}

impl<T: Copy + Drop> Clone for Items<T> {
    ghost is_clone = { λ list copy. copy ≡ list };

    fn clone(&self) -> Result<Self, AllocError> {
        let items = Vec::from_slice(*self.items.allocator(), self.items.as_slice())?;
        Ok(Items { items })
    }
}

impl<T> Items<T> {
    /// The list of these items, without a copy.
    pub fn new(items: Vec<T>) -> Self
        ensures { result ≡ items.items }
    {
        Items { items }
    }

    /// The items.
    pub fn as_slice(&self) -> &[T]
        ensures { result.now ≡ self.now }
    {
        self.items.as_slice()
    }

    /// The items, given back without a copy.
    pub fn into_vec(self) -> Vec<T>
        ensures { result.items ≡ self }
    {
        let Items { items } = self;
        items
    }
}

impl Items<u8> {
    /// The bytes, as `as_slice`. The contract says here that each is below 256, which the list of
    /// numbers that other contracts see doesn't tell.
    pub fn as_bytes(&self) -> &[u8]
        ensures value { result.now ≡ self.now }
        ensures range { All (λ byte. byte < 256) self.now }
    {
        // The proof reads the range of the lent slice by this name.
        let bytes = self.items.as_slice();
        bytes
    }
}
