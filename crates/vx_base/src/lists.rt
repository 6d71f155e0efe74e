use crate::types::ParamKind;
use std::marker::Model;

/// Some values in order: a `Vec` that contracts see as the list of its elements.
#[derive(Debug, Drop)]
pub struct ListOf<T> {
    /// The elements in order.
    pub items: Vec<T>,
}

impl<T> Model for ListOf<T> {
    ghost use Rattle.std.specs.Prelude.{List};

    ghost Value = { List T };

    ghost view = { λ t. t.items.items };
}

impl<T> ListOf<T> {
    ghost use Rattle.std.specs.Prelude.{◌≡◌, ◌<◌, length, slice_get, OnSome};
    ghost use Rattle.std.specs.Option.{option_copied};

    /// How many elements there are.
    pub fn len(&self) -> usize
        ensures { result ≡ length self.now }
    {
        self.items.len()
    }

    /// The elements in order.
    pub fn as_slice(&self) -> &[T]
        ensures { result.now ≡ self.now }
    {
        self.items.as_slice()
    }

    /// The element at a place from 0, and None behind the last.
    pub fn get(&self, i: usize) -> Option<&T>
        ensures value { option_copied result ≡ slice_get self.now i }
        ensures within { OnSome result (i < length self.now) }
    {
        self.items.get(i)
    }
}

/// A text, as its bytes.
pub type Text = ListOf<u8>;

/// Words of 32 bits in order.
pub type WordList = ListOf<u32>;

/// Numbers of bytes in order, one for each array.
pub type SizeList = ListOf<u32>;

/// What the parameters of a function take, in order.
pub type KindList = ListOf<ParamKind>;
