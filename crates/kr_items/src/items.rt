ghost use Rattle.std.specs.Prelude.{◌≡◌, ◌↔◌, ◌++◌, ◌∷◌, List, [], length, IsTrue, if◌then◌else◌, IfErr};
ghost use Rattle.std.specs.Result.{is_ok};

use std::alloc::{AllocFailed, Global};
use std::marker::Model;

/// Elements in order. A contract sees the list of them.
#[derive(Debug, Drop)]
pub struct Items<T> {
    elements: Vec<T>,
}

impl<T> Model for Items<T> {
    ghost Value = { List T };

    ghost view = { λ a. a.elements.items };
}

impl<T> Items<T> {
    /// No elements. It takes no memory.
    pub fn empty(alloc: Global) -> Items<T>
        ensures { result ≡ [] }
    {
        Items {
            elements: Vec::new(alloc),
        }
    }

    /// The elements of the vector. It takes no memory.
    pub fn new(elements: Vec<T>) -> Items<T>
        ensures { result ≡ elements.items }
    {
        Items { elements }
    }

    /// The elements as a vector. It takes no memory.
    pub fn into_vec(self) -> Vec<T>
        ensures { result.items ≡ self }
    {
        self.elements
    }

    /// The elements in order, borrowed.
    pub fn as_slice(&self) -> &[T]
        ensures { result.now ≡ self.now }
    {
        self.elements.as_slice()
    }

    /// The number of elements.
    pub fn len(&self) -> usize
        ensures { result ≡ length self.now }
    {
        self.elements.len()
    }

    /// Whether there are no elements.
    pub fn is_empty(&self) -> bool
        ensures { IsTrue result ↔ (self.now ≡ []) }
    {
        self.elements.is_empty()
    }

    /// Appends an element. If no memory is left, the element is handed back, and the list is as before.
    pub fn push(&mut self, element: T) -> Result<(), AllocFailed<T>>
        ensures items { self.new ≡ (if is_ok result then self.old ++ element ∷ [] else self.old) }
        ensures value_returned { IfErr result (λ failed. failed.value ≡ element) }
    {
        self.elements.push(element)
    }
}

impl<T: PartialEq> PartialEq for Items<T> {
    ghost use Rattle.std.specs.Cmp.Lexicographic.{pointwise, lists_per};

    ghost eq = { pointwise T.eq };

    ghost laws = { lists_per T.laws };

    fn eq(&self, other: &Items<T>) -> bool {
        self.elements == other.elements
    }
}

impl<T: Eq> Eq for Items<T> {
    ghost use Rattle.std.specs.Cmp.Lexicographic.{lists_equiv};

    ghost laws = { lists_equiv T.Eq.laws };
}
