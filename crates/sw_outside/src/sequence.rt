ghost use Rattle.std.specs.Prelude.{◌≡◌, [], ◌∷◌, ◌++◌, IfOk, IfSome, IsNone, OnOk, OnErr};

use crate::errors::NoMemory;
use std::alloc::Global;
use std::marker::Model;

/// What can be copied where there is memory for it.
pub trait TryCopy: Drop {
    /// A value that is equal to this one, or [`NoMemory`].
    fn try_copy(&self, alloc: Global) -> Result<Self, NoMemory>
        ensures { IfOk result (λ copy. copy ≡ self.now) };
}

/// Items in order. Contracts see the list of them.
#[derive(Debug, Drop)]
pub struct Sequence<T> {
    vec: Vec<T>,
}

impl<T> Model for Sequence<T> {
    ghost use Rattle.std.specs.Prelude.{List};

    ghost Value = { List T };

    ghost view = { λ s. s.vec.items };
}

impl<T> Sequence<T> {
    pub fn as_slice(&self) -> &[T]
        ensures { result.now ≡ self.now }
    {
        &self.vec
    }
}

impl<T: Drop> Sequence<T> {
    /// A list of no items. It takes no memory.
    pub fn new(alloc: Global) -> Sequence<T>
        ensures { result ≡ [] }
    {
        Sequence {
            vec: Vec::new(alloc),
        }
    }

    /// Adds an item behind the others. After [`NoMemory`] nothing has changed.
    pub fn push(&mut self, item: T) -> Result<(), NoMemory>
        ensures ok { OnOk result (self.new ≡ self.old ++ item ∷ []) }
        ensures err { OnErr result (self.new ≡ self.old) }
    {
        self.vec.push(item)?;
        Ok(())
    }

    /// Takes the last item away.
    pub fn pop(&mut self) -> Option<T>
        ensures some { IfSome result (λ item. self.old ≡ self.new ++ item ∷ []) }
        ensures none { IsNone result → (self.old ≡ []) × (self.new ≡ []) }
    {
        self.vec.pop()
    }
}

impl<T: TryCopy> Sequence<T> {
    /// A list that is equal to this one, or [`NoMemory`].
    pub fn copy(&self, alloc: Global) -> Result<Sequence<T>, NoMemory>
        ensures { IfOk result (λ copy. copy ≡ self.now) }
    {
        Ok(Sequence {
            vec: copy_each(alloc, &self.vec)?,
        })
    }
}

/// Copies of these items, in their order.
fn copy_each<T: TryCopy>(alloc: Global, list: &[T]) -> Result<Vec<T>, NoMemory>
    ensures { IfOk result (λ copies. copies.items ≡ list.now) }
{
    let mut copies = Vec::with_capacity(alloc, list.len())?;
    for item in list {
        copies.push(item.try_copy(alloc)?)?;
    }
    Ok(copies)
}

impl<T: TryCopy> TryCopy for Sequence<T> {
    fn try_copy(&self, alloc: Global) -> Result<Sequence<T>, NoMemory> {
        self.copy(alloc)
    }
}

impl TryCopy for u8 {
    fn try_copy(&self, _alloc: Global) -> Result<u8, NoMemory> {
        Ok(*self)
    }
}

impl TryCopy for u64 {
    fn try_copy(&self, _alloc: Global) -> Result<u64, NoMemory> {
        Ok(*self)
    }
}

/// Moves the list: no memory is taken.
impl<T> From<Vec<T>> for Sequence<T> {
    ghost from_gives = { λ vec list. list ≡ vec.items };

    fn from(vec: Vec<T>) -> Sequence<T> {
        Sequence { vec }
    }
}

/// Gives the list back: no memory is taken.
impl<T> From<Sequence<T>> for Vec<T> {
    ghost from_gives = { λ list vec. vec.items ≡ list };

    fn from(list: Sequence<T>) -> Vec<T> {
        list.vec
    }
}
