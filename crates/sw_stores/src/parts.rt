ghost use Rattle.std.specs.Prelude.{◌≡◌, ◌++◌, ◌∷◌, [], length, map, zip, None, IfSome};

use std::marker::Model;

/// What locks stand over: the volume of each object lock, and the keeper of the container lock beside it. Contracts see the list of these pairs.
#[derive(Drop)]
pub struct Parts<V, K> {
    volumes: Vec<V>,
    keepers: Vec<K>,
}

impl<V, K> Model for Parts<V, K> {
    ghost use Rattle.std.specs.Prelude.{◌≡◌, List, length, zip};

    ghost Value = { List (V × K) };

    ghost view = { λ p. zip p.volumes.items p.keepers.items };

    ghost invariant = { λ p. length p.volumes.items ≡ length p.keepers.items };
}

impl<V: Drop, K: Drop> Parts<V, K> {
    /// These volumes, each beside its keeper. It takes no memory.
    pub fn of(volumes: Vec<V>, keepers: Vec<K>) -> Parts<V, K>
        requires { length volumes.items ≡ length keepers.items }
        ensures { result ≡ zip volumes.items keepers.items }
    {
        Parts { volumes, keepers }
    }

    /// How many pairs there are.
    pub fn len(&self) -> usize
        ensures { result ≡ length self.now }
    {
        self.volumes.len()
    }

    /// Takes the last pair out, where there is one.
    pub fn pop(&mut self) -> Option<(V, K)>
        ensures some { IfSome result (λ part. self.old ≡ self.new ++ part ∷ []) }
        ensures none { result ≡ None → self.old ≡ [] }
    {
        let volume = self.volumes.pop()?;
        match self.keepers.pop() {
            Some(keeper) => Some((volume, keeper)),
            None => unreachable!(),
        }
    }

    /// The volumes, and the keepers. It takes no memory.
    pub fn into_lists(self) -> (Vec<V>, Vec<K>)
        ensures volumes { result.0.items ≡ map (λ part. part.0) self }
        ensures keepers { result.1.items ≡ map (λ part. part.1) self }
    {
        (self.volumes, self.keepers)
    }
}
