// Values in a slab, each found by its name in a hash map.
ghost use Rattle.std.specs.Prelude.{◌≡◌, [], Some, None, OnOk, OnErr};
ghost use Rattle.std.specs.Borrow.{sem};
ghost use Rattle.std.specs.Option.{option_copied, option_copied_mut};
ghost use Rattle.pgraph.specs.Shelf.{value_of, SetsValue};
ghost use Rattle.pgraph.specs.Lending.{LendsValue};

use slab::Slab;
use std::alloc::{AllocError, Global};
use std::collections::HashMap;
use std::hash::Hash;
use std::marker::Model;

// Contracts see the values with their names, in an order that isn't told.
#[derive(Drop)]
pub(crate) struct Shelf<K: Ord + Hash, V> {
    keys: HashMap<K, usize>,
    values: Slab<V>,
}

impl<K: Ord + Hash, V> Model for Shelf<K, V> {
    ghost use Rattle.std.specs.Prelude.{List};
    ghost use Rattle.pgraph.specs.Shelf.{shelved, AreShelved};

    ghost Value = { List (K × V) };

    ghost view = { λ s. shelved s.values s.keys.entries };

    ghost invariant = { λ s. AreShelved K.cmp s.values s.keys.entries };
}

impl<K: Ord + Hash + Copy, V: Drop> Shelf<K, V> {
    // No values. It allocates nothing.
    pub(crate) fn new(alloc: Global) -> Shelf<K, V>
        ensures { result ≡ [] }
    {
        Shelf {
            keys: HashMap::new(alloc),
            values: Slab::new(alloc),
        }
    }

    // The value of a name, if it has one.
    pub(crate) fn get(&self, name: K) -> Option<&V>
        ensures { option_copied result ≡ value_of K.cmp self.now name }
    {
        let key = *self.keys.get(&name)?;
        self.values.get(key)
    }

    // The value of a name, if it has one, to be changed there.
    pub(crate) fn get_mut(&mut self, name: K) -> Option<&mut V>
        ensures* lends { sem 𝓛 (LendsValue K.row V.row K.Ord K.Hash self.entry name result) }
        ensures value { option_copied_mut result ≡ value_of K.cmp self.old name }
    {
        let key = *self.keys.get(&name)?;
        self.values.get_mut(key)
    }

    // Gives a name its value.
    pub(crate) fn insert(&mut self, name: K, value: V) -> Result<(), AllocError>
        requires { value_of K.cmp self.old name ≡ None }
        ensures ok { OnOk result (SetsValue K.cmp self.old self.new name (Some value)) }
        ensures err { OnErr result (self.new ≡ self.old) }
    {
        self.values.reserve(1)?;
        let key = self.values.vacant_key();
        self.keys.insert(name, key)?;
        self.values.insert_reserved(value);
        Ok(())
    }

    // Takes the value of a name, if it has one.
    pub(crate) fn remove(&mut self, name: K) -> Option<V>
        ensures value { result ≡ value_of K.cmp self.old name }
        ensures taken { SetsValue K.cmp self.old self.new name None }
    {
        let key = self.keys.remove(&name)?;
        self.values.try_remove(key)
    }
}
