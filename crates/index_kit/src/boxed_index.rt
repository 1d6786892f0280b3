// An index in a box is an index, whose kind isn't told.
use crate::index::Index;
use mont_base::Text;
use std::alloc::AllocError;

impl Index for Box<dyn Index + Send> {
    ghost places = { λ b. (Index-box b).places b.value };

    ghost spare = { λ b. (Index-box b).spare b.value };

    fn len(&self) -> u64 {
        (**self).len()
    }

    fn find(&self, key: Text) -> Option<u64> {
        (**self).find(key)
    }

    fn reserve(&mut self) -> Result<(), AllocError> {
        (**self).reserve()
    }

    fn put(&mut self, key: Text, place: u64) -> Option<u64> {
        (**self).put(key, place)
    }

    fn remove(&mut self, key: Text) -> Option<u64> {
        (**self).remove(key)
    }
}
