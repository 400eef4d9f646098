//! The entry that selectors, loaders and computes return.
ghost use Rattle.std.specs.Prelude.{◌≡◌};
ghost use Rattle.std.specs.Arc.{arc_value};
ghost use Rattle.moka_model.specs.Entries.{entry_of, entry_with};

use std::sync::Arc;

/// A key with a clone of its value, and two flags that say how the value came to be stored.
///
/// Returned by selectors, loaders and computes.
#[derive(Debug, Drop)]
pub struct Entry<K, V> {
    key: Arc<K>,
    value: V,
    is_fresh: bool,
    is_old_value_replaced: bool,
}

impl<K, V> Entry<K, V> {
    /// Creates an entry from its key, its value and its two flags.
    pub fn new(key: Arc<K>, value: V, is_fresh: bool, is_old_value_replaced: bool) -> Self
        ensures { entry_of result
            ≡ entry_with (arc_value key) value is_fresh is_old_value_replaced }
    {
        Entry {
            key,
            value,
            is_fresh,
            is_old_value_replaced,
        }
    }

    /// Returns the key.
    pub fn key(&self) -> &K
        ensures { result.now ≡ (entry_of self.now).key }
    {
        &*self.key
    }

    /// Returns the value.
    pub fn value(&self) -> &V
        ensures { result.now ≡ (entry_of self.now).value }
    {
        &self.value
    }

    /// Returns whether the call that returned this entry wrote its value. A cache of capacity 0 does
    /// not store it.
    pub fn is_fresh(&self) -> bool
        ensures { result ≡ (entry_of self.now).fresh }
    {
        self.is_fresh
    }

    /// Returns whether a live value was replaced when this value was written.
    ///
    /// A compute goes by the value that was live when it began. A value that was only found replaced
    /// none.
    pub fn is_old_value_replaced(&self) -> bool
        ensures { result ≡ (entry_of self.now).replaced }
    {
        self.is_old_value_replaced
    }
}

impl<K: Drop, V> Entry<K, V> {
    /// Returns the value, without the key.
    pub fn into_value(self) -> V
        ensures { result ≡ (entry_of self).value }
    {
        let Entry { value, .. } = self;
        value
    }
}
