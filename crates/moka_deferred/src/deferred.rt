//! A slot for what a step no longer needs.
ghost use Rattle.std.specs.Prelude.{◌≡◌, true, false, Some, None};

/// A slot for what a step no longer needs. It drops such an item at once, or keeps it until it is
/// taken, so that no lock is held when it is dropped.
#[derive(Drop)]
pub struct Deferred<T: Drop> {
    is_deferring: bool,
    item: Option<T>,
}

impl<T: Drop> Deferred<T> {
    /// Creates an empty slot that drops each item at once. Does not allocate.
    pub fn new() -> Self
        ensures { result ≡ record { is_deferring = false; item = None } }
    {
        Deferred {
            is_deferring: false,
            item: None,
        }
    }

    /// Keeps items from now on.
    pub fn defer(&mut self)
        ensures { self.new ≡ record self.old { is_deferring = true } }
    {
        self.is_deferring = true;
    }

    /// Drops an item at once, or keeps it in place of the one that is kept.
    #[inline(always)]
    pub fn discard(&mut self, item: T)
        ensures kept { self.old.is_deferring ≡ true
            → self.new ≡ record self.old { item = Some item } }
        ensures dropped { self.old.is_deferring ≡ false → self.new ≡ self.old }
    {
        if self.is_deferring {
            self.item = Some(item);
        }
    }

    /// Returns the item that is kept, if there is one. The slot is empty then.
    #[inline(always)]
    pub fn take(&mut self) -> Option<T>
        ensures item { result ≡ self.old.item }
        ensures rest { self.new ≡ record self.old { item = None } }
    {
        self.item.take()
    }
}
