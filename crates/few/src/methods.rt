// How a list is made, read and filled.
ghost use Rattle.std.specs.Prelude.{◌≡◌, ◌≤◌, [], length};
ghost use Rattle.std.specs.List.{AllZip};
ghost use Rattle.few.specs.Held.{held, Pushed};

use crate::list::{Few, Full};

impl<T: Copy, const N: usize> Few<T, N> {
    // No item. The value stands at places that say nothing.
    // Written out where it is called, since a list that is answered is copied item by item.
    #[inline(always)]
    pub fn new(blank: T) -> Few<T, N>
        ensures { held result ≡ [] }
    {
        Few {
            items: [blank; N],
            len: 0,
        }
    }

    // The items, in order.
    pub fn as_slice(&self) -> &[T]
        ensures items { result.now ≡ held self.now }
        ensures few { length result.now ≤ N }
    {
        let items = &self.items[..];
        &items[..self.len]
    }

    // What a function makes of each item, in order. The value stands at places that say nothing.
    pub fn map<B: Copy, F: Fn(T) -> B>(&self, blank: B, f: F) -> Few<B, N>
        requires { F.IsAlwaysCallable f }
        ensures { AllZip (F.post f) (held self.now) (held result) }
    {
        let mut items = [blank; N];
        for (place, item) in self.as_slice().iter().enumerate() {
            items[place] = f(*item);
        }
        Few {
            items,
            len: self.len,
        }
    }

    // Puts an item behind the others. Where there are N it changes nothing.
    pub fn push(&mut self, item: T) -> Result<(), Full>
        ensures { Pushed N (held self.old) item result (held self.new) }
    {
        if self.len >= N {
            return Err(Full);
        }
        self.items[self.len] = item;
        self.len += 1;
        Ok(())
    }
}
