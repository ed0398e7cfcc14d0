// Values that are held in place.
ghost use Rattle.std.specs.Prelude.{◌≡◌, ◌<◌, ◌≤◌, ⊤, [], ◌∷◌, ◌++◌, length};

use std::alloc::AllocError;

/// Up to `N` values, held in place.
pub(crate) struct Held<T, const N: usize> {
    // those that are held stand in front, and blanks behind them
    values: [T; N],
    len: usize,
    ghost fits: { len ≤ N },
}

// both by hand: neither can be derived for a struct with an invariant and a type parameter
impl<T: Copy, const N: usize> Clone for Held<T, N> {
    ghost is_clone = { λ from to. to ≡ from };

    ghost is_infallible = { λ _. ⊤ };

    fn clone(&self) -> Result<Self, AllocError> {
        Ok(*self)
    }
}

impl<T: Copy, const N: usize> Copy for Held<T, N> {}

impl<T: Copy, const N: usize> Held<T, N> {
    ghost use Rattle.station.specs.Held.{held};

    /// None so far.
    pub(crate) fn none(blank: T) -> Held<T, N>
        ensures { held result ≡ [] }
    {
        Held {
            values: [blank; N],
            len: 0,
        }
    }

    /// A copy of `values`.
    pub(crate) fn copied(values: &[T], blank: T) -> Held<T, N>
        requires { length values.now ≤ N }
        ensures { held result ≡ values.now }
    {
        let mut copy = [blank; N];
        let places = &mut copy[..];
        places[0..values.len()].copy_from_slice(values);
        Held {
            values: copy,
            len: values.len(),
        }
    }

    /// One more.
    pub(crate) fn push(&mut self, value: T)
        requires { length (held self.old) < N }
        ensures { held self.new ≡ held self.old ++ (value ∷ []) }
    {
        self.values[self.len] = value;
        self.len += 1;
    }

    pub(crate) fn as_slice(&self) -> &[T]
        ensures { result.now ≡ held self.now }
    {
        let places = &self.values[..];
        &places[0..self.len]
    }
}
