//! The shape of a store.

ghost use Rattle.std.specs.Prelude.{◌≡◌, ◌<◌, ◌≤◌, MatchOption};

/// A store of n clouds, any k of which give a file back. The numbers obey `2 <= k < n <= 16`.
#[derive(Clone, Copy, PartialEq, Eq)]
pub struct Shape {
    /// How many clouds there are.
    pub n: u8,
    /// How many of them give a file back.
    pub k: u8,
    pub ghost several: { 2 ≤ k },
    pub ghost spare: { k < n },
    pub ghost few: { n ≤ 16 },
}

impl Shape {
    /// The shape of n clouds and k needed ones. None exactly outside `2 <= k < n <= 16`.
    pub fn of(n: u8, k: u8) -> Option<Shape>
        ensures { MatchOption result (¬ ((2 ≤ k) × (k < n) × (n ≤ 16))) (λ shape. (shape.n ≡ n) × (shape.k ≡ k)
            × (2 ≤ k) × (k < n) × (n ≤ 16)) }
    {
        if 2 <= k && k < n && n <= 16 {
            Some(Shape { n, k })
        } else {
            None
        }
    }

    /// How many clouds there are.
    pub fn n(self) -> u8
        ensures { result ≡ self.n }
    {
        self.n
    }

    /// How many of the clouds give a file back.
    pub fn k(self) -> u8
        ensures { result ≡ self.k }
    {
        self.k
    }
}
