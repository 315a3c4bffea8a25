//! A systematic Reed-Solomon code over the field of 256 elements: k pieces are dispersed into n shares, of which any k
//! give the pieces back.
//!
//! Pieces and shares are rows of one width that lie one after another: byte c of row j stands at place
//! `j * width + c`. In each column c there is one polynomial of degree below k, whose value at j is byte c of share j;
//! the shares below k are the pieces themselves.
#![tactic(auto)]

ghost use Rattle.std.specs.Prelude.{◌≡◌, ◌≢◌, ℕ, List, ◌+◌, ◌*◌, ◌/◌, ◌<◌, ◌≤◌, length, slice_index, bit_xor, All, IsTrue, ◌↔◌};
ghost use Rattle.cd_base.specs.declared.shape.Shape.{Shape};
ghost use Rattle.reed_solomon.specs.Interpolation.{ArePoints};
ghost use Rattle.reed_solomon.specs.Dispersal.{value_at, row, share_byte, share_of, Dispersed, AreChoice, AreSharesAt};

pub use cd_base::{Bytes, CloudNo, Ends, Fp, NoMemory, Shape, Tag, is_path, sha256, share_len};
use evaluation::{evaluate_rows, place_of};

mod evaluation;

const NUMBERS: [u8; 16] = [0, 1, 2, 3, 4, 5, 6, 7, 8, 9, 10, 11, 12, 13, 14, 15];

/// Disperses pieces into shares, and gets the pieces back from any k of them. No call takes memory or can fail.
#[derive(Clone, Copy)]
pub struct Coder {
    pub shape: Shape,
}

impl Coder {
    /// The coder of a shape.
    pub fn of(shape: Shape) -> Coder
        ensures { result.shape ≡ shape }
    {
        Coder { shape }
    }

    /// Writes the n shares of the k pieces of `given`, whose length is k times a width; that of `shares` is n times
    /// that width. Shares 0 to k-1 are the pieces.
    pub fn encode(&self, given: &[u8], shares: &mut [u8])
        requires whole { length given.now ≡ self.now.shape.k * (length given.now / self.now.shape.k) }
        requires room { length shares.old ≡ self.now.shape.n * (length given.now / self.now.shape.k) }
        ensures dispersed { Dispersed self.now.shape given.now shares.new }
        ensures rows { (j : ℕ) → j < self.now.shape.n
            → row (length given.now / self.now.shape.k) j shares.new ≡ share_of self.now.shape given.now j }
    {
        let width = given.len() / self.shape.k as usize;
        let points = NUMBERS;
        evaluate_rows(
            &points[..self.shape.k as usize],
            given,
            width,
            self.shape.n,
            shares,
        );
    }

    /// Writes the k pieces whose shares at the points are the rows of `pieces`: row t is the share with the number
    /// `points[t]`. The points are k different numbers below n, in any order, and both buffers have k times a width.
    /// Any k rows are the shares of some pieces, and of no others.
    pub fn decode(&self, points: &[u8], pieces: &[u8], out: &mut [u8])
        requires choice { AreChoice self.now.shape points.now }
        requires whole { length pieces.now ≡ self.now.shape.k * (length pieces.now / self.now.shape.k) }
        requires room { length out.old ≡ length pieces.now }
        // of a dispersal's shares the pieces
        ensures recovers { (original shares : List ℕ) → Dispersed self.now.shape original shares
            → AreSharesAt self.now.shape shares points.now pieces.now → out.new ≡ original }
        // of any bytes the pieces that have them for shares
        ensures shares { (t : ℕ) → t < self.now.shape.k
            → share_of self.now.shape out.new (slice_index points.now t)
            ≡ row (length pieces.now / self.now.shape.k) t pieces.now }
    {
        let width = pieces.len() / self.shape.k as usize;
        evaluate_rows(points, pieces, width, self.shape.k, out);
    }
}

/// Whether the points are k different numbers below n, as `Coder::decode` needs them.
pub fn are_choice(shape: Shape, points: &[u8]) -> bool
    ensures { IsTrue result ↔ AreChoice shape points.now }
{
    if points.len() != shape.k as usize {
        return false;
    }
    for t in 0..points.len() {
        if points[t] >= shape.n {
            return false;
        }
        if place_of(&points[..t], points[t]).is_some() {
            return false;
        }
    }
    true
}

/// The laws of the code. It does nothing: its clauses are theorems on the definitions.
pub fn code_laws()
    // two polynomials of degree below k with equal values at k points have the same coefficients
    ensures same_polynomial { (f g : List ℕ) (p : ℕ → ℕ) → length f ≡ length g → length f ≤ 256 → All (λ b. b < 256) f
        → All (λ b. b < 256) g → ArePoints (length f) p
        → ((i : ℕ) → i < length f → value_at f (p i) ≡ value_at g (p i)) → f ≡ g }
    // the pieces determine the shares
    ensures only_shares { (s : Shape) (pieces a b : List ℕ) → Dispersed s pieces a → Dispersed s pieces b → a ≡ b }
    // any k shares determine the pieces
    ensures any_shares { (s : Shape) (points p q : List ℕ) → AreChoice s points → length p ≡ length q
        → length p ≡ s.k * (length p / s.k) → All (λ b. b < 256) p → All (λ b. b < 256) q
        → ((t : ℕ) → t < s.k → share_of s p (slice_index points t) ≡ share_of s q (slice_index points t)) → p ≡ q }
    // the rows of a dispersal are the shares of its pieces
    ensures rows { (s : Shape) (pieces shares : List ℕ) (j : ℕ) → Dispersed s pieces shares → j < s.n
        → share_of s pieces j ≡ row (length pieces / s.k) j shares }
    // the shares below k are the pieces
    ensures systematic { (s : Shape) (pieces : List ℕ) (j : ℕ) → All (λ b. b < 256) pieces
        → length pieces ≡ s.k * (length pieces / s.k) → j < s.k
        → share_of s pieces j ≡ row (length pieces / s.k) j pieces }
    // of three pieces the next share is the sum
    ensures sum_of_three { (s : Shape) (pieces : List ℕ) (c : ℕ) → s.k ≡ 3 → All (λ b. b < 256) pieces
        → share_byte s pieces 3 c ≡ bit_xor (bit_xor (share_byte s pieces 0 c) (share_byte s pieces 1 c))
        (share_byte s pieces 2 c) }
{}
