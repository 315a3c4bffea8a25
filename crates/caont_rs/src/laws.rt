//! The laws of the dispersal, for the proofs of callers. The calls do nothing: their clauses are theorems on the
//! definitions.

ghost use Rattle.std.specs.Prelude.{◌≡◌, ◌≢◌, ◌↔◌, ℕ, List, ◌+◌, ◌*◌, ◌/◌, ◌<◌, ◌≤◌, length, take, slice_index, All};
ghost use Rattle.reed_solomon.specs.CdBase.shape.Shape.{Shape};
ghost use Rattle.reed_solomon.specs.CdBase.Lengths.{share_len_of};
ghost use Rattle.reed_solomon.specs.CdBase.Limits.{IsPath};
ghost use Rattle.sha2.specs.Sha256.{sha256};
ghost use Rattle.reed_solomon.specs.Dispersal.{AreChoice, row, share_of};
ghost use Rattle.caont_rs.specs.Package.{padded, pad_len, package_of, share};
ghost use Rattle.caont_rs.specs.Opening.{package_at, key_in, text_in, fp, opened_package, opened};

use crate::RecoverErr;

/// Packages and shares.
pub fn sharing_laws()
    // a padded text and 32 bytes are cut into k equal pieces
    ensures padded_length { (s : Shape) (text : List ℕ)
        → length (padded s text) + 32 ≡ s.k * share_len_of s.k (length text) }
    // and fewer zero bytes don't do
    ensures fewest { (s : Shape) (len zeroes m : ℕ) → len + zeroes + 32 ≡ s.k * m → pad_len s.k len ≤ zeroes }
    ensures package_length { (s : Shape) (text : List ℕ)
        → length (package_of s text) ≡ s.k * share_len_of s.k (length text) }
    ensures share_length { (s : Shape) (j : ℕ) (text : List ℕ)
        → length (share s j text) ≡ share_len_of s.k (length text) }
    // the shares below k are the package's pieces
    ensures pieces { (s : Shape) (j : ℕ) (text : List ℕ) → All (λ b. b < 256) text → j < s.k
        → share s j text ≡ row (share_len_of s.k (length text)) j (package_of s text) }
    // two paths have two padded texts
    ensures names_apart { (s : Shape) (p q : List ℕ) → IsPath p → IsPath q → padded s p ≡ padded s q → p ≡ q }
{}

/// What shares give.
pub fn opening_laws()
    // any k shares of a text, in any order, give it back
    ensures gives_back { (s : Shape) (text points given : List ℕ) → AreChoice s points → All (λ b. b < 256) text
        → All (λ b. b < 256) given → length given ≡ s.k * share_len_of s.k (length text)
        → ((t : ℕ) → t < s.k → row (share_len_of s.k (length text)) t given ≡ share s (slice_index points t) text)
        → opened s (length text) points given ≡ Ok text }
    // k given rows give a text exactly where it is as long as asked and they are its shares
    ensures exactly { (s : Shape) (len : ℕ) (text points given : List ℕ) → AreChoice s points → All (λ b. b < 256) text
        → All (λ b. b < 256) given → length given ≡ s.k * share_len_of s.k len
        → (opened s len points given ≡ Ok text) ↔ ((length text ≡ len)
        × ((t : ℕ) → t < s.k → row (share_len_of s.k len) t given ≡ share s (slice_index points t) text)) }
    // k given rows are the shares of one package, and of no other
    ensures has_shares { (s : Shape) (points given : List ℕ) → AreChoice s points → All (λ b. b < 256) given
        → length given ≡ s.k * (length given / s.k) → (t : ℕ) → t < s.k
        → share_of s (package_at s points given) (slice_index points t) ≡ row (length given / s.k) t given }
    ensures only_one { (s : Shape) (points given p : List ℕ) → AreChoice s points → All (λ b. b < 256) given
        → All (λ b. b < 256) p → length given ≡ s.k * (length given / s.k) → length p ≡ length given
        → ((t : ℕ) → t < s.k → share_of s p (slice_index points t) ≡ row (length given / s.k) t given)
        → p ≡ package_at s points given }
    // shares give what that package gives
    ensures by_package { (s : Shape) (len : ℕ) (points given : List ℕ)
        → opened s len points given ≡ opened_package len (package_at s points given) }
    // another hash, whatever the pad is
    ensures bad_secret { (len : ℕ) (p : List ℕ) → sha256 (text_in p) ≢ key_in p
        → opened_package len p ≡ Err (RecoverErr.BadSecret (fp (key_in p)) (fp (sha256 (text_in p)))) }
    // the first byte of the pad that isn't zero
    ensures bad_pad { (len : ℕ) (p : List ℕ) (at : ℕ) → sha256 (text_in p) ≡ key_in p → len ≤ at
        → at < length (text_in p) → slice_index (text_in p) at ≢ 0
        → ((i : ℕ) → len ≤ i → i < at → slice_index (text_in p) i ≡ 0)
        → opened_package len p ≡ Err (RecoverErr.BadPad at (slice_index (text_in p) at)) }
    ensures whole { (len : ℕ) (p : List ℕ) → sha256 (text_in p) ≡ key_in p
        → ((i : ℕ) → len ≤ i → slice_index (text_in p) i ≡ 0) → opened_package len p ≡ Ok (take len (text_in p)) }
{}
