//! The laws of a mask, for the proofs of callers. The calls do nothing.
ghost use Rattle.std.specs.Prelude.{◌≡◌, ℕ, ◌/◌, ◌%◌, ◌<◌, ◌≤◌, length, slice_index, take};
ghost use Rattle.std.specs.List.{All};
ghost use Rattle.aes256.specs.Cipher.{added, cipher};
ghost use Rattle.aes256.specs.Mask.{counter_block, mask};

/// A mask has the length that is asked for.
pub fn mask_is_as_long(h: &[u8; 32], len: usize)
    ensures { length (mask h.now len) ≡ len }
{}

/// Each item of a mask is a byte.
pub fn mask_has_bytes(h: &[u8; 32], len: usize)
    ensures { All (λ b. b < 256) (mask h.now len) }
{
    mask_is_as_long(h, len);
}

/// Byte i of a mask is byte i % 16 of the cipher text of the counter i / 16.
pub fn mask_byte_at(h: &[u8; 32], len: usize, i: usize)
    requires { i < len }
    ensures { slice_index (mask h.now len) i ≡ slice_index (cipher h.now (counter_block (i / 16))) (i % 16) }
{}

/// A mask begins each longer mask of its key.
pub fn mask_begins_longer(h: &[u8; 32], len: usize, longer: usize)
    requires { len ≤ longer }
    ensures { take len (mask h.now longer) ≡ mask h.now len }
{}

/// A mask that is added twice leaves the text as it was.
pub fn mask_undoes_itself(h: &[u8; 32], text: &[u8])
    ensures { let mask = mask h.now (length text.now) in added (added text.now mask) mask ≡ text.now }
{}
