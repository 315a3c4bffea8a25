//! The key schedule (FIPS 197, 5.2).
ghost use Rattle.std.specs.Prelude.{◌≡◌, ℕ, ◌<◌, ◌≤◌};
ghost use Rattle.aes256.specs.Cipher.{key_words, s_box, step_of};
ghost use Rattle.aes256.specs.Planes.{AreRoundKeyPlanes};

use crate::planes::{Planes, spread, xor};
use std::simd::prelude::*;

/// The S-box (FIPS 197, 5.1.1) of one byte.
fn sub(b: u8) -> u8
    ensures { result ≡ s_box b }
{
    SBOX[b as usize]
}

/// What word i of the schedule adds to word i - 8, where word i - 1 is `w`.
fn step_of(i: usize, w: [u8; 4]) -> [u8; 4]
    requires low { 8 ≤ i }
    requires high { i < 60 }
    ensures { result ≡ step_of i w }
{
    if i % 8 == 0 {
        let constant = RCON[i / 8 - 1];
        [sub(w[1]) ^ constant, sub(w[2]), sub(w[3]), sub(w[0])]
    } else if i % 8 == 4 {
        [sub(w[0]), sub(w[1]), sub(w[2]), sub(w[3])]
    } else {
        w
    }
}

/// The bytes of all 60 words of the key schedule.
fn expand(key: &[u8; 32]) -> [u8; 240]
    ensures { result ≡ key_words key.now 52 }
{
    let mut words = [0u8; 240];
    words[..32].copy_from_slice(key);
    'words: for n in 0..52 {
        let i = n + 8;
        let before = [
            words[4 * n + 28],
            words[4 * n + 29],
            words[4 * n + 30],
            words[4 * n + 31],
        ];
        let step = step_of(i, before);
        let word = [
            words[4 * n] ^ step[0],
            words[4 * n + 1] ^ step[1],
            words[4 * n + 2] ^ step[2],
            words[4 * n + 3] ^ step[3],
        ];
        words[4 * n + 32..4 * n + 36].copy_from_slice(&word);
    }
    words
}

/// The round keys of a key, at each of the eight blocks alike. From round 1 on, {63} is added to each byte, since
/// `substitute` leaves it out.
pub(crate) fn round_keys(key: &[u8; 32]) -> [Planes; 15]
    ensures { AreRoundKeyPlanes result (key_words key.now 52) }
{
    let words = expand(key);
    let start = u8x16::from_slice(&words[..16]);
    let first = spread(start);
    let mut rounds = [first; 15];
    'rounds: for r in 1..15 {
        let bytes = u8x16::from_slice(&words[16 * r..16 * r + 16]);
        let raised = xor(bytes, u8x16::splat(0x63));
        rounds[r] = spread(raised);
    }
    rounds
}

/// The S-box (FIPS 197, figure 7).
#[rattlefmt::skip]
const SBOX: [u8; 256] = [
    99, 124, 119, 123, 242, 107, 111, 197, 48, 1, 103, 43, 254, 215, 171, 118, 202, 130, 201, 125,
    250, 89, 71, 240, 173, 212, 162, 175, 156, 164, 114, 192, 183, 253, 147, 38, 54, 63, 247, 204,
    52, 165, 229, 241, 113, 216, 49, 21, 4, 199, 35, 195, 24, 150, 5, 154, 7, 18, 128, 226, 235,
    39, 178, 117, 9, 131, 44, 26, 27, 110, 90, 160, 82, 59, 214, 179, 41, 227, 47, 132, 83, 209, 0,
    237, 32, 252, 177, 91, 106, 203, 190, 57, 74, 76, 88, 207, 208, 239, 170, 251, 67, 77, 51, 133,
    69, 249, 2, 127, 80, 60, 159, 168, 81, 163, 64, 143, 146, 157, 56, 245, 188, 182, 218, 33, 16,
    255, 243, 210, 205, 12, 19, 236, 95, 151, 68, 23, 196, 167, 126, 61, 100, 93, 25, 115, 96, 129,
    79, 220, 34, 42, 144, 136, 70, 238, 184, 20, 222, 94, 11, 219, 224, 50, 58, 10, 73, 6, 36, 92,
    194, 211, 172, 98, 145, 149, 228, 121, 231, 200, 55, 109, 141, 213, 78, 169, 108, 86, 244, 234,
    101, 122, 174, 8, 186, 120, 37, 46, 28, 166, 180, 198, 232, 221, 116, 31, 75, 189, 139, 138,
    112, 62, 181, 102, 72, 3, 246, 14, 97, 53, 87, 185, 134, 193, 29, 158, 225, 248, 152, 17, 105,
    217, 142, 148, 155, 30, 135, 233, 206, 85, 40, 223, 140, 161, 137, 13, 191, 230, 66, 104, 65,
    153, 45, 15, 176, 84, 187, 22,
];

/// The round constants (FIPS 197, 5.2): the powers of {02}.
const RCON: [u8; 7] = [1, 2, 4, 8, 16, 32, 64];
