//! Ends of known files, fed in pieces of many sizes.

use cd_base::{Ends, NoMemory};
use rabin_chunker::Chunker;
use std::alloc::{AllocError, Global};
use std::test::Fail;

// `count` bytes of no pattern: the low bytes of xorshift64 from 0x9e3779b97f4a7c15.
fn stream(alloc: Global, count: usize) -> Result<Vec<u8>, AllocError> {
    let mut bytes = Vec::new(alloc);
    let mut state: u64 = 0x9e37_79b9_7f4a_7c15;
    for _ in 0..count {
        state ^= state << 13;
        state ^= state >> 7;
        state ^= state << 17;
        bytes.push((state % 256) as u8)?;
    }
    Ok(bytes)
}

// Feeds a file in pieces of `size` bytes.
fn feed_by(
    chunker: &mut Chunker,
    cuts: &mut Ends,
    bytes: &[u8],
    size: usize,
) -> Result<(), NoMemory> {
    let mut rest = bytes;
    for _ in 0..bytes.len() {
        let (piece, others) = rest.split_at(size.min(rest.len()));
        if chunker.bytes_fed() < 1 << 62 && piece.len() < 1 << 62 {
            chunker.feed(piece, cuts)?;
        }
        rest = others;
    }
    Ok(())
}

// The ends of a file that is fed in pieces of `size` bytes.
fn ends_by(cuts: &mut Ends, bytes: &[u8], size: usize) -> Result<(), NoMemory> {
    let mut chunker = Chunker::new();
    feed_by(&mut chunker, cuts, bytes, size)?;
    chunker.finish(cuts)
}

// The digest FNV-1a of 64 bits of places, each as 8 bytes with the highest first.
fn digest_of(ends: &[u64]) -> u64 {
    let mut digest: u64 = 0xcbf2_9ce4_8422_2325;
    for end in ends {
        for byte in end.to_be_bytes() {
            digest = (digest ^ byte as u64).wrapping_mul(0x0100_0000_01b3);
        }
    }
    digest
}

// The ends of 1 MiB of the stream are 115, and their digest is that of this Python program. It finds each fingerprint
// from scratch, as `int % modulus` over GF(2):
//
//     P = 0x3DA3358B4DC173
//     def fingerprint(window):
//         v = int.from_bytes(window, 'big')
//         for i in range(383, 52, -1):
//             if v >> i & 1: v ^= P << (i - 53)
//         return v
//     def ends(B):
//         out, s = [], 0
//         while s < len(B):
//             e = min(s + 2048, len(B))
//             while e < len(B) and not (fingerprint(B[e - 48:e]) % 8192 == 8191 or e - s == 16384): e += 1
//             out.append(e); s = e
//         return out
fn are_ends(alloc: Global, bytes: &[u8], size: usize) -> Result<bool, NoMemory> {
    let mut cuts = Ends::new(alloc);
    ends_by(&mut cuts, bytes, size)?;
    Ok(cuts.len() == 115 && digest_of(cuts.as_slice()) == 0xf50a_3309_60b6_4242)
}

static SIZES: [usize; 6] = [2_000_000, 1, 47, 48, 49, 2047];

fn are_all_ends(alloc: Global, bytes: &[u8]) -> Result<bool, NoMemory> {
    let mut well = true;
    for size in &SIZES {
        well = are_ends(alloc, bytes, *size)? && well;
    }
    Ok(well)
}

#[test]
fn ends_of_python(rt: HostRuntime) -> Result<(), Fail> {
    let bytes = stream(rt.alloc(), 1 << 20)?;
    let well = are_all_ends(rt.alloc(), &bytes);
    drop(bytes);
    assert!(rt; well?);
    Ok(())
}
