//! A message, cut into the blocks of its padded form (FIPS 180-4, 5.1.1 and 5.2.1).
ghost use Rattle.std.specs.Prelude.{◌≡◌, ◌+◌, ◌-◌, ◌*◌, ◌/◌, ◌<◌, ◌≤◌, ◌++◌, ◌∷◌, length, replicate, take, drop};
ghost use Rattle.std.specs.Int.{w64, to_be_bytes};
ghost use Rattle.sha2.specs.Sha256.{padded_message};
ghost use Rattle.hash_lanes.specs.Lanes.{IsTail};

/// What of a message's padded form stands behind its whole blocks, and how many blocks it has in all.
#[derive(Clone, Copy)]
pub(crate) struct Tail {
    bytes: [u8; 128],
    pub(crate) blocks: usize,
}

// Writes the bytes behind a message's last whole block, and the padding, whose last part is the length in bits.
fn write_tail(rest: &[u8], bits: u64, tail: &mut [u8])
    requires { length rest.now + 9 ≤ length tail.old }
    ensures { tail.new ≡ rest.now ++ (0x80 ∷ replicate (length tail.old - (length rest.now + 9)) 0
        ++ to_be_bytes w64 bits) }
{
    let (front, back) = tail.split_at_mut(rest.len());
    front.copy_from_slice(rest);
    let (mark, behind) = back.split_at_mut(1);
    mark.fill(0x80);
    let (zeros, count) = behind.split_at_mut(behind.len() - 8);
    zeros.fill(0);
    count.copy_from_slice(&bits.to_be_bytes());
}

/// The tail of a message.
pub(crate) fn tail_of(message: &[u8]) -> Tail
    ensures { IsTail message.now result.bytes result.blocks }
{
    let whole = message.len() / 64;
    let rest = &message[64 * whole..];
    let bits = (message.len() as u64).wrapping_mul(8);
    let more = if rest.len() < 56 { 1 } else { 2 };
    let mut bytes = [0u8; 128];
    write_tail(rest, bits, &mut bytes[..64 * more]);
    Tail {
        bytes,
        blocks: whole + more,
    }
}

/// Block t of a message's padded form, and of a `t` past the last one some block.
pub(crate) fn block_at<'a>(message: &'a [u8], tail: &'a Tail, t: usize) -> &'a [u8]
    requires { IsTail message.now tail.now.bytes tail.now.blocks }
    ensures long { length result.now ≡ 64 }
    ensures block { t < tail.now.blocks → result.now ≡ take 64 (drop (t * 64) (padded_message message.now)) }
{
    let whole = message.len() / 64;
    if t < whole {
        return &message[64 * t..64 * t + 64];
    }
    if t == whole {
        return &tail.bytes[..64];
    }
    &tail.bytes[64..]
}
