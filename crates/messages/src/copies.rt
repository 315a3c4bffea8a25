//! Copies of what stands in content.

ghost use Rattle.std.specs.Prelude.{◌≡◌, IfOk};

use message_fields::{Bytes, NoMemory, ShareList, SharesView};
use std::alloc::Global;

/// A copy of bytes.
pub fn bytes_copy(alloc: Global, bytes: &[u8]) -> Result<Bytes, NoMemory>
    ensures { IfOk result (λ copy. copy ≡ bytes.now) }
{
    let mut copy = Bytes::new(alloc);
    copy.extend(bytes)?;
    Ok(copy)
}

/// A copy of shares.
pub fn shares_copy(alloc: Global, view: &SharesView<'_>) -> Result<ShareList, NoMemory>
    ensures { IfOk result (λ copy. copy ≡ view.now) }
{
    let mut copy = ShareList::new(alloc);
    let mut rest = view.copied();
    for _i in 0..view.len() {
        let Some((share, others)) = rest.split_first() else {
            return Ok(copy);
        };
        copy.push(bytes_copy(alloc, share)?)?;
        rest = others;
    }
    Ok(copy)
}
