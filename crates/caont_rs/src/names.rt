//! The names of files: a path goes through the same dispersal as a secret.

ghost use Rattle.std.specs.Prelude.{◌≡◌, ◌<◌, ◌++◌, length, OnOk, OnErr, IfOk};
ghost use Rattle.reed_solomon.specs.CdBase.Limits.{IsPath};
ghost use Rattle.caont_rs.specs.Package.{package_of, share, tag};

use crate::sealing::{disperse, seal};
use reed_solomon::{Bytes, CloudNo, NoMemory, Shape, Tag, sha256, share_len};
use std::alloc::Global;

/// Appends the name package of a path: the package of its bytes. For want of memory `out` is as before.
pub fn name_package(shape: Shape, path: &[u8], out: &mut Bytes) -> Result<(), NoMemory>
    requires path { IsPath path.now }
    ensures ok { OnOk result (out.new ≡ out.old ++ package_of shape path.now) }
    ensures err { OnErr result (out.new ≡ out.old) }
{
    let before = out.len();
    let width = share_len(shape, path.len() as u32) as usize;
    let sealed = shape.k() as usize * width;
    let Some(long) = before.checked_add(sealed) else {
        return Err(NoMemory);
    };
    out.resize(long, 0)?;
    seal(shape, path, &mut out.as_mut_slice()[before..]);
    Ok(())
}

/// The tag of a path: the SHA-256 of its name package, the same at each cloud.
pub fn tag_of(alloc: Global, shape: Shape, path: &[u8]) -> Result<Tag, NoMemory>
    requires path { IsPath path.now }
    ensures { IfOk result (λ answer. answer.0 ≡ tag shape path.now) }
{
    let mut sealed = Bytes::new(alloc);
    name_package(shape, path, &mut sealed)?;
    Ok(Tag(sha256(sealed.as_slice()).0))
}

/// Appends the name share of a path at a cloud: the share of its name package with the cloud's number. For want of
/// memory `out` is as before.
pub fn name_share(
    alloc: Global,
    shape: Shape,
    cloud: CloudNo,
    path: &[u8],
    out: &mut Bytes,
) -> Result<(), NoMemory>
    requires path { IsPath path.now }
    requires cloud { cloud.0 < shape.n }
    ensures ok { OnOk result (out.new ≡ out.old ++ share shape cloud.0 path.now) }
    ensures err { OnErr result (out.new ≡ out.old) }
{
    let mut shares = Bytes::new(alloc);
    disperse(shape, path, &mut shares)?;
    let width = share_len(shape, path.len() as u32) as usize;
    let start = cloud.0 as usize * width;
    out.extend(&shares.as_slice()[start..start + width])
}
