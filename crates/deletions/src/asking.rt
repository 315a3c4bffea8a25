//! The request.

ghost use Rattle.std.specs.Prelude.{IfOk};
ghost use Rattle.caont_rs.specs.Package.{tag};
ghost use Rattle.transcript.specs.CdBase.Limits.{IsPath};
ghost use Rattle.messages.specs.Frames.Frames.{IsContent};
ghost use Rattle.messages.specs.declared.request.Request.TheVariants as requests;
ghost use Rattle.messages.specs.Requests.{IsRequest};

use caont_rs::tag_of;
use messages::Request;
use std::alloc::Global;
use transcript::{Bytes, NoMemory, Shape, UserId, Version};

/// The content of the Delete of a version of a user's file, 45 bytes: by the tag that its path has in a store of this shape.
/// It takes memory for the path's share and for the content.
pub fn delete_request(
    alloc: Global,
    shape: Shape,
    user: UserId,
    path: &[u8],
    version: Version,
) -> Result<Bytes, NoMemory>
    requires path { IsPath path.now }
    ensures asks { IfOk result (λ content. IsRequest content
        (requests.Delete user (record { 0 = tag shape path.now }) version)) }
    ensures framed { IfOk result IsContent }
{
    let tag = tag_of(alloc, shape, path)?;
    let mut content = Bytes::new(alloc);
    Request::Delete { user, tag, version }.write(&mut content)?;
    Ok(content)
}
