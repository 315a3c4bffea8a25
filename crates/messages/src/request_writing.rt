//! Writing a request.

ghost use Rattle.std.specs.Prelude.{◌≡◌, ◌∷◌, ◌++◌, ◌≤◌, length, take, All, OnOk, OnErr, IsTrue, ◌↔◌};
ghost use Rattle.std.specs.List.{flat_map};
ghost use Rattle.std.specs.Int.{w32, to_be_bytes};
ghost use Rattle.message_fields.specs.Fingerprints.{fps_bytes, batch_limit};
ghost use Rattle.message_fields.specs.Shares.{share_bytes, shares_bytes, share_limit};
ghost use Rattle.message_fields.specs.Keys.{key_bytes};
ghost use Rattle.messages.specs.Parts.{after_bytes};
ghost use Rattle.messages.specs.Requests.{AreFew, IsWritable, request_bytes};

use crate::Request;
use message_fields::{BATCH_LIMIT, Bytes, Fp, NoMemory, SHARE_LIMIT, Tag, UserId, Version};

// Whether each share is short enough.
fn are_short(shares: &[Bytes]) -> bool
    ensures { IsTrue result ↔ All (λ share. length share ≤ share_limit) shares.now }
{
    shares.iter().all(|share| share.len() <= SHARE_LIMIT)
}

/// Whether there are no more shares than one message has, and none is too long.
fn are_few(shares: &[Bytes]) -> bool
    ensures { IsTrue result ↔ AreFew shares.now }
{
    shares.len() <= BATCH_LIMIT && are_short(shares)
}

// Each of these appends; for want of memory a part may stand there.

fn put_head(out: &mut Bytes, kind: u8, user: UserId) -> Result<(), NoMemory>
    ensures ok { OnOk result (out.new ≡ out.old ++ (kind ∷ to_be_bytes w32 user.0)) }
    ensures err { OnErr result (take (length out.old) out.new ≡ out.old) }
{
    out.push(kind)?;
    out.extend(&user.0.to_be_bytes())
}

fn put_each_fp(out: &mut Bytes, fps: &[Fp]) -> Result<(), NoMemory>
    ensures ok { OnOk result (out.new ≡ out.old ++ flat_map (λ fp. fp.0) fps.now) }
    ensures err { OnErr result (take (length out.old) out.new ≡ out.old) }
{
    for fp in fps {
        out.extend(&fp.0)?;
    }
    Ok(())
}

fn put_fps(out: &mut Bytes, fps: &[Fp]) -> Result<(), NoMemory>
    requires { length fps.now ≤ batch_limit }
    ensures ok { OnOk result (out.new ≡ out.old ++ fps_bytes fps.now) }
    ensures err { OnErr result (take (length out.old) out.new ≡ out.old) }
{
    out.extend(&(fps.len() as u16).to_be_bytes())?;
    put_each_fp(out, fps)
}

fn put_share(out: &mut Bytes, share: &Bytes) -> Result<(), NoMemory>
    requires { length share.now ≤ share_limit }
    ensures ok { OnOk result (out.new ≡ out.old ++ share_bytes share.now) }
    ensures err { OnErr result (take (length out.old) out.new ≡ out.old) }
{
    out.extend(&(share.len() as u32).to_be_bytes())?;
    out.extend(share.as_slice())
}

fn put_each_share(out: &mut Bytes, shares: &[Bytes]) -> Result<(), NoMemory>
    requires { All (λ share. length share ≤ share_limit) shares.now }
    ensures ok { OnOk result (out.new ≡ out.old ++ flat_map share_bytes shares.now) }
    ensures err { OnErr result (take (length out.old) out.new ≡ out.old) }
{
    for share in shares {
        put_share(out, share)?;
    }
    Ok(())
}

fn put_shares(out: &mut Bytes, shares: &[Bytes]) -> Result<(), NoMemory>
    requires { AreFew shares.now }
    ensures ok { OnOk result (out.new ≡ out.old ++ shares_bytes shares.now) }
    ensures err { OnErr result (take (length out.old) out.new ≡ out.old) }
{
    out.extend(&(shares.len() as u16).to_be_bytes())?;
    put_each_share(out, shares)
}

fn put_key(out: &mut Bytes, tag: &Tag, version: Version) -> Result<(), NoMemory>
    ensures ok { OnOk result (out.new ≡ out.old ++ key_bytes (tag.now, version)) }
    ensures err { OnErr result (take (length out.old) out.new ≡ out.old) }
{
    out.extend(&tag.0)?;
    out.extend(&version.0.to_be_bytes())
}

fn put_after(out: &mut Bytes, after: &Option<(Tag, Version)>) -> Result<(), NoMemory>
    ensures ok { OnOk result (out.new ≡ out.old ++ after_bytes after.now) }
    ensures err { OnErr result (take (length out.old) out.new ≡ out.old) }
{
    match after {
        None => out.push(0),
        Some((tag, version)) => {
            out.push(1)?;
            put_key(out, tag, *version)
        }
    }
}

fn put_request(out: &mut Bytes, request: &Request) -> Result<(), NoMemory>
    requires { IsWritable request.now }
    ensures ok { OnOk result (out.new ≡ out.old ++ request_bytes request.now) }
    ensures err { OnErr result (take (length out.old) out.new ≡ out.old) }
{
    match request {
        Request::Hello => out.push(1),
        Request::Query { user, fps } => {
            put_head(out, 2, *user)?;
            put_fps(out, fps.as_slice())
        }
        Request::Put { user, shares } => {
            put_head(out, 3, *user)?;
            put_shares(out, shares.as_slice())
        }
        Request::Commit {
            user,
            tag,
            version,
            recipe,
        } => {
            put_head(out, 4, *user)?;
            put_key(out, tag, *version)?;
            out.extend(recipe.as_slice())
        }
        Request::GetRecipe { user, tag, version } => {
            put_head(out, 5, *user)?;
            put_key(out, tag, *version)
        }
        Request::GetShares { user, fps } => {
            put_head(out, 6, *user)?;
            put_fps(out, fps.as_slice())
        }
        Request::List { user, after } => {
            put_head(out, 7, *user)?;
            put_after(out, after)
        }
        Request::Delete { user, tag, version } => {
            put_head(out, 8, *user)?;
            put_key(out, tag, *version)
        }
    }
}

impl Request {
    /// Whether no list is longer than one message has it, 256 items and shares of 8,208 bytes.
    pub fn is_writable(&self) -> bool
        ensures { IsTrue result ↔ IsWritable self.now }
    {
        match self {
            Request::Query { fps, .. } => fps.len() <= BATCH_LIMIT,
            Request::Put { shares, .. } => are_few(shares.as_slice()),
            Request::GetShares { fps, .. } => fps.len() <= BATCH_LIMIT,
            Request::Hello => true,
            Request::Commit { .. } => true,
            Request::GetRecipe { .. } => true,
            Request::List { .. } => true,
            Request::Delete { .. } => true,
        }
    }

    /// Appends the one spelling of the request. For want of memory nothing changes. It asks that no list is longer than one
    /// message has it: 256 items, and shares of 8,208 bytes. A request whose other fields keep their ranges too is read again.
    pub fn write(&self, out: &mut Bytes) -> Result<(), NoMemory>
        requires { IsWritable self.now }
        ensures ok { OnOk result (out.new ≡ out.old ++ request_bytes self.now) }
        ensures err { OnErr result (out.new ≡ out.old) }
    {
        let len = out.len();
        let done = put_request(out, self);
        if done.is_err() {
            out.truncate(len);
        }
        done
    }
}
