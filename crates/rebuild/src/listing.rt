//! The keys of a user's entries at a cloud, page by page.

ghost use Rattle.std.specs.Prelude.{◌≡◌, ◌≤◌, ◌<◌, ◌^◌, ◌∷◌, [], ℕ, length, IsTrue, IfOk, IfErr, Ok, OnErr, Err, None};
ghost use Rattle.lane_steps.specs.CdBase.Reading.{AreBytes};
ghost use Rattle.lane_steps.specs.Frames.Frames.{frame_limit};
ghost use Rattle.lane_steps.specs.Messages.ReplyReading.{reply_at};
ghost use Rattle.lane_steps.specs.Messages.Requests.{IsRequest};
ghost use Rattle.lane_steps.specs.Messages.request.Request.{Request};
ghost use Rattle.lane_steps.specs.Messages.request.Request.TheVariants as requests;
ghost use Rattle.lane_steps.specs.UserDedup.Link.{Asks, IsReading, LeavesOthers};
ghost use Rattle.lane_steps.specs.UserDedup.Requests.{AsksOfStore};
ghost use Rattle.kept_files.specs.RestoreJob.Asking.{HasAskedClouds, Leads, is_lost};
ghost use Rattle.kept_files.specs.RestoreJob.Refusals.{Names};
ghost use Rattle.rebuild.specs.Steps.{PageFrom, PageIs, PageTold, ReadCauses, RefusesPage, skip_as};

use kept_files::RestoreErr;
use lane_steps::{
    Bytes, CloudNo, Entries, Link, Lost, MsgErr, NoMemory, Reply, ReplyBuf, Request, Shape, Tag,
    UserId, Version,
};
use std::alloc::Global;

// Asks a cloud.
fn ask<L: Link>(
    link: &mut L,
    cloud: CloudNo,
    request: &[u8],
    reply: &mut ReplyBuf,
) -> Result<(), RestoreErr>
    requires reached { IsTrue (L.tells.reaches link.old cloud.0) }
    requires some { 1 ≤ length request.now }
    requires framed { length request.now ≤ frame_limit }
    requires reading { IsReading request.now }
    ensures asked { HasAskedClouds L.tells (cloud.0 ∷ []) link.old link.new (is_lost result) }
    ensures exec { (r : Request) → AsksOfStore (L.tells.shape link.old) request.now r
        → Asks L.tells cloud.0 link.old r reply.new result link.new }
    ensures others { LeavesOthers L.tells cloud.0 link.old link.new }
    ensures lost { OnErr result (result ≡ Err (RestoreErr.Lost cloud)) }
{
    match link.ask(cloud, request, reply) {
        Ok(()) => Ok(()),
        Err(Lost) => Err(RestoreErr::Lost { cloud }),
    }
}

// The content of a request for the user's entries above this one, or from the least one on.
fn page_request(
    alloc: Global,
    user: UserId,
    after: Option<(Tag, Version)>,
) -> Result<Bytes, NoMemory>
    ensures asks { IfOk result (λ content. IsRequest content (requests.List user after)) }
    ensures framed { IfOk result (λ content. (1 ≤ length content) × (length content ≤ frame_limit)) }
{
    let mut content = Bytes::new(alloc);
    Request::List { user, after }.write(&mut content)?;
    Ok(content)
}

// The kind of a reply, or 0 of an empty one.
fn kind_of(content: &[u8]) -> u8 {
    match content {
        [] => 0,
        [kind, ..] => *kind,
    }
}

// The refusal that a reply is which is no page.
fn refusal_of(cloud: CloudNo, reply: &Reply, kind: u8) -> RestoreErr
    ensures refuses { RefusesPage cloud reply.now result }
    ensures refusal { skip_as result ≡ None }
{
    match reply {
        Reply::Fault => RestoreErr::CloudFault { cloud },
        Reply::Damaged { at, byte } => RestoreErr::CloudDamaged {
            cloud,
            at: *at,
            byte: *byte,
        },
        Reply::Rotten { named, found } => RestoreErr::CloudRotten {
            cloud,
            named: *named,
            found: *found,
        },
        Reply::NoMemory => RestoreErr::CloudNoMemory { cloud },
        Reply::Hello { .. } => RestoreErr::Strange { cloud, kind },
        Reply::Known { .. } => RestoreErr::Strange { cloud, kind },
        Reply::Stored { .. } => RestoreErr::Strange { cloud, kind },
        Reply::Committed => RestoreErr::Strange { cloud, kind },
        Reply::Exists => RestoreErr::Strange { cloud, kind },
        Reply::Lacking { .. } => RestoreErr::Strange { cloud, kind },
        Reply::Recipe { .. } => RestoreErr::Strange { cloud, kind },
        Reply::Missing => RestoreErr::Strange { cloud, kind },
        Reply::Shares { .. } => RestoreErr::Strange { cloud, kind },
        Reply::NotYours { .. } => RestoreErr::Strange { cloud, kind },
        Reply::Entries { .. } => RestoreErr::Strange { cloud, kind },
        Reply::Deleted => RestoreErr::Strange { cloud, kind },
        Reply::Full { .. } => RestoreErr::Strange { cloud, kind },
        Reply::Malformed { .. } => RestoreErr::Strange { cloud, kind },
    }
}

// The page in a reply, or the refusal that it is.
fn page_in(cloud: CloudNo, reply: Reply, kind: u8) -> Result<Entries, RestoreErr>
    ensures page { PageIs cloud (Ok reply) result }
    ensures refusal { IfErr result (λ e. skip_as e ≡ None) }
{
    match reply {
        Reply::Entries { entries } => Ok(entries),
        other => Err(refusal_of(cloud, &other, kind)),
    }
}

// The page that the content of a cloud's reply brings, or the refusal that it is.
fn page_from(alloc: Global, cloud: CloudNo, content: &[u8]) -> Result<Entries, RestoreErr>
    requires few { length content.now < 2 ^ 32 }
    ensures from { PageFrom cloud (reply_at content.now) result }
    ensures refusal { IfErr result (λ e. skip_as e ≡ None) }
    ensures bytes { AreBytes content.now }
{
    let kind = kind_of(content);
    match Reply::read(alloc, content) {
        Ok(reply) => page_in(cloud, reply, kind),
        Err(MsgErr::Malformed { .. }) => Err(RestoreErr::Strange { cloud, kind }),
        Err(MsgErr::NoMemory) => Err(RestoreErr::NoMemory),
    }
}

/// Asks a cloud for the user's next page: the keys above this one, or from the least one on, rising, at most 256. An error is
/// one that names no reason to skip.
pub fn fetch_page<L: Link>(
    alloc: Global,
    link: &mut L,
    shape: Shape,
    user: UserId,
    cloud: CloudNo,
    after: Option<(Tag, Version)>,
    reply: &mut ReplyBuf,
) -> Result<Entries, RestoreErr>
    requires shape { L.tells.shape link.old ≡ shape }
    requires reached { IsTrue (L.tells.reaches link.old cloud.0) }
    ensures asked { HasAskedClouds L.tells (cloud.0 ∷ []) link.old link.new (is_lost result) }
    ensures told { Leads L.tells (cloud.0 ∷ []) link.old link.new (ReadCauses L.tells link.old result)
        (PageTold shape user cloud after result) }
    ensures named { IfErr result (Names (λ c. c ≡ cloud.0)) }
    ensures refusal { IfErr result (λ e. skip_as e ≡ None) }
{
    let request = match page_request(alloc, user, after) {
        Ok(request) => request,
        Err(NoMemory) => return Err(RestoreErr::NoMemory),
    };
    match ask(link, cloud, request.as_slice(), reply) {
        Ok(()) => page_from(alloc, cloud, reply.content()),
        Err(e) => Err(e),
    }
}
