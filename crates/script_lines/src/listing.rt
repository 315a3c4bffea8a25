//! The line that lists a user's files at a cloud, page by page.

ghost use Rattle.std.specs.Prelude.{◌≡◌, ◌≤◌, ◌<◌, ◌^◌, ◌++◌, ◌==◌, [], ◌∷◌, length, map, IsTrue, IfOk, OnOk, OnErr};
ghost use Rattle.deletions.specs.Frames.Frames.{frame_limit};
ghost use Rattle.session_model.specs.MessageFields.Keys.{AreEntryKeys, key_limit};
ghost use Rattle.deletions.specs.Messages.reply.Reply.{Reply};
ghost use Rattle.deletions.specs.Messages.request.Request.TheVariants as requests;
ghost use Rattle.deletions.specs.Messages.Replies.{IsReply};
ghost use Rattle.deletions.specs.Messages.Requests.{IsRequest};
ghost use Rattle.session_model.specs.Session.event.Event.TheVariants as events;
ghost use Rattle.session_model.specs.Transcript.line.Line.TheVariants as lines;
ghost use Rattle.session_model.specs.Steps.{entry_line as line_of_entry};
ghost use Rattle.session_model.specs.Session.Texts.{text_of};
ghost use Rattle.script_lines.specs.At.{KeepsOtherClouds};
ghost use Rattle.script_lines.specs.Does.{CarriesOut, IsCutOff};
ghost use Rattle.script_lines.specs.Paging.{IsListReply, RefusesAs, TakesPage, HasAddedPage, PageComes, PageTurns, ListsEntries, SaysNoPage};

use crate::Jobs;
use crate::news::put_line;
use deletions::{MsgErr, Reply, ReplyBuf, Request};
use recipe::{Bytes, CloudNo, NoMemory, Tag, UserId, Version};
use session_model::{
    Answer, Entries, KEY_LIMIT, Line, Link, LocalLink, Lost, Refusal, Shelf, write_line,
};
use std::alloc::Global;

// Why a page wasn't taken.
#[derive(Clone, Copy)]
enum NoPage {
    // The cloud answered this in place of a page.
    Refused { why: Refusal },
    // Memory ran out.
    NoMemory,
}

// The pages so far: the key above which the next one begins, how many entries there are, and their lines.
#[derive(Drop)]
struct Listing {
    above: Option<(Tag, Version)>,
    count: u32,
    lines: Bytes,
}

// The first byte of a reply, or 0 of an empty one.
fn kind_of(content: &[u8]) -> u8 {
    match content {
        [] => 0,
        [kind, ..] => *kind,
    }
}

// The refusal that a reply is which is no page.
fn refusal_of(cloud: CloudNo, reply: &Reply, kind: u8) -> Refusal
    ensures { RefusesAs cloud.0 reply.now result }
{
    match reply {
        Reply::Fault => Refusal::Fault { cloud },
        Reply::Damaged { at, byte } => Refusal::Damaged {
            cloud,
            at: *at,
            byte: *byte,
        },
        Reply::Rotten { named, found } => Refusal::Rotten {
            cloud,
            named: *named,
            found: *found,
        },
        Reply::NoMemory => Refusal::NoMemory { cloud },
        Reply::Hello { .. } => Refusal::Strange { cloud, kind },
        Reply::Known { .. } => Refusal::Strange { cloud, kind },
        Reply::Stored { .. } => Refusal::Strange { cloud, kind },
        Reply::Committed => Refusal::Strange { cloud, kind },
        Reply::Exists => Refusal::Strange { cloud, kind },
        Reply::Lacking { .. } => Refusal::Strange { cloud, kind },
        Reply::Recipe { .. } => Refusal::Strange { cloud, kind },
        Reply::Missing => Refusal::Strange { cloud, kind },
        Reply::Shares { .. } => Refusal::Strange { cloud, kind },
        Reply::NotYours { .. } => Refusal::Strange { cloud, kind },
        Reply::Entries { .. } => Refusal::Strange { cloud, kind },
        Reply::Deleted => Refusal::Strange { cloud, kind },
        Reply::Full { .. } => Refusal::Strange { cloud, kind },
        Reply::Malformed { .. } => Refusal::Strange { cloud, kind },
    }
}

// The page that the content of a cloud's reply is, or the refusal.
fn page_in(alloc: Global, cloud: CloudNo, content: &[u8]) -> Result<Entries, NoPage>
    requires { length content.now < 2 ^ 32 }
    ensures takes { (reply : Reply) → IsReply content.now reply → IsListReply cloud.0 reply
        → TakesPage cloud.0 reply result }
    ensures few { IfOk result AreEntryKeys }
{
    let kind = kind_of(content);
    match Reply::read(alloc, content) {
        Ok(Reply::Entries { entries }) => Ok(entries),
        Ok(reply) => Err(NoPage::Refused {
            why: refusal_of(cloud, &reply, kind),
        }),
        Err(MsgErr::Malformed { .. }) => Err(NoPage::Refused {
            why: Refusal::Strange { cloud, kind },
        }),
        Err(MsgErr::NoMemory) => Err(NoPage::NoMemory),
    }
}

// The content of the request for the user's entries above this one, or from the least one on.
fn put_request(
    user: UserId,
    above: Option<(Tag, Version)>,
    content: &mut Bytes,
) -> Result<(), NoMemory>
    ensures asks { OnOk result (IsRequest content.new (requests.List user above)) }
    ensures framed { OnOk result ((1 ≤ length content.new) × (length content.new ≤ frame_limit)) }
{
    content.clear();
    Request::List { user, after: above }.write(content)
}

// Asks the cloud for the user's next page.
fn ask_page<V: Shelf>(
    alloc: Global,
    link: &mut LocalLink<'_, V>,
    user: UserId,
    cloud: CloudNo,
    above: Option<(Tag, Version)>,
    content: &mut Bytes,
    reply: &mut ReplyBuf,
) -> Result<Entries, NoPage>
    requires below { cloud.0 < link.old.servers.shape.n }
    ensures comes { PageComes V.cloud_at user cloud.0 above link.old link.new result }
    ensures few { IfOk result AreEntryKeys }
    ensures leaves { KeepsOtherClouds V.cloud_at link.old link.new }
    ensures same_reference { link.new.shelf.ghost_name ≡ link.old.shelf.ghost_name }
{
    match put_request(user, above, content) {
        Ok(()) => {}
        Err(NoMemory) => return Err(NoPage::NoMemory),
    }
    match link.ask(cloud, content.as_slice(), reply) {
        Ok(()) => page_in(alloc, cloud, reply.content()),
        Err(Lost) => Err(NoPage::Refused {
            why: Refusal::Lost { cloud },
        }),
    }
}

// The line of an entry.
fn entry_line(entry: (Tag, Version)) -> Line
    ensures { result ≡ line_of_entry entry }
{
    let (tag, version) = entry;
    Line::Entry { tag, version }
}

// Appends the line of an entry. For want of memory nothing changes.
fn put_entry(entry: (Tag, Version), lines: &mut Bytes) -> Result<(), NoMemory>
    ensures ok { OnOk result (lines.new ≡ lines.old ++ text_of (line_of_entry entry ∷ [])) }
    ensures err { OnErr result (lines.new ≡ lines.old) }
{
    write_line(&entry_line(entry), lines)
}

// Appends the line of each entry.
fn put_entries(page: &[(Tag, Version)], lines: &mut Bytes) -> Result<(), NoMemory>
    ensures { OnOk result (lines.new ≡ lines.old ++ text_of (map line_of_entry page.now)) }
{
    for entry in page {
        match put_entry(*entry, lines) {
            Ok(()) => {}
            Err(NoMemory) => return Err(NoMemory),
        }
    }
    Ok(())
}

// Takes a page, and answers whether it is full, so that another one comes behind it.
fn take_page(listing: &mut Listing, page: &Entries) -> Result<bool, NoMemory>
    requires few { length page.now ≤ key_limit }
    ensures adds { OnOk result (HasAddedPage listing.old page.now listing.new) }
    ensures more { IfOk result (λ more. more ≡ (length page.now == key_limit)) }
    ensures small { OnOk result (listing.new.count < 2 ^ 32) }
{
    let Some(count) = listing.count.checked_add(page.len() as u32) else {
        return Err(NoMemory);
    };
    match put_entries(page.as_slice(), &mut listing.lines) {
        Ok(()) => {}
        Err(NoMemory) => return Err(NoMemory),
    }
    listing.count = count;
    listing.above = page.as_slice().last().copied();
    Ok(page.len() == KEY_LIMIT)
}

// Asks for the next page and takes it. Whether another one comes behind it.
fn next_page<V: Shelf>(
    alloc: Global,
    link: &mut LocalLink<'_, V>,
    user: UserId,
    cloud: CloudNo,
    listing: &mut Listing,
    content: &mut Bytes,
    reply: &mut ReplyBuf,
) -> Result<bool, NoPage>
    requires below { cloud.0 < link.old.servers.shape.n }
    ensures turns { PageTurns V.cloud_at user cloud.0 link.old listing.old link.new listing.new result }
    ensures counted { IfOk result (λ more. IsTrue more → listing.old.count < listing.new.count) }
    ensures small { OnOk result (listing.new.count < 2 ^ 32) }
    ensures leaves { KeepsOtherClouds V.cloud_at link.old link.new }
    ensures same_reference { link.new.shelf.ghost_name ≡ link.old.shelf.ghost_name }
{
    let page = match ask_page(alloc, link, user, cloud, listing.above, content, reply) {
        Ok(page) => page,
        Err(why) => return Err(why),
    };
    match take_page(listing, &page) {
        Ok(more) => Ok(more),
        Err(NoMemory) => Err(NoPage::NoMemory),
    }
}

// All pages of the user's files at the cloud, one after another.
fn list_pages<V: Shelf>(
    alloc: Global,
    link: &mut LocalLink<'_, V>,
    jobs: &Jobs,
    user: UserId,
    cloud: CloudNo,
    content: &mut Bytes,
    reply: &mut ReplyBuf,
) -> Result<Listing, NoPage>
    requires below { cloud.0 < link.old.servers.shape.n }
    ensures lists { ListsEntries V.cloud_at user cloud.0 link.old jobs.now link.new result }
    ensures leaves { KeepsOtherClouds V.cloud_at link.old link.new }
    ensures same_reference { link.new.shelf.ghost_name ≡ link.old.shelf.ghost_name }
{
    let mut listing = Listing {
        above: None,
        count: 0,
        lines: Bytes::new(alloc),
    };
    'pages: loop {
        match next_page(alloc, link, user, cloud, &mut listing, content, reply) {
            Ok(true) => {}
            Ok(false) => break 'pages,
            Err(why) => return Err(why),
        }
    }
    Ok(listing)
}

// Appends the lines of a listing to its end.
fn put_listing(
    user: UserId,
    cloud: CloudNo,
    listing: &Listing,
    text: &mut Answer,
) -> Result<(), NoMemory>
    ensures { OnOk result (text.new
        ≡ text.old ++ text_of (lines.Entries user cloud listing.now.count ∷ []) ++ listing.now.lines) }
{
    let count = listing.count;
    match put_line(Line::Entries { user, cloud, count }, text) {
        Ok(()) => text.extend(listing.lines.as_slice()),
        Err(NoMemory) => Err(NoMemory),
    }
}

// Appends why a listing came to no end.
fn put_no_page(why: NoPage, text: &mut Answer) -> Result<(), NoMemory>
    ensures { OnOk result (SaysNoPage why text.old text.new) }
{
    match why {
        NoPage::Refused { why } => put_line(Line::Refused { why }, text),
        NoPage::NoMemory => Err(NoMemory),
    }
}

/// `list USER CLOUD`: the user's files at the cloud, rising by tag and version, or why the cloud lists no further.
pub fn list_line<V: Shelf>(
    alloc: Global,
    link: &mut LocalLink<'_, V>,
    jobs: &Jobs,
    user: UserId,
    cloud: CloudNo,
    content: &mut Bytes,
    reply: &mut ReplyBuf,
    text: &mut Answer,
) -> Result<(), NoMemory>
    requires below { cloud.0 < link.old.servers.shape.n }
    ensures does { OnOk result (CarriesOut V.cloud_at (events.List user cloud) link.old jobs.now
        link.new jobs.now text.old text.new) }
    ensures cut { OnErr result (IsCutOff V.cloud_at (events.List user cloud) link.old jobs.now link.new) }
    ensures leaves { KeepsOtherClouds V.cloud_at link.old link.new }
    ensures same_reference { link.new.shelf.ghost_name ≡ link.old.shelf.ghost_name }
{
    match list_pages(alloc, link, jobs, user, cloud, content, reply) {
        Ok(listing) => put_listing(user, cloud, &listing, text),
        Err(why) => put_no_page(why, text),
    }
}
