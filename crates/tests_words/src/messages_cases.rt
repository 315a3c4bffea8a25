//! Contents written out by hand.

use cd_base::{Bytes, NoMemory};
use messages::{ReplyView, RequestView};
use std::alloc::Global;
use std::test::Fail;

// The pieces as one content.
fn joined(alloc: Global, pieces: &[&[u8]]) -> Result<Bytes, NoMemory> {
    let mut all = Bytes::new(alloc);
    for piece in pieces {
        all.extend(piece)?;
    }
    Ok(all)
}

const USER: &[u8] = &[0, 0, 0, 7];

const NUMBER: &[u8] = &[0, 0, 0, 0, 0, 0, 1, 2];

const REQUESTS: [&[&[u8]]; 8] = [
    &[&[1]],
    &[&[2], USER, &[0, 2], &[0xa1; 32], &[0xb2; 32]],
    &[&[3], USER, &[0, 2, 0, 0, 0, 1, 9, 0, 0, 0, 3, 7, 8, 9]],
    &[&[5], USER, &[0xc3; 32], NUMBER],
    &[&[6], USER, &[0, 1], &[0xa1; 32]],
    &[&[7], USER, &[0]],
    &[&[7], USER, &[1], &[0xc3; 32], NUMBER],
    &[&[8], USER, &[0xc3; 32], NUMBER],
];

const REPLIES: [&[&[u8]]; 23] = [
    &[&[0x84]],
    &[&[0x85]],
    &[&[0x88]],
    &[&[0x8d]],
    &[&[0x91]],
    &[&[0x92]],
    &[&[0x8c, 1], NUMBER, NUMBER, NUMBER],
    &[&[0x8c, 2], NUMBER, NUMBER, NUMBER],
    &[&[0x8c, 3], NUMBER, NUMBER, NUMBER],
    &[&[0x8c, 4], NUMBER, NUMBER, NUMBER],
    &[&[0x8c, 5], NUMBER, NUMBER, NUMBER],
    &[&[0x8c, 6], NUMBER, NUMBER, NUMBER],
    &[&[0x81, 4, 3, 2, 1]],
    &[&[0x82, 0, 3, 1, 0, 1]],
    &[&[0x83, 1, 0]],
    &[&[0x86, 0, 0, 1, 2]],
    &[&[0x89, 0, 2, 0, 0, 0, 1, 9, 0, 0, 0, 3, 7, 8, 9]],
    &[&[0x8a, 1, 2]],
    &[&[0x8b, 0, 0]],
    &[&[0x8b, 0, 2], &[1; 32], NUMBER, &[2; 32], &[0; 8]],
    &[&[0x8e], NUMBER, &[255]],
    &[&[0x8f], &[0xa1; 32], &[0xb2; 32]],
    &[&[0x90, 0, 0, 0, 45]],
];

// Where a content is no request, if it isn't one.
fn request_fault(content: &[u8]) -> Option<u32> {
    if content.len() > 4_194_304 {
        return None;
    }
    RequestView::check(content).err()
}

fn is_request(alloc: Global, pieces: &[&[u8]]) -> Result<bool, NoMemory> {
    let all = joined(alloc, pieces)?;
    Ok(request_fault(all.as_slice()) == None)
}

fn are_requests(alloc: Global) -> Result<bool, NoMemory> {
    let mut well = true;
    for pieces in REQUESTS {
        well = is_request(alloc, pieces)? && well;
    }
    Ok(well)
}

// Whether a Commit without a recipe is none, and one with a recipe is.
fn is_commit(alloc: Global) -> Result<bool, NoMemory> {
    let mut all = joined(alloc, &[&[4], USER, &[0xc3; 32], NUMBER])?;
    let empty = request_fault(all.as_slice()) == Some(45);
    all.extend(&[5, 6])?;
    Ok(empty && request_fault(all.as_slice()) == None)
}

#[test]
fn each_request(rt: HostRuntime) -> Result<(), Fail> {
    let well = are_requests(rt.alloc())? && is_commit(rt.alloc())?;
    assert!(rt; well);
    Ok(())
}

fn is_reply_read(alloc: Global, content: &[u8]) -> bool {
    content.len() <= 4_194_304 && ReplyView::read(alloc, content).is_ok()
}

fn is_reply(alloc: Global, pieces: &[&[u8]]) -> Result<bool, NoMemory> {
    let all = joined(alloc, pieces)?;
    Ok(is_reply_read(alloc, all.as_slice()))
}

fn are_replies(alloc: Global) -> Result<bool, NoMemory> {
    let mut well = true;
    for pieces in REPLIES {
        well = is_reply(alloc, pieces)? && well;
    }
    Ok(well)
}

#[test]
fn each_reply(rt: HostRuntime) -> Result<(), Fail> {
    let a = rt.alloc();
    let well = are_replies(a)? && is_reply_read(a, &[0x87, 5, 6]) && !is_reply_read(a, &[0x87]);
    assert!(rt; well);
    Ok(())
}
