//! Tests of record_body, of the bodies of format 1.

use cd_base::{Fp, Place, Tag, UserId, Version};
use record_body::{CommitBody, FirstBodyView, FoundItem, PutItem, RecordBuf};
use std::test::Fail;

// User 7 stores one new share of 11 bytes, which now lies at place 0.
const STORES: [u8; 52] = [
    1, 0, 0, 0, 7, 0, 1, 9, 9, 9, 9, 9, 9, 9, 9, 9, 9, 9, 9, 9, 9, 9, 9, 9, 9, 9, 9, 9, 9, 9, 9, 9,
    9, 9, 9, 9, 9, 9, 9, 1, 0, 0, 0, 0, 0, 0, 0, 0, 0, 0, 0, 11,
];

// User 7 enters version 2 of a file whose recipe has 61 bytes at place 256.
const ENTERS: [u8; 89] = [
    2, 0, 0, 0, 7, 5, 5, 5, 5, 5, 5, 5, 5, 5, 5, 5, 5, 5, 5, 5, 5, 5, 5, 5, 5, 5, 5, 5, 5, 5, 5, 5,
    5, 5, 5, 5, 5, 0, 0, 0, 0, 0, 0, 0, 2, 0, 0, 0, 0, 0, 0, 1, 0, 0, 0, 0, 61, 6, 6, 6, 6, 6, 6,
    6, 6, 6, 6, 6, 6, 6, 6, 6, 6, 6, 6, 6, 6, 6, 6, 6, 6, 6, 6, 6, 6, 6, 6, 6, 6,
];

fn stored() -> PutItem {
    PutItem {
        fp: Fp([9; 32]),
        place: Some(Place { at: 0, len: 11 }),
    }
}

fn entered() -> CommitBody {
    CommitBody {
        user: UserId(7),
        tag: Tag([5; 32]),
        version: Version(2),
        at: 256,
        len: 61,
        fp: Fp([6; 32]),
    }
}

// The user and the first item of a Put.
fn first_item(body: &[u8]) -> Option<(UserId, FoundItem)> {
    match FirstBodyView::check(body) {
        Ok(FirstBodyView::Put { user, items }) => {
            let mut items = items;
            match items.next() {
                Some(found) => Some((user, found)),
                None => None,
            }
        }
        Ok(FirstBodyView::Commit(_)) => None,
        Err(_) => None,
    }
}

fn commit_in(body: &[u8]) -> Option<CommitBody> {
    match FirstBodyView::check(body) {
        Ok(FirstBodyView::Commit(commit)) => Some(commit),
        Ok(FirstBodyView::Put { .. }) => None,
        Err(_) => None,
    }
}

#[test]
fn a_stored_share(rt: HostRuntime) -> Result<(), Fail> {
    let mut buf = RecordBuf::make(rt.alloc())?;
    buf.start_put(UserId(7), 1);
    buf.put_item(&stored());
    assert_eq!(rt; buf.as_slice(), STORES.as_slice());
    let found = FoundItem {
        item: stored(),
        fp_at: 7,
        flag_at: 39,
        place_at: 40,
    };
    assert_eq!(rt; first_item(&STORES), Some((UserId(7), found)));
    Ok(())
}

#[test]
fn an_entered_version(rt: HostRuntime) -> Result<(), Fail> {
    let mut buf = RecordBuf::make(rt.alloc())?;
    buf.write_commit(&entered());
    assert_eq!(rt; buf.as_slice(), ENTERS.as_slice());
    assert_eq!(rt; commit_in(&ENTERS), Some(entered()));
    Ok(())
}
