//! Tests of record_body, of the bodies of today's format.

use cd_base::{Fp, Place, Tag, UserId, Version};
use record_body::{
    BodyBuf, BodyErr, BodyView, DeleteBody, FoundKept, KeptItem, PutItem, SpentBody,
};
use std::test::Fail;

// User 7 stores one new share of 11 bytes, which now lies at place 0.
const STORES: [u8; 52] = [
    1, 0, 0, 0, 7, 0, 1, 9, 9, 9, 9, 9, 9, 9, 9, 9, 9, 9, 9, 9, 9, 9, 9, 9, 9, 9, 9, 9, 9, 9, 9, 9,
    9, 9, 9, 9, 9, 9, 9, 1, 0, 0, 0, 0, 0, 0, 0, 0, 0, 0, 0, 11,
];

// User 7 takes version 2 of a file out.
const TAKES_OUT: [u8; 45] = [
    3, 0, 0, 0, 7, 5, 5, 5, 5, 5, 5, 5, 5, 5, 5, 5, 5, 5, 5, 5, 5, 5, 5, 5, 5, 5, 5, 5, 5, 5, 5, 5,
    5, 5, 5, 5, 5, 0, 0, 0, 0, 0, 0, 0, 2,
];

// Nobody owns one share of 300 bytes, which lies at place 4,194,304.
const KEEPS: [u8; 47] = [
    4, 0, 1, 8, 8, 8, 8, 8, 8, 8, 8, 8, 8, 8, 8, 8, 8, 8, 8, 8, 8, 8, 8, 8, 8, 8, 8, 8, 8, 8, 8, 8,
    8, 8, 8, 0, 0, 0, 0, 0, 64, 0, 0, 0, 0, 1, 44,
];

// User 7 has spent 3 shares with 8,229 bytes together, and 122 bytes of recipes.
const SPENDS: [u8; 25] = [
    5, 0, 0, 0, 7, 0, 0, 0, 3, 0, 0, 0, 0, 0, 0, 32, 37, 0, 0, 0, 0, 0, 0, 0, 122,
];

fn taken_out() -> DeleteBody {
    DeleteBody {
        user: UserId(7),
        tag: Tag([5; 32]),
        version: Version(2),
    }
}

fn kept() -> KeptItem {
    KeptItem {
        fp: Fp([8; 32]),
        place: Place {
            at: 4_194_304,
            len: 300,
        },
    }
}

fn spent() -> SpentBody {
    SpentBody {
        user: UserId(7),
        owners: 3,
        shares: 8_229,
        recipes: 122,
    }
}

fn delete_in(body: &[u8]) -> Option<DeleteBody> {
    match BodyView::check(body) {
        Ok(BodyView::Delete(delete)) => Some(delete),
        _ => None,
    }
}

// The first item of a Kept.
fn first_kept(body: &[u8]) -> Option<FoundKept> {
    match BodyView::check(body) {
        Ok(BodyView::Kept(items)) => {
            let mut items = items;
            items.next()
        }
        _ => None,
    }
}

fn spent_in(body: &[u8]) -> Option<SpentBody> {
    match BodyView::check(body) {
        Ok(BodyView::Spent(spent)) => Some(spent),
        _ => None,
    }
}

fn fault_in(body: &[u8]) -> Option<BodyErr> {
    match BodyView::check(body) {
        Ok(_view) => None,
        Err(fault) => Some(fault),
    }
}

#[test]
fn a_version_taken_out(rt: HostRuntime) -> Result<(), Fail> {
    let mut buf = BodyBuf::make(rt.alloc())?;
    buf.write_delete(&taken_out());
    assert_eq!(rt; buf.as_slice(), TAKES_OUT.as_slice());
    assert_eq!(rt; delete_in(&TAKES_OUT), Some(taken_out()));
    Ok(())
}

#[test]
fn a_kept_share(rt: HostRuntime) -> Result<(), Fail> {
    let mut buf = BodyBuf::make(rt.alloc())?;
    buf.start_kept(1);
    buf.put_kept(&kept());
    assert_eq!(rt; buf.as_slice(), KEEPS.as_slice());
    let found = FoundKept {
        item: kept(),
        fp_at: 3,
        place_at: 35,
    };
    assert_eq!(rt; first_kept(&KEEPS), Some(found));
    Ok(())
}

#[test]
fn what_a_user_spent(rt: HostRuntime) -> Result<(), Fail> {
    let mut buf = BodyBuf::make(rt.alloc())?;
    buf.write_spent(&spent());
    assert_eq!(rt; buf.as_slice(), SPENDS.as_slice());
    assert_eq!(rt; spent_in(&SPENDS), Some(spent()));
    Ok(())
}

#[test]
fn a_stored_share(rt: HostRuntime) -> Result<(), Fail> {
    let mut buf = BodyBuf::make(rt.alloc())?;
    buf.start_put(UserId(7), 1);
    buf.put_item(&PutItem {
        fp: Fp([9; 32]),
        place: Some(Place { at: 0, len: 11 }),
    });
    assert_eq!(rt; buf.as_slice(), STORES.as_slice());
    assert_eq!(rt; fault_in(&STORES), None);
    Ok(())
}
