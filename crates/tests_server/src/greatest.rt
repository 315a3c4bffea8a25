//! The greatest requests and replies.

use crate::cloud::{Cloud, WIDE};
use crate::replies::{MOST_NEW, NOT_YOURS};
use crate::requests::{fps_of, put_many, share_of};
use cd_base::{Bytes, Fp, NoMemory, sha256};
use journal_start::UserRooms;
use std::alloc::Global;
use std::test::Fail;

// 256 shares of the greatest length.
const SHARES: u64 = 256 * 8_208;

// Room in each area for these twice.
const ROOM: u64 = 4_300_000;

// A request of the shares of the numbers from 256 on.
fn shares_request(alloc: Global, user: u8) -> Result<Bytes, NoMemory> {
    let mut fps = [Fp([0; 32]); 256];
    for place in 0..256usize {
        let share = share_of(alloc, 256 + place, 8_208)?;
        fps[place] = sha256(share.as_slice());
    }
    fps_of(alloc, 6, user, &fps)
}

// Whether a Put of 256 of the greatest shares, from this number on, is taken.
fn is_put(alloc: Global, cloud: &mut Cloud, first: usize) -> Result<bool, NoMemory> {
    let put = put_many(alloc, 7, first, 256, 8_208)?;
    Ok(cloud.ask(put.as_slice()) == MOST_NEW)
}

// Whether two such Puts are taken, with zeros before the container of the last share.
fn are_put(alloc: Global, cloud: &mut Cloud) -> Result<bool, NoMemory> {
    let one = is_put(alloc, cloud, 0)?;
    let lengths = cloud.lengths();
    let two = is_put(alloc, cloud, 256)?;
    let (_, shares, _) = cloud.lengths();
    Ok(one && lengths == (11_574, SHARES, 0) && two && shares == 4_194_304 + 8_208)
}

// Whether the reply to a content has the greatest shares, this one last.
fn gives(cloud: &mut Cloud, content: Bytes, last: &[u8]) -> bool {
    let reply = cloud.ask(content.as_slice());
    reply.len() == 3 + 256 * (4 + 8_208) && reply.ends_with(last)
}

fn is_refused(cloud: &mut Cloud, content: Bytes) -> bool {
    cloud.ask(content.as_slice()) == NOT_YOURS
}

// Whether the shares come back, and to their user alone.
fn come_back(alloc: Global, cloud: &mut Cloud) -> Result<bool, NoMemory> {
    let last = share_of(alloc, 511, 8_208)?;
    let well = gives(cloud, shares_request(alloc, 7)?, last.as_slice());
    Ok(well && is_refused(cloud, shares_request(alloc, 8)?))
}

// Whether both Puts are taken, and come back.
fn are_kept(alloc: Global, cloud: &mut Cloud) -> Result<bool, NoMemory> {
    Ok(are_put(alloc, cloud)? && come_back(alloc, cloud)?)
}

#[test]
fn the_greatest_put_and_its_shares(rt: HostRuntime) -> Result<(), Fail> {
    let rooms = UserRooms {
        shares: 2 * SHARES,
        ..WIDE
    };
    let mut cloud = Cloud::make(rt.alloc(), ROOM, rooms)?;
    let well = are_kept(rt.alloc(), &mut cloud);
    drop(cloud);
    assert!(rt; well?);
    Ok(())
}
