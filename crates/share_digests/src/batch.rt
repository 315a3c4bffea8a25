//! The digests of a batch of shares.
ghost use Rattle.std.specs.Prelude.{◌≡◌, ℕ, ◌+◌, ◌<◌, ◌≤◌, [], length, map, All, slice_index_or};
ghost use Rattle.sha2.specs.Sha256.{sha256};
ghost use Rattle.share_digests.specs.Digests.{HasAllPlaces, IsRightAt, place_at};

use crate::order::{index_at, write_order};
use crate::parts::parts_of;
use hash_lanes::sha256_of_four;
use message_fields::{Fp, SharesView, sha256};

// Puts the digests of four shares at their places: those whose places stand from an index of the order on.
fn hash_four(parts: &[&[u8]], order: &[(usize, usize)], index: usize, digests: &mut [[u8; 32]])
    requires index { index < length order.now }
    requires below { All (λ pair. pair.1 < length parts.now) order.now }
    requires room { length digests.old ≡ length parts.now }
    ensures kept { (place : ℕ) → IsRightAt (map (λ part. part.now) parts.now) digests.old place
        → IsRightAt (map (λ part. part.now) parts.now) digests.new place }
    ensures four { (i : ℕ) → index ≤ i → i < index + 4 → i < length order.now
        → IsRightAt (map (λ part. part.now) parts.now) digests.new (place_at order.now i) }
    ensures len { length digests.new ≡ length digests.old }
{
    let last = order.len() - 1;
    let first = index_at(order, index);
    let second = index_at(order, last.min(index + 1));
    let third = index_at(order, last.min(index + 2));
    let fourth = index_at(order, last.min(index + 3));
    let four = sha256_of_four(parts[first], parts[second], parts[third], parts[fourth]);
    digests[first] = four[0];
    digests[second] = four[1];
    digests[third] = four[2];
    digests[fourth] = four[3];
}

// Puts the digest of one share at its place: the one that stands at an index of the order.
fn hash_one(parts: &[&[u8]], order: &[(usize, usize)], index: usize, digests: &mut [[u8; 32]])
    requires index { index < length order.now }
    requires below { All (λ pair. pair.1 < length parts.now) order.now }
    requires room { length digests.old ≡ length parts.now }
    ensures kept { (place : ℕ) → IsRightAt (map (λ part. part.now) parts.now) digests.old place
        → IsRightAt (map (λ part. part.now) parts.now) digests.new place }
    ensures right { IsRightAt (map (λ part. part.now) parts.now) digests.new (place_at order.now index) }
    ensures len { length digests.new ≡ length digests.old }
{
    let place = index_at(order, index);
    let Fp(only) = sha256(parts[place]);
    digests[place] = only;
}

// Puts the digests of four shares at their places, or of the last one alone where no other is left.
fn hash_next(parts: &[&[u8]], order: &[(usize, usize)], index: usize, digests: &mut [[u8; 32]])
    requires index { index < length order.now }
    requires below { All (λ pair. pair.1 < length parts.now) order.now }
    requires room { length digests.old ≡ length parts.now }
    ensures kept { (place : ℕ) → IsRightAt (map (λ part. part.now) parts.now) digests.old place
        → IsRightAt (map (λ part. part.now) parts.now) digests.new place }
    ensures four { (i : ℕ) → index ≤ i → i < index + 4 → i < length order.now
        → IsRightAt (map (λ part. part.now) parts.now) digests.new (place_at order.now i) }
    ensures len { length digests.new ≡ length digests.old }
{
    if index + 1 == order.len() {
        hash_one(parts, order, index, digests);
        return;
    }
    hash_four(parts, order, index, digests);
}

// Puts the digest of each share at its place. The order has each of the places.
fn hash_each(parts: &[&[u8]], order: &[(usize, usize)], digests: &mut [[u8; 32]])
    requires all { HasAllPlaces (length parts.now) order.now }
    requires below { All (λ pair. pair.1 < length parts.now) order.now }
    requires room { length digests.old ≡ length parts.now }
    ensures right { (place : ℕ) → place < length parts.now
        → IsRightAt (map (λ part. part.now) parts.now) digests.new place }
    ensures len { length digests.new ≡ length digests.old }
{
    let mut index = 0;
    'fours: while index < order.len() {
        hash_next(parts, order, index, digests);
        index += 4;
    }
}

// Puts the digest of each share at its place, by way of an order for which there is room.
fn hash_parts(parts: &[&[u8]], order: &mut [(usize, usize)], digests: &mut [[u8; 32]])
    requires order { length order.old ≡ length parts.now }
    requires room { length digests.old ≡ length parts.now }
    ensures right { (place : ℕ) → place < length parts.now
        → IsRightAt (map (λ part. part.now) parts.now) digests.new place }
    ensures len { length digests.new ≡ length digests.old }
{
    write_order(parts, order);
    hash_each(parts, order, digests);
}

/// The SHA-256 of each share of a batch of at most 256, at its place. What stands behind them is of no meaning.
///
/// Shares of about one length are hashed together, four at a time.
pub fn digests_of(shares: &SharesView<'_>) -> [[u8; 32]; 256]
    requires { length shares.now ≤ 256 }
    ensures { (place : ℕ) → place < length shares.now
        → slice_index_or result place [] ≡ sha256 (slice_index_or shares.now place []) }
{
    let count = shares.len();
    let parts = parts_of(shares);
    let mut order = [(0usize, 0usize); 256];
    let mut digests = [[0u8; 32]; 256];
    hash_parts(&parts[..count], &mut order[..count], &mut digests[..count]);
    digests
}
