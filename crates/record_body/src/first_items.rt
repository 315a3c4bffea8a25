//! The items of a Put, one after another, in the bytes that they came in.

ghost use Rattle.std.specs.Prelude.{◌≡◌, ◌≤◌, [], length, drop, IsErr, MatchOption};
ghost use Rattle.message_fields.specs.Parts.{times};
ghost use Rattle.record_body.specs.FirstReading.{item_at};
ghost use Rattle.record_body.specs.FirstInPlace.{AreFirstItemsIn, IsFirstItemAt, IsFirstStepOver, read_items};

use crate::first_fields::item_of;
use crate::{FoundItem, PutItem};
use std::marker::Model;

/// A walk over the items of a Put, in the bytes of its body. It takes no memory. Contracts see the body, the place in it of the
/// next item, and the items from there on.
#[derive(Drop)]
pub struct PutItems<'a> {
    body: &'a [u8],
    at: usize,
    count: usize,
}

impl<'a> Model for PutItems<'a> {
    ghost use Rattle.std.specs.Prelude.{drop};
    ghost use Rattle.message_fields.specs.Parts.{times};
    ghost use Rattle.record_body.specs.FirstReading.{item_at};
    ghost use Rattle.record_body.specs.FirstInPlace.{FirstWalk, AreFirstItemsIn, read_items};

    ghost Value = { FirstWalk };

    ghost view = { λ w. record {
      body = w.body.now;
      at = w.at;
      items = read_items (times item_at w.count (drop w.at w.body.now));
    } };

    ghost invariant = { λ w. AreFirstItemsIn w.body.now w.at w.count };
}

// The item that begins at a place of a body, and the place behind it.
fn item_from(body: &[u8], at: usize) -> Option<(PutItem, usize)>
    requires { at ≤ length body.now }
    ensures { MatchOption result (IsErr (item_at (drop at body.now))) (λ x. IsFirstItemAt body.now at x.0 x.1) }
{
    let (_, bytes) = body.split_at(at);
    match item_of(bytes) {
        Ok((item, rest)) => Some((item, body.len().saturating_sub(rest.len()))),
        Err(_) => None,
    }
}

impl<'a> PutItems<'a> {
    // The walk over so many items, from a place of the body on.
    pub(crate) fn over(body: &'a [u8], at: usize, count: usize) -> PutItems<'a>
        requires { AreFirstItemsIn body.now at count }
        ensures body { result.body ≡ body.now }
        ensures at { result.at ≡ at }
        ensures items { result.items ≡ read_items (times item_at count (drop at body.now)) }
    {
        PutItems { body, at, count }
    }

    /// The same walk, from where it stands. It copies no bytes.
    pub fn copied(&self) -> PutItems<'a>
        ensures { result ≡ self.now }
    {
        PutItems {
            body: self.body,
            at: self.at,
            count: self.count,
        }
    }

    /// How many items are to come.
    pub fn len(&self) -> usize
        ensures { result ≡ length self.now.items }
    {
        self.count
    }

    /// The next item with the places of its fields, which lie in the body, or None behind the last one. The walk then stands
    /// behind the item. An item has 33 bytes, or 45 with a place.
    pub fn next(&mut self) -> Option<FoundItem>
        ensures { MatchOption result ((self.old.items ≡ [])
            × (self.new ≡ self.old)) (λ found. IsFirstStepOver self.old found self.new) }
    {
        if self.count == 0 {
            return None;
        }
        let at = self.at;
        match item_from(self.body, at) {
            Some((item, next)) => {
                self.at = next;
                self.count -= 1;
                Some(FoundItem {
                    item,
                    fp_at: at,
                    flag_at: at + 32,
                    place_at: at + 33,
                })
            }
            None => None,
        }
    }
}
