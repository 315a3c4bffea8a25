//! The items of a Kept, one after another, in the bytes that they came in.

ghost use Rattle.std.specs.Prelude.{◌≡◌, ◌≤◌, [], length, drop, IsErr, MatchOption};
ghost use Rattle.message_fields.specs.Parts.{times};
ghost use Rattle.record_body.specs.Reading.{item_at};
ghost use Rattle.record_body.specs.InPlace.{AreItemsIn, IsItemAt, StepsOver, read_items};

use crate::fields::item_of;
use crate::{FoundKept, KeptItem};
use std::marker::Model;

/// A walk over the items of a Kept, in the bytes of its body. It takes no memory. Contracts see the body, the place in it of the
/// next item, and the items from there on.
#[derive(Drop)]
pub struct KeptItems<'a> {
    body: &'a [u8],
    at: usize,
    count: usize,
}

impl<'a> Model for KeptItems<'a> {
    ghost use Rattle.std.specs.Prelude.{drop};
    ghost use Rattle.message_fields.specs.Parts.{times};
    ghost use Rattle.record_body.specs.Reading.{item_at};
    ghost use Rattle.record_body.specs.InPlace.{Walk, AreItemsIn, read_items};

    ghost Value = { Walk };

    ghost view = { λ w. record {
      body = w.body.now;
      at = w.at;
      items = read_items (times item_at w.count (drop w.at w.body.now));
    } };

    ghost invariant = { λ w. AreItemsIn w.body.now w.at w.count };
}

// The item that begins at a place of a body, and the place behind it.
fn item_from(body: &[u8], at: usize) -> Option<(KeptItem, usize)>
    requires { at ≤ length body.now }
    ensures { MatchOption result (IsErr (item_at (drop at body.now))) (λ x. IsItemAt body.now at x.0 x.1) }
{
    let (_, bytes) = body.split_at(at);
    match item_of(bytes) {
        Ok((item, rest)) => Some((item, body.len().saturating_sub(rest.len()))),
        Err(_) => None,
    }
}

impl<'a> KeptItems<'a> {
    // The walk over so many items, from a place of the body on.
    pub(crate) fn over(body: &'a [u8], at: usize, count: usize) -> KeptItems<'a>
        requires { AreItemsIn body.now at count }
        ensures body { result.body ≡ body.now }
        ensures at { result.at ≡ at }
        ensures items { result.items ≡ read_items (times item_at count (drop at body.now)) }
    {
        KeptItems { body, at, count }
    }

    /// The same walk, from where it stands. It copies no bytes.
    pub fn copied(&self) -> KeptItems<'a>
        ensures { result ≡ self.now }
    {
        KeptItems {
            body: self.body,
            at: self.at,
            count: self.count,
        }
    }

    /// How many items are to come.
    pub fn len(&self) -> usize
        ensures { result ≡ length self.now.items }
    {
        self.count
    }

    /// The next item with the places of its fields, which lie in the body, or None behind the last one. The walk then stands
    /// behind the item. An item has 44 bytes.
    pub fn next(&mut self) -> Option<FoundKept>
        ensures { MatchOption result ((self.old.items ≡ []) × (self.new ≡ self.old))
            (λ found. StepsOver self.old found self.new) }
    {
        if self.count == 0 {
            return None;
        }
        let at = self.at;
        match item_from(self.body, at) {
            Some((item, next)) => {
                self.at = next;
                self.count -= 1;
                Some(FoundKept {
                    item,
                    fp_at: at,
                    place_at: at + 32,
                })
            }
            None => None,
        }
    }
}
