//! The containers that were read lately.

ghost use Rattle.std.specs.Prelude.{◌≡◌, ◌≤◌, ◌+◌, ◌<◌, ◌^◌, List, ℕ, [], length, ◌-◌, ◌⊎◌, slice_get};
ghost use Rattle.std.specs.Prelude.{option_map, IfOk, IfSome, None, Some, IfNone};
ghost use Rattle.std.specs.List.{filter};
ghost use Rattle.cd_edges.specs.Shelf.{ReadsFrom};
ghost use Rattle.lru.specs.LruCache.{lru_cache};
ghost use Rattle.std.specs.Map.{lookup};
ghost use Rattle.std.specs.Prelude.{nat_eq};
ghost use Rattle.container_log.specs.Caches.{kept_of, in_front, with_room, with_container, is_left, turned, IsKeptOr};

use crate::container::Container;
use cd_edges::NoMemory;
use lru::LruCache;
use std::alloc::Global;
use std::marker::Model;
use std::num::NonZeroUsize;

/// Up to so many containers, the last read first.
#[derive(Drop)]
pub(crate) struct Cache {
    alloc: Global,
    // None where none is to be kept.
    containers: Option<LruCache<u64, Container>>,
}

impl Model for Cache {
    ghost use Rattle.std.specs.Prelude.{[]};
    ghost use Rattle.std.specs.Option.{option_map_or};
    ghost use Rattle.container_log.specs.Caches.{Cache as Keeps};

    ghost Value = { Keeps };

    ghost view = { λ c. record {
      keep = option_map_or (λ l. l.cap) c.containers 0;
      kept = option_map_or (λ l. l.entries) c.containers [];
    } };
}

// The number of the container that was read longest ago, and whether a write leaves its bytes.
fn oldest(kept: &LruCache<u64, Container>, first: u64, last: u64) -> Option<(u64, bool)>
    ensures { result ≡ option_map (λ k. (k.0, is_left first last k))
        (slice_get kept.now.entries (length kept.now.entries - 1)) }
{
    match kept.peek_lru() {
        Some((number, container)) => Some((*number, container.is_left(*number, first, last))),
        None => None,
    }
}

// That container goes first, or is forgotten where a write changes its bytes.
fn turn(kept: &mut LruCache<u64, Container>, first: u64, last: u64)
    ensures entries { kept.new.entries ≡ turned (is_left first last) kept.old.entries }
    ensures cap { kept.new.cap ≡ kept.old.cap }
{
    if kept.len() == 0 {
        return;
    }
    match oldest(kept, first, last) {
        Some((number, true)) => {
            kept.promote(&number);
        }
        Some((_, false)) => drop(kept.pop_lru()),
        None => {}
    }
}

// Forgets each container whose bytes a write changes.
fn forget_each(kept: &mut LruCache<u64, Container>, first: u64, last: u64)
    ensures { kept.new ≡ lru_cache (filter (is_left first last) kept.old.entries) kept.old.cap }
{
    for _ in 0..kept.len() {
        turn(kept, first, last);
    }
}

// Where as many are kept as may be, takes the one out that was read longest ago.
fn make_room(kept: &mut LruCache<u64, Container>) -> Option<Container>
    ensures { kept.new ≡ lru_cache (with_room kept.old.cap kept.old.entries) kept.old.cap }
{
    if kept.len() < kept.cap().get() {
        return None;
    }
    match kept.pop_lru() {
        Some((_, container)) => Some(container),
        None => None,
    }
}

// Puts a container in front that isn't kept. Where memory is lacking nothing changes.
fn put_front(kept: &mut LruCache<u64, Container>, number: u64, container: Container)
    requires { lookup (nat_eq number) kept.old.entries ≡ None }
    ensures { (kept.new ≡ kept.old)
        ⊎ (kept.new ≡ lru_cache (with_container number container kept.old.cap kept.old.entries) kept.old.cap) }
{
    match kept.put(number, container) {
        Ok(old) => drop(old),
        Err(failed) => drop(failed),
    }
}

impl Cache {
    /// A cache for so many containers, which has none yet.
    pub(crate) fn make(alloc: Global, keep: u32) -> Result<Cache, NoMemory>
        ensures { IfOk result (λ cache. cache ≡ record { keep = keep; kept = [] }) }
    {
        let containers = match NonZeroUsize::new(keep as usize) {
            Some(cap) => Some(LruCache::new(alloc, cap)?),
            None => None,
        };
        Ok(Cache { alloc, containers })
    }

    /// Forgets each container.
    pub(crate) fn forget(&mut self)
        ensures { self.new ≡ record self.old { kept = [] } }
    {
        match &mut self.containers {
            Some(kept) => kept.clear(),
            None => {}
        }
    }

    /// Forgets each container from the first to the last, and each that isn't whole.
    pub(crate) fn forget_changed(&mut self, first: u64, last: u64)
        ensures { self.new ≡ record self.old { kept = filter (is_left first last) self.old.kept } }
    {
        match &mut self.containers {
            Some(kept) => forget_each(kept, first, last),
            None => {}
        }
    }

    /// Puts the bytes of a container that is kept from a place in it on in front of `out`, answers how many these are, and
    /// puts it in front. None where it isn't kept.
    pub(crate) fn find(&mut self, number: u64, from: usize, out: &mut [u8]) -> Option<usize>
        ensures none { IfNone result (kept_of self.old.kept number ≡ None) }
        ensures same { IfNone result ((self.new ≡ self.old) × (out.new ≡ out.old)) }
        ensures found { IfSome result (λ count. (bytes : List ℕ)
            × (kept_of self.old.kept number ≡ Some bytes) × ReadsFrom bytes from count out.new) }
        ensures front { IfSome result (λ count. self.new ≡ record self.old { kept = in_front number self.old.kept }) }
    {
        let kept = self.containers.as_mut()?;
        let count = kept.peek(&number)?.copy_from(from, out);
        kept.promote(&number);
        Some(count)
    }

    /// A buffer for a container that isn't kept, with room made for it: where as many are kept as may be, the one that was
    /// read longest ago goes, and the buffer is its memory. None where none is to be kept, or memory is lacking.
    pub(crate) fn room(&mut self, len: usize) -> Option<Container>
        ensures long { IfSome result (λ container. length container ≡ len) }
        ensures room { self.new ≡ record self.old { kept = with_room self.old.keep self.old.kept } }
    {
        match &mut self.containers {
            Some(kept) => match make_room(kept) {
                Some(last) => last.taken_over(self.alloc, len),
                None => Container::make(self.alloc, len),
            },
            None => None,
        }
    }

    /// Puts a container in front that isn't kept, and lets the last one go where that is one too many. Where memory is
    /// lacking nothing changes.
    pub(crate) fn put(&mut self, number: u64, container: Container)
        requires { kept_of self.old.kept number ≡ None }
        ensures { IsKeptOr number container self.old self.new }
    {
        match &mut self.containers {
            Some(kept) => put_front(kept, number, container),
            None => {}
        }
    }
}
