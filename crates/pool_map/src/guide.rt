// Where in the ring of a sorted table a search may begin: the tree of its slots says it, and here it is tested.
ghost use Rattle.pool_map.specs.Index.{IsStart};

use super::{Key, KeyedValue};
use slot_pool::{Content, Pool};
use slot_tree::SlotTree;
use std::cmp::Ordering;

// More levels than a balanced tree of all numbers of 32 bits has: that has 46.
const LEVELS: u32 = 64;

/// Where a search for the key in this slot may begin: at the slot before it, or at the number of slots.
pub(super) fn before<K: Key, W>(
    tree: &SlotTree,
    pool: &Pool<KeyedValue<K, W>>,
    key: &K,
    slot: u32,
) -> u32
    ensures { IsStart K.cmp pool.now.slots key.now result }
{
    let before = tree.previous(slot);
    if before >= pool.slots() {
        return pool.slots();
    }
    match pool.look(before) {
        Content::Held(_, entry) => match entry.key.cmp(key) {
            Ordering::Less => before,
            _ => closest(tree, pool, key),
        },
        Content::Empty => closest(tree, pool, key),
    }
}

/// The slot with the greatest key that is smaller than this, or the number of slots.
pub(super) fn closest<K: Key, W>(tree: &SlotTree, pool: &Pool<KeyedValue<K, W>>, key: &K) -> u32
    ensures { IsStart K.cmp pool.now.slots key.now result }
{
    let mut closest = pool.slots();
    let mut at = tree.root();
    for _level in 0..LEVELS {
        if at >= pool.slots() {
            return closest;
        }
        match pool.look(at) {
            Content::Held(_, entry) => match entry.key.cmp(key) {
                Ordering::Less => {
                    closest = at;
                    at = tree.right(at);
                }
                _ => at = tree.left(at),
            },
            Content::Empty => return closest,
        }
    }
    closest
}
