use slot_tree::SlotTree;
use std::test::Fail;

// Whether a slot's levels are counted right, and those below it on both sides differ by one at most.
fn is_balanced(tree: &SlotTree, slot: u32) -> bool {
    let left = tree.levels(tree.left(slot));
    let right = tree.levels(tree.right(slot));
    tree.levels(slot) == left.max(right).saturating_add(1)
        && left <= right.saturating_add(1)
        && right <= left.saturating_add(1)
}

// The last slot before another among those that are present, or 1,000.
fn last_before(present: &[bool], slot: u32) -> u32 {
    let mut last = 1000;
    for at in 0..slot {
        if present.get(at as usize) == Some(&true) {
            last = at;
        }
    }
    last
}

// The first slot after another among those that are present, or 1,000.
fn first_after(present: &[bool], slot: u32) -> u32 {
    let mut first = 1000;
    for at in slot.saturating_add(1)..1000 {
        if first == 1000 && present.get(at as usize) == Some(&true) {
            first = at;
        }
    }
    first
}

// Whether each slot that is present is balanced, and knows the one before it.
fn all_balanced(tree: &SlotTree, present: &[bool]) -> bool {
    let mut balanced = true;
    let mut last = 1000;
    for slot in 0u32..1000 {
        if present.get(slot as usize) == Some(&true) {
            balanced = balanced && tree.previous(slot) == last && is_balanced(tree, slot);
            last = slot;
        }
    }
    balanced
}

// Whether the tree has ten levels when all slots came in order.
fn is_filled(tree: &mut SlotTree) -> bool {
    for slot in 0u32..1000 {
        tree.insert(slot.checked_sub(1).unwrap_or(1000), 1000, slot);
    }
    tree.levels(tree.root()) == 10
}

// Takes a slot out. Whether the rest is balanced then.
fn is_balanced_without(tree: &mut SlotTree, present: &mut [bool], slot: u32) -> bool {
    let before = last_before(present, slot);
    tree.remove(before, slot, first_after(present, slot));
    if let Some(here) = present.get_mut(slot as usize) {
        *here = false;
    }
    all_balanced(tree, present)
}

fn stays_so(tree: &mut SlotTree, present: &mut [bool]) -> bool {
    let mut well = is_filled(tree);
    for step in 0u32..900 {
        well = is_balanced_without(tree, present, step.wrapping_mul(377) % 1000) && well;
    }
    let few = tree.levels(tree.root()) <= 8;
    tree.clear();
    well && few && tree.levels(tree.root()) == 0
}

#[test]
fn stays_balanced(rt: HostRuntime) -> Result<(), Fail> {
    let mut tree = SlotTree::make(rt.alloc(), 1000)?;
    let mut present = [true; 1000];
    let well = stays_so(&mut tree, &mut present);
    drop(tree);
    assert!(rt; well);
    Ok(())
}
