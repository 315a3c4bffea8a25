//! A balanced binary tree of numbered slots: a guide to a table whose slots are linked in the order of their keys.
//!
//! The heights of a slot's two subtrees differ by one at most (Adelson-Velsky and Landis, 1962). No clause says so: who asks the
//! tree tests what it answers, so that the speed of a search rests on the tree's shape, and what is found doesn't.
#![tactic(auto)]

use std::alloc::{AllocError, Global};

/// The number of no slot.
pub const NONE: u32 = u32::MAX;

// More levels than a balanced tree of all numbers of 32 bits has: that has 46.
const LEVELS: u32 = 64;

// Where a slot stands in the tree. A parent or child that it lacks is `NONE`.
#[derive(Clone, Copy)]
struct Node {
    parent: u32,
    left: u32,
    right: u32,
    // the levels of the tree from here on
    height: u32,
}

impl Node {
    // A slot without children.
    fn leaf(parent: u32) -> Node {
        Node {
            parent,
            left: NONE,
            right: NONE,
            height: 1,
        }
    }
}

// Which of a slot's children.
#[derive(Clone, Copy)]
enum Side {
    Left,
    Right,
}

/// A balanced tree of slots, in the order in which they were put between each other.
#[derive(Drop)]
pub struct SlotTree {
    // the place of each slot, of which those that the root reaches are in the tree
    nodes: Vec<Node>,
    // the slot before each in the order, or the number of slots
    previous: Vec<u32>,
    root: u32,
}

impl SlotTree {
    /// A tree of no slot, which so many may come into: those with numbers below `slots`. `AllocError` is want of memory.
    pub fn make(alloc: Global, slots: u32) -> Result<SlotTree, AllocError> {
        let mut nodes = Vec::with_capacity(alloc, slots as usize)?;
        let mut previous = Vec::with_capacity(alloc, slots as usize)?;
        for _slot in 0..slots {
            nodes.push_reserved(Node::leaf(NONE));
            previous.push_reserved(NONE);
        }
        Ok(SlotTree {
            nodes,
            previous,
            root: NONE,
        })
    }

    /// The slot at the top, or `NONE`.
    pub fn root(&self) -> u32 {
        self.root
    }

    /// The slot below a slot on the left, or `NONE`.
    pub fn left(&self, slot: u32) -> u32 {
        self.node(slot).left
    }

    /// The slot below a slot on the right, or `NONE`.
    pub fn right(&self, slot: u32) -> u32 {
        self.node(slot).right
    }

    /// How many levels the tree has from a slot on: 0 where the slot isn't in the tree.
    pub fn levels(&self, slot: u32) -> u32 {
        self.node(slot).height
    }

    /// The slot before a slot in the order, or the number of slots. `NONE` where nothing is known of the slot.
    pub fn previous(&self, slot: u32) -> u32 {
        match self.previous.get(slot as usize) {
            Some(before) => *before,
            None => NONE,
        }
    }

    /// Puts a slot between the two that follow each other in the order. One that isn't there is the number of slots.
    pub fn insert(&mut self, before: u32, after: u32, slot: u32) {
        self.set_previous(slot, before);
        self.set_previous(after, slot);
        let ends = self.holds(before) && self.node(before).right == NONE;
        let (parent, side) = if ends {
            (before, Side::Right)
        } else {
            (after, Side::Left)
        };
        if self.holds(parent) {
            self.put(slot, Node::leaf(parent));
            self.set_child(parent, side, slot);
            self.balance_from(parent);
        } else {
            self.put(slot, Node::leaf(NONE));
            self.root = slot;
        }
    }

    /// Takes a slot out from between two in the order. One that isn't there is the number of slots.
    pub fn remove(&mut self, before: u32, slot: u32, after: u32) {
        self.set_previous(after, before);
        let node = self.node(slot);
        if node.left == NONE || node.right == NONE {
            let child = if node.left == NONE {
                node.right
            } else {
                node.left
            };
            self.replace(slot, child);
            self.balance_from(node.parent);
        } else {
            // The slot before is the last of the left subtree, and takes the slot's place.
            let last = self.node(before);
            let lowest = if last.parent == slot {
                before
            } else {
                last.parent
            };
            self.replace(before, last.left);
            let node = self.node(slot);
            self.replace(slot, before);
            self.put(before, node);
            self.set_parent(node.left, before);
            self.set_parent(node.right, before);
            self.balance_from(lowest);
        }
    }

    /// Takes each slot out.
    pub fn clear(&mut self) {
        self.root = NONE;
    }

    // Whether the tree has such a slot.
    fn holds(&self, slot: u32) -> bool {
        (slot as usize) < self.nodes.len()
    }

    // Where a slot stands. A slot that isn't there has no level.
    fn node(&self, slot: u32) -> Node {
        match self.nodes.get(slot as usize) {
            Some(node) => *node,
            None => Node {
                parent: NONE,
                left: NONE,
                right: NONE,
                height: 0,
            },
        }
    }

    // Sets where a slot stands, if there is such a slot.
    fn put(&mut self, slot: u32, node: Node) {
        if let Some(old) = self.nodes.get_mut(slot as usize) {
            *old = node;
        }
    }

    // Sets which slot comes before a slot, if there is such a slot.
    fn set_previous(&mut self, slot: u32, before: u32) {
        if let Some(previous) = self.previous.get_mut(slot as usize) {
            *previous = before;
        }
    }

    // Hangs a slot, if there is one, below another.
    fn set_parent(&mut self, slot: u32, parent: u32) {
        if let Some(node) = self.nodes.get_mut(slot as usize) {
            node.parent = parent;
        }
    }

    // Makes a slot the child of another.
    fn set_child(&mut self, slot: u32, side: Side, child: u32) {
        if let Some(node) = self.nodes.get_mut(slot as usize) {
            match side {
                Side::Left => node.left = child,
                Side::Right => node.right = child,
            }
        }
        self.set_parent(child, slot);
    }

    // Puts another slot where a slot hangs.
    fn replace(&mut self, slot: u32, other: u32) {
        let parent = self.node(slot).parent;
        if !self.holds(parent) {
            self.root = other;
            self.set_parent(other, NONE);
        } else if self.node(parent).left == slot {
            self.set_child(parent, Side::Left, other);
        } else {
            self.set_child(parent, Side::Right, other);
        }
    }

    // Counts the levels from a slot on, by those of its children.
    fn measure(&mut self, slot: u32) {
        let node = self.node(slot);
        let below = self
            .node(node.left)
            .height
            .max(self.node(node.right).height);
        if let Some(node) = self.nodes.get_mut(slot as usize) {
            node.height = below.saturating_add(1);
        }
    }

    // Puts a slot's right child in its place, and the slot below it on the left. Answers the child.
    fn rotate_left(&mut self, slot: u32) -> u32 {
        let up = self.node(slot).right;
        let middle = self.node(up).left;
        self.replace(slot, up);
        self.set_child(slot, Side::Right, middle);
        self.set_child(up, Side::Left, slot);
        self.measure(slot);
        self.measure(up);
        up
    }

    // Puts a slot's left child in its place, and the slot below it on the right. Answers the child.
    fn rotate_right(&mut self, slot: u32) -> u32 {
        let up = self.node(slot).left;
        let middle = self.node(up).right;
        self.replace(slot, up);
        self.set_child(slot, Side::Left, middle);
        self.set_child(up, Side::Right, slot);
        self.measure(slot);
        self.measure(up);
        up
    }

    // Balances a slot whose subtrees are balanced, and differ by two levels at most. Answers what stands in its place then.
    fn balance(&mut self, slot: u32) -> u32 {
        let node = self.node(slot);
        let left = self.node(node.left);
        let right = self.node(node.right);
        if left.height > right.height.saturating_add(1) {
            if self.node(left.left).height < self.node(left.right).height {
                self.rotate_left(node.left);
            }
            self.rotate_right(slot)
        } else if right.height > left.height.saturating_add(1) {
            if self.node(right.right).height < self.node(right.left).height {
                self.rotate_right(node.right);
            }
            self.rotate_left(slot)
        } else {
            self.measure(slot);
            slot
        }
    }

    // Balances a slot below which one came or went, and those above it as far as the levels change.
    fn balance_from(&mut self, slot: u32) {
        let mut at = slot;
        for _level in 0..LEVELS {
            if !self.holds(at) {
                return;
            }
            let height = self.node(at).height;
            let top = self.balance(at);
            let node = self.node(top);
            if top == at && node.height == height {
                return;
            }
            at = node.parent;
        }
    }
}
