// A list in a balanced tree: the tree, and what is done to it by places.
ghost use Rattle.std.specs.Prelude.{◌≡◌, ◌+◌, ◌<◌, ◌≤◌, ◌^◌, [], ◌∷◌, ◌++◌, length, take, drop, slice_get, slice_set, Some, None, IfOk, MatchOption};
ghost use Rattle.counted_tree.specs.Balance.{IsBalanced, IsForked};

use crate::balance::{joined, rebalanced};
use std::alloc::{AllocError, Global};
use std::marker::Model;
use std::mem;

/// A list that is kept in a balanced tree: an item is found, put in or taken out by its place in as
/// many steps as the tree is high.
///
/// Contracts see the list alone. That a tree is balanced holds of every value, and no clause of a
/// call speaks of it.
#[cycle(tree)]
#[derive(Drop)]
pub struct Tree<T> {
    pub(crate) node: Node<T>,
}

#[cycle(tree)]
#[derive(Drop)]
pub(crate) enum Node<T> {
    Leaf,
    Fork(Box<Branch<T>>),
}

// An item between two trees, and how many items they have together with it.
#[cycle(tree)]
#[derive(Drop)]
pub(crate) struct Branch<T> {
    pub(crate) left: Tree<T>,
    pub(crate) item: T,
    pub(crate) count: u64,
    pub(crate) right: Tree<T>,
}

impl<T> Model for Tree<T> {
    ghost use Rattle.std.specs.Prelude.{List, length};

    ghost Value = { List T };

    ghost use Rattle.counted_tree.specs.Tree.{items, IsCounted};

    ghost view = { λ t. items t.node };

    ghost invariant = { λ t. IsCounted t.node };

    ghost size = { length };

    ghost use Rattle.std.proofs.Common.{arith, length-append};

    ghost size_decreases = { λ t h. Prim.grind (arith, length-append) };
}

impl<T> Tree<T> {
    ghost use Rattle.std.specs.Prelude.{slice_index_or};

    /// No items. It allocates nothing.
    pub fn new() -> Tree<T>
        ensures { result ≡ [] }
    {
        Tree { node: Node::Leaf }
    }

    /// An item alone. Only this takes memory: what is put into another tree is such a one.
    pub fn single(alloc: Global, item: T) -> Result<Tree<T>, AllocError>
    where
        T: Drop,
        ensures { IfOk result (λ tree. tree ≡ item ∷ []) }
    {
        let branch = Box::new(
            alloc,
            Branch {
                left: Tree::new(),
                item,
                count: 1,
                right: Tree::new(),
            },
        )?;
        Ok(Tree {
            node: Node::Fork(branch),
        })
    }

    /// How many items there are.
    pub fn len(&self) -> u64
        ensures { result ≡ length self.now }
    {
        match &self.node {
            Node::Leaf => 0,
            Node::Fork(branch) => branch.count,
        }
    }

    /// The item at a place.
    pub fn get(&self, at: u64) -> Option<&T>
        ensures { MatchOption result (slice_get self.now at ≡ None)
            (λ item. slice_get self.now at ≡ Some item.now) }
    {
        match &self.node {
            Node::Leaf => None,
            Node::Fork(branch) => {
                let before = branch.left.len();
                if at < before {
                    branch.left.get(at)
                } else if at == before {
                    Some(&branch.item)
                } else {
                    branch.right.get(at - before - 1)
                }
            }
        }
    }

    /// Puts a single item before the one at a place, or after the last.
    pub fn insert(&mut self, at: u64, one: Tree<T>)
    where
        T: Drop,
        requires single { length one ≡ 1 }
        requires within { at ≤ length self.old }
        requires fits { length self.old < 2 ^ 61 }
        ensures { self.new ≡ take at self.old ++ one ++ drop at self.old }
    {
        let tree = mem::replace(self, Tree::new());
        *self = tree.with(at, one);
    }

    fn with(self, at: u64, one: Tree<T>) -> Tree<T>
    where
        T: Drop,
        requires single { length one ≡ 1 }
        requires within { at ≤ length self }
        requires fits { length self < 2 ^ 61 }
        ensures { result ≡ take at self ++ one ++ drop at self }
    {
        match self.split() {
            None => one,
            Some((left, branch, right)) => {
                let before = left.len();
                if at <= before {
                    let left = left.with(at, one);
                    rebalanced(left, branch, right)
                } else {
                    let right = right.with(at - before - 1, one);
                    rebalanced(left, branch, right)
                }
            }
        }
    }

    /// Puts an item in the place of another, and gives that.
    pub fn replace(&mut self, at: u64, item: T) -> T
    where
        T: Drop,
        requires within { at < length self.old }
        ensures set { self.new ≡ slice_set self.old at item }
        ensures earlier { slice_get self.old at ≡ Some result }
    {
        match &mut self.node {
            Node::Leaf => unreachable!(),
            Node::Fork(branch) => {
                let before = branch.left.len();
                if at < before {
                    branch.left.replace(at, item)
                } else if at > before {
                    branch.right.replace(at - before - 1, item)
                } else {
                    mem::replace(&mut branch.item, item)
                }
            }
        }
    }

    /// Takes the item at a place out.
    pub fn remove(&mut self, at: u64) -> T
    where
        T: Drop,
        requires within { at < length self.old }
        requires fits { length self.old < 2 ^ 61 }
        ensures item { slice_get self.old at ≡ Some result }
        ensures rest { self.new ≡ take at self.old ++ drop (at + 1) self.old }
    {
        let tree = mem::replace(self, Tree::new());
        let (branch, rest) = tree.without(at);
        *self = rest;
        let Branch { item, .. } = Box::into_inner(branch);
        item
    }

    fn without(self, at: u64) -> (Box<Branch<T>>, Tree<T>)
    where
        T: Drop,
        requires within { at < length self }
        requires fits { length self < 2 ^ 61 }
        ensures item { slice_get self at ≡ Some result.0.value.item }
        ensures rest { result.1 ≡ take at self ++ drop (at + 1) self }
    {
        let Some((left, branch, right)) = self.split() else {
            unreachable!()
        };
        let before = left.len();
        if at < before {
            let (out, left) = left.without(at);
            return (out, rebalanced(left, branch, right));
        }
        if at > before {
            let (out, right) = right.without(at - before - 1);
            return (out, rebalanced(left, branch, right));
        }
        (branch, joined(left, right))
    }

    pub(crate) fn without_first(self) -> (Box<Branch<T>>, Tree<T>)
    where
        T: Drop,
        requires some { 1 ≤ length self }
        requires fits { length self < 2 ^ 61 }
        ensures { self ≡ result.0.value.item ∷ result.1 }
    {
        let Some((left, branch, right)) = self.split() else {
            unreachable!()
        };
        if left.len() == 0 {
            return (branch, right);
        }
        let (out, left) = left.without_first();
        (out, rebalanced(left, branch, right))
    }

    // The root's item and the trees beside it.
    pub(crate) fn split(self) -> Option<(Tree<T>, Box<Branch<T>>, Tree<T>)>
        ensures { MatchOption result (self ≡ [])
            (λ parts. IsForked self parts.0 parts.1.value.item parts.2) }
    {
        match self.node {
            Node::Leaf => None,
            Node::Fork(mut branch) => {
                let left = mem::replace(&mut branch.left, Tree::new());
                let right = mem::replace(&mut branch.right, Tree::new());
                Some((left, branch, right))
            }
        }
    }
}

// A node over two trees that are balanced.
pub(crate) fn fork<T: Drop>(left: Tree<T>, mut branch: Box<Branch<T>>, right: Tree<T>) -> Tree<T>
    requires balanced { IsBalanced (length left) (length right) }
    requires fits { length left + length right < 2 ^ 62 }
    ensures { result ≡ left ++ branch.value.item ∷ right }
{
    branch.count = left.len() + 1 + right.len();
    branch.left = left;
    branch.right = right;
    Tree {
        node: Node::Fork(branch),
    }
}
