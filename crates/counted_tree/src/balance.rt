// Two trees and an item between them become one that is balanced: a side that got too heavy turns
// its root up, or the root of its inner side.
ghost use Rattle.std.specs.Prelude.{◌≡◌, ◌+◌, ◌*◌, ◌<◌, ◌≤◌, ◌^◌, ◌∷◌, ◌++◌, length};
ghost use Rattle.counted_tree.specs.Balance.{IsBalanced, IsNearlyBalanced};

use crate::tree::{Branch, Tree, fork};

// Two trees between which an item was taken out.
pub(crate) fn joined<T: Drop>(left: Tree<T>, right: Tree<T>) -> Tree<T>
    requires balanced { IsBalanced (length left) (length right) }
    requires fits { length left + length right < 2 ^ 61 }
    ensures { result ≡ left ++ right }
{
    if right.len() == 0 {
        return left;
    }
    let (branch, right) = right.without_first();
    rebalanced(left, branch, right)
}

// A node over two trees, one of which may have got too light or too heavy by an item.
pub(crate) fn rebalanced<T: Drop>(left: Tree<T>, branch: Box<Branch<T>>, right: Tree<T>) -> Tree<T>
    requires balanced { IsNearlyBalanced (length left) (length right) }
    requires fits { length left + length right < 2 ^ 62 }
    ensures { result ≡ left ++ branch.value.item ∷ right }
{
    let (before, behind) = (left.len() + 1, right.len() + 1);
    if behind > 3 * before {
        turned_left(left, branch, right)
    } else if before > 3 * behind {
        turned_right(left, branch, right)
    } else {
        fork(left, branch, right)
    }
}

// The right side is too heavy: its root, or the root of its left side, comes up.
fn turned_left<T: Drop>(left: Tree<T>, branch: Box<Branch<T>>, right: Tree<T>) -> Tree<T>
    requires heavy { 3 * (length left + 1) < length right + 1 }
    requires nearly { length right + 1 ≤ 3 * (length left + 1) + 3 }
    requires fits { length left + length right < 2 ^ 62 }
    ensures { result ≡ left ++ branch.value.item ∷ right }
{
    let Some((inner, root, outer)) = right.split() else {
        unreachable!()
    };
    if inner.len() + 1 < 2 * (outer.len() + 1) {
        let left = fork(left, branch, inner);
        return fork(left, root, outer);
    }
    let Some((near, middle, far)) = inner.split() else {
        unreachable!()
    };
    let left = fork(left, branch, near);
    let right = fork(far, root, outer);
    fork(left, middle, right)
}

// The same the other way round.
fn turned_right<T: Drop>(left: Tree<T>, branch: Box<Branch<T>>, right: Tree<T>) -> Tree<T>
    requires heavy { 3 * (length right + 1) < length left + 1 }
    requires nearly { length left + 1 ≤ 3 * (length right + 1) + 3 }
    requires fits { length left + length right < 2 ^ 62 }
    ensures { result ≡ left ++ branch.value.item ∷ right }
{
    let Some((outer, root, inner)) = left.split() else {
        unreachable!()
    };
    if inner.len() + 1 < 2 * (outer.len() + 1) {
        let right = fork(inner, branch, right);
        return fork(outer, root, right);
    }
    let Some((far, middle, near)) = inner.split() else {
        unreachable!()
    };
    let left = fork(outer, root, far);
    let right = fork(near, branch, right);
    fork(left, middle, right)
}
