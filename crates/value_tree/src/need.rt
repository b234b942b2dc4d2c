//! The room that a change needs, known before its values are.
ghost use Rattle.std.specs.Prelude.{◌≡◌, ℕ, ◌+◌, ◌<◌, ◌≤◌, List, [], ◌∷◌, ◌++◌, map, length, Option, Some, None};
ghost use Rattle.std.specs.Option.{option_map};
ghost use Rattle.tree_shape.specs.declared.node.Child.TheVariants.{Leaf};
ghost use Rattle.tree_shape.specs.Values.{part, composed_all};
ghost use Rattle.tree_shape.specs.Composing.{latest_room};
ghost use Rattle.value_tree.specs.Need.{leaf_rooms, node_rooms, more_rooms, found_at};

use crate::values::Values;
use tree_shape::{Child, Dirty};

/// A leaf's new room, by its number.
#[derive(Clone, Copy)]
pub(crate) struct NewLeaf<R> {
    pub number: u32,
    pub room: R,
}

/// The room found last for an inner node among the rows that have one.
fn found<S: Values>(need: &S::Need, dirty: &Dirty, rows: u32, node: u32) -> Option<S::Room>
    requires rows { rows ≡ length (S.rooms need.now) }
    requires few { rows ≤ length dirty.now }
    ensures { result ≡ latest_room node dirty.now (S.rooms need.now) None }
{
    for behind in 0..rows {
        let i = rows - 1 - behind;
        if let Some(row) = dirty.get(i) {
            if row.node == node {
                return Some(S::nth(need, i));
            }
        }
    }
    None
}

/// The room of a child: that of the new leaf, or found among the rows, or that of what it has.
fn room_at<S: Values>(
    store: &S,
    new: &Option<NewLeaf<S::Room>>,
    need: &S::Need,
    dirty: &Dirty,
    rows: u32,
    child: Child,
) -> S::Room
    requires rows { rows ≡ length (S.rooms need.now) }
    requires few { rows ≤ length dirty.now }
    requires there { (r : S.Room) × (found_at S.room (S.leaf_at store.now) (S.node_at store.now) new.now dirty.now (S.rooms need.now) child ≡ Some r) }
    ensures { Some result ≡ found_at S.room (S.leaf_at store.now) (S.node_at store.now) new.now dirty.now (S.rooms need.now) child }
{
    match child {
        Child::Leaf(number) => {
            if let Some(leaf) = new {
                if leaf.number == number {
                    return leaf.room;
                }
            }
            store.room_of(child)
        }
        Child::Inner(node) => match found::<S>(need, dirty, rows, node) {
            Some(room) => room,
            None => store.room_of(child),
        },
    }
}

/// Puts the rooms of a change's rows into a need, and then that of its new leaf, in place of what it had.
pub(crate) fn fill_need<S: Values>(
    store: &S,
    new: Option<NewLeaf<S::Room>>,
    dirty: &Dirty,
    need: &mut S::Need,
)
    requires there { (all : List S.Room) × (map (λ r. Some r) all ≡ composed_all S.after (leaf_rooms S.room (S.leaf_at store.now) new) (node_rooms S.room (S.node_at store.now)) dirty.now) }
    ensures { (rest : List S.Room) × (S.rooms need.new ≡ rest ++ more_rooms new) × (map (λ r. Some r) rest ≡ composed_all S.after (leaf_rooms S.room (S.leaf_at store.now) new) (node_rooms S.room (S.node_at store.now)) dirty.now) }
{
    S::clear(need);
    for i in 0..dirty.len() {
        if let Some(row) = dirty.get(i) {
            let left = room_at(store, &new, need, dirty, i, row.left);
            let right = room_at(store, &new, need, dirty, i, row.right);
            S::push(need, S::both(left, right));
        }
    }
    if let Some(leaf) = new {
        S::push(need, leaf.room);
    }
}

/// The same as a need of its own.
pub(crate) fn need_of<S: Values>(store: &S, new: Option<NewLeaf<S::Room>>, dirty: &Dirty) -> S::Need
    requires there { (all : List S.Room) × (map (λ r. Some r) all ≡ composed_all S.after (leaf_rooms S.room (S.leaf_at store.now) new) (node_rooms S.room (S.node_at store.now)) dirty.now) }
    ensures { (rest : List S.Room) × (S.rooms result ≡ rest ++ more_rooms new) × (map (λ r. Some r) rest ≡ composed_all S.after (leaf_rooms S.room (S.leaf_at store.now) new) (node_rooms S.room (S.node_at store.now)) dirty.now) }
{
    let mut need = S::no_need();
    fill_need(store, new, dirty, &mut need);
    need
}
