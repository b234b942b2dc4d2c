//! The tree by positions: an arena of inner nodes, its root and the numbers of its leaves and its inner nodes.
ghost use Rattle.std.specs.Prelude.{◌≡◌, ℕ, ◌+◌, ◌-◌, ◌*◌, ◌<◌, ◌≤◌, max, [], length, Option, Some, None, true, IfOk, OnOk, nat_lt, slice_index, vec_len, vec_capacity};
ghost use Rattle.std.specs.List.{slice_get};
ghost use Rattle.std.specs.Option.{option_map};
ghost use Rattle.tree_shape.specs.declared.node.Child.TheVariants.{Inner};
ghost use Rattle.tree_shape.specs.Tree.{Tree, name, height, count, NodesStand};
ghost use Rattle.tree_shape.specs.Plan.{plan_grown, tree_of_plan, rows};
ghost use Rattle.tree_shape.specs.Apply.{times};
ghost use Rattle.tree_shape.specs.Removal.{plan_shrunk};
ghost use Rattle.tree_shape.specs.Numbers.{next_number, numbers_without_next, given_back};
ghost use Rattle.tree_shape.specs.View.{ShapeView, leaf_count_of, leaves_of_tree, height_of_tree, IsSoundTree, HasPlace, HasSoundLeaf, IsLawfulShape, IsSameShape, tree_with, rows_with, inners_with, tree_without, rows_without, inners_without, rows_above};
ghost use Rattle.tree_shape.specs.Changes.{IsSubtreeOf, HasBelow, HasInner, times_listed, ListsChanges, BoundsHeight, IsNodeOverPosition, numbers_below};
ghost use Rattle.tree_shape.specs.Fewest.{list_inserted, list_removed};
ghost use Rattle.tree_shape.specs.Building.{inners_upward};

use crate::arena::apply;
use crate::building::build_below;
use crate::climbing::climbed;
use crate::dirty::{Dirty, row_on};
use crate::insertion::grow;
use crate::node::{Child, Node, height_of, leaf_at, leaves_of, row};
use crate::numbers::Numbers;
use crate::parents::Parents;
use crate::removal::{parent_of, shrink, touch_below};
use knit_base::NoMemory;
use std::alloc::Global;
use std::marker::Model;

/// A height-balanced binary tree of at most 65,536 leaves, found by position. It keeps the numbers of its leaves and its
/// inner nodes, and no more of them.
#[derive(Drop)]
pub struct Shape {
    nodes: Vec<Node>,
    root: Option<Child>,
    leaves: Numbers,
    inners: Numbers,
    parents: Parents,
}

impl Model for Shape {
    ghost use Rattle.std.specs.Prelude.{◌≡◌, ◌≤◌, ◌&&◌, length, vec_len, vec_capacity, nat_lt};
    ghost use Rattle.std.specs.Option.{option_map};
    ghost use Rattle.tree_shape.specs.Numbers.{numbers_view};
    ghost use Rattle.tree_shape.specs.View.{ShapeView, shape_code, tree_at, IsShape};
    ghost use Rattle.tree_shape.specs.Parents.{parents_of, PartsHaveParents, HavePlaces};

    ghost Value = { ShapeView };

    ghost coded = { shape_code };

    ghost view = { λ s. record { tree = option_map (tree_at s.nodes.items) s.root; leaf_numbers = numbers_view s.leaves; inner_numbers = numbers_view s.inners; room = ((nat_lt s.leaves.drawn (vec_capacity s.leaves.free) && nat_lt s.inners.drawn (vec_capacity s.inners.free)) && nat_lt (vec_len s.nodes) (vec_capacity s.nodes)) && (nat_lt s.leaves.drawn (length s.parents.leaves.items) && nat_lt s.inners.drawn (length s.parents.inners.items)) } };

    ghost invariant = { λ s. IsShape s.nodes.items s.root (numbers_view s.leaves) (numbers_view s.inners) × (vec_len s.nodes ≡ s.inners.drawn) × (s.leaves.drawn ≤ vec_capacity s.leaves.free) × (s.inners.drawn ≤ vec_capacity s.inners.free) × PartsHaveParents (parents_of s.parents) (option_map (tree_at s.nodes.items) s.root) × HavePlaces (parents_of s.parents) s.leaves.drawn s.inners.drawn };
}

impl Shape {
    /// A shape with no leaf, which takes no memory.
    pub fn new(alloc: Global) -> Shape
        ensures tree { result.tree ≡ None }
        ensures leaf_numbers { result.leaf_numbers ≡ record { free = []; drawn = 0 } }
        ensures inner_numbers { result.inner_numbers ≡ record { free = []; drawn = 0 } }
    {
        Shape {
            nodes: Vec::new(alloc),
            root: None,
            leaves: Numbers::new(alloc),
            inners: Numbers::new(alloc),
            parents: Parents::new(alloc),
        }
    }

    /// A shape whose leaves are numbered in order from 0, and whose inner nodes are numbered from 0, too, each after those
    /// below it.
    pub fn build(alloc: Global, leaves: u32) -> Result<Shape, NoMemory>
        requires { leaves ≤ 65536 }
        ensures leaves { IfOk result (λ shape. leaves_of_tree shape.tree ≡ numbers_below leaves) }
        ensures leaf_numbers { IfOk result (λ shape. shape.leaf_numbers ≡ record { free = []; drawn = leaves }) }
        ensures inners { IfOk result (λ shape. inners_upward shape.tree ≡ numbers_below (leaves - 1)) }
        ensures inner_numbers { IfOk result (λ shape. shape.inner_numbers ≡ record { free = []; drawn = leaves - 1 }) }
    {
        if leaves == 0 {
            return Ok(Shape::new(alloc));
        }
        let mut nodes = Vec::with_capacity(alloc, leaves as usize)?;
        let root = build_below(&mut nodes, 0, leaves);
        let mut parents = Parents::new(alloc);
        parents.reserve(leaves, leaves - 1)?;
        parents.note_nodes(nodes.as_slice());
        let inners = Numbers::of(alloc, leaves - 1)?;
        let leaves = Numbers::of(alloc, leaves)?;
        Ok(Shape {
            nodes,
            root: Some(root),
            leaves,
            inners,
            parents,
        })
    }

    /// The number of leaves.
    pub fn len(&self) -> u32
        ensures leaves { result ≡ leaf_count_of self.now.tree }
        ensures lawful { IsLawfulShape self.now }
    {
        match self.root {
            None => 0,
            Some(child) => leaves_of(self.nodes.as_slice(), child),
        }
    }

    /// How many numbers of leaves were drawn so far: each leaf's number is below it.
    pub fn leaf_numbers(&self) -> u32
        ensures { result ≡ self.now.leaf_numbers.drawn }
    {
        self.leaves.drawn
    }

    /// How many numbers of inner nodes were drawn so far: each inner node's number is below it.
    pub fn inner_numbers(&self) -> u32
        ensures { result ≡ self.now.inner_numbers.drawn }
    {
        self.inners.drawn
    }

    /// The number that the next inner node gets. It is not in the tree; right after a removal below an inner node it is the
    /// number of the node that went.
    pub fn next_inner(&self) -> u32
        ensures { result ≡ next_number self.now.inner_numbers }
    {
        self.inners.next()
    }

    /// The height: 0 for no leaf and for one, and at most 22.
    pub fn height(&self) -> u32
        ensures height { result ≡ height_of_tree self.now.tree }
        ensures low { result ≤ 22 }
    {
        match self.root {
            None => 0,
            Some(child) => u32::from(height_of(self.nodes.as_slice(), child)),
        }
    }

    /// The root, if there is a leaf.
    pub fn root(&self) -> Option<Child>
        ensures { result ≡ option_map name self.now.tree }
    {
        self.root
    }

    /// The two children of an inner node of the tree.
    pub fn children(&self, inner: u32) -> (Child, Child)
        requires { HasInner self.now.tree inner }
        ensures { (l r : Tree) → HasBelow self.now.tree inner l r → result ≡ (name l, name r) }
    {
        let node = row(self.nodes.as_slice(), inner);
        (node.left, node.right)
    }

    /// The number of leaves below a leaf or an inner node of the tree.
    pub fn leaves_below(&self, child: Child) -> u32
        requires { (t : Tree) × (child ≡ name t) × IsSubtreeOf t self.now.tree }
        ensures { (t : Tree) → child ≡ name t → IsSubtreeOf t self.now.tree → result ≡ count t }
    {
        leaves_of(self.nodes.as_slice(), child)
    }

    /// The number of the leaf at a position.
    pub fn leaf(&self, at: u32) -> u32
        requires { at < leaf_count_of self.now.tree }
        ensures { result ≡ slice_index (leaves_of_tree self.now.tree) at }
    {
        match self.root {
            None => 0,
            Some(child) => leaf_at(self.nodes.as_slice(), child, at),
        }
    }

    /// The position of the leaf with a number. Takes no more steps than the tree is high.
    pub fn position(&self, number: u32) -> u32
        requires { (at : ℕ) × (slice_get (leaves_of_tree self.now.tree) at ≡ Some number) }
        ensures { slice_get (leaves_of_tree self.now.tree) result ≡ Some number }
    {
        match self.root {
            None => 0,
            Some(root) => climbed(self.nodes.as_slice(), &self.parents, root, number),
        }
    }

    /// Whether one more leaf can be inserted without memory.
    pub fn has_room(&self) -> bool
        ensures { result ≡ self.now.room }
    {
        self.leaves.has_room()
            && self.inners.has_room()
            && self.nodes.len() < self.nodes.capacity()
            && self
                .parents
                .have_places(self.leaves.drawn, self.inners.drawn)
    }

    /// Makes room for one more leaf.
    pub fn reserve_one(&mut self) -> Result<(), NoMemory>
        ensures ok { OnOk result (self.new.room ≡ true) }
        ensures same { IsSameShape self.old self.new }
        ensures keeps { self.old.room ≡ true → self.new.room ≡ true }
    {
        if self.has_room() {
            return Ok(());
        }
        self.leaves.reserve_one()?;
        self.inners.reserve_one()?;
        self.nodes.reserve(1)?;
        self.parents
            .reserve(self.leaves.drawn + 1, self.inners.drawn + 1)
    }

    /// What `insert` at this position lists and answers.
    pub fn plan_insert(&self, at: u32, dirty: &mut Dirty) -> u32
        requires place { at ≤ leaf_count_of self.now.tree }
        requires few { leaf_count_of self.now.tree < 65536 }
        ensures number { result ≡ next_number self.now.leaf_numbers }
        ensures listed { dirty.new ≡ rows_with at (next_number self.now.leaf_numbers) (next_number self.now.inner_numbers) self.now.tree }
    {
        dirty.clear();
        let new = self.leaves.next();
        match self.root {
            None => new,
            Some(child) => {
                let number = self.inners.next();
                plan_put(self.nodes.as_slice(), child, at, new, number, dirty);
                new
            }
        }
    }

    /// Puts a new leaf at a position, before the leaf that was there, and answers its number. Lists the inner nodes whose
    /// leaves or children changed, children before parents.
    pub fn insert(&mut self, at: u32, dirty: &mut Dirty) -> u32
        requires room { self.old.room ≡ true }
        requires place { at ≤ leaf_count_of self.old.tree }
        requires few { leaf_count_of self.old.tree < 65536 }
        ensures number { result ≡ next_number self.old.leaf_numbers }
        ensures leaves { leaves_of_tree self.new.tree ≡ list_inserted at result (leaves_of_tree self.old.tree) }
        ensures tree { self.new.tree ≡ Some (tree_with at (next_number self.old.leaf_numbers) (next_number self.old.inner_numbers) self.old.tree) }
        ensures leaf_numbers { self.new.leaf_numbers ≡ numbers_without_next self.old.leaf_numbers }
        ensures inner_numbers { self.new.inner_numbers ≡ inners_with self.old.tree self.old.inner_numbers }
        ensures listed { dirty.new ≡ rows_with at (next_number self.old.leaf_numbers) (next_number self.old.inner_numbers) self.old.tree }
        ensures listing { ListsChanges self.old.tree self.new.tree dirty.new }
        ensures few { (high : ℕ) → BoundsHeight (leaf_count_of self.new.tree) high → length dirty.new ≤ 3 * (high + 2) }
    {
        dirty.clear();
        let new = self.leaves.draw();
        match self.root {
            None => {
                self.root = Some(Child::Leaf(new));
                new
            }
            Some(child) => {
                let number = self.inners.draw();
                self.root = Some(put(&mut self.nodes, child, at, new, number, dirty));
                self.parents.note(dirty);
                new
            }
        }
    }

    /// What `remove` at this position lists and answers.
    pub fn plan_remove(&self, at: u32, dirty: &mut Dirty) -> u32
        requires { at < leaf_count_of self.now.tree }
        ensures number { result ≡ slice_index (leaves_of_tree self.now.tree) at }
        ensures listed { dirty.new ≡ rows_without at self.now.tree }
    {
        dirty.clear();
        match self.root {
            None => 0,
            Some(child) => {
                plan_take(self.nodes.as_slice(), child, at, dirty);
                leaf_at(self.nodes.as_slice(), child, at)
            }
        }
    }

    /// Takes the leaf at a position out and answers its number, which is free again. Lists the inner nodes whose leaves or
    /// children changed, children before parents.
    pub fn remove(&mut self, at: u32, dirty: &mut Dirty) -> u32
        requires { at < leaf_count_of self.old.tree }
        ensures number { result ≡ slice_index (leaves_of_tree self.old.tree) at }
        ensures leaves { leaves_of_tree self.new.tree ≡ list_removed at (leaves_of_tree self.old.tree) }
        ensures tree { self.new.tree ≡ tree_without at self.old.tree }
        ensures leaf_numbers { self.new.leaf_numbers ≡ given_back (slice_index (leaves_of_tree self.old.tree) at) self.old.leaf_numbers }
        ensures inner_numbers { self.new.inner_numbers ≡ inners_without at self.old.tree self.old.inner_numbers }
        ensures listed { dirty.new ≡ rows_without at self.old.tree }
        ensures listing { ListsChanges self.old.tree self.new.tree dirty.new }
        ensures few { (high : ℕ) → BoundsHeight (leaf_count_of self.old.tree) high → length dirty.new ≤ 3 * (high + 2) }
    {
        dirty.clear();
        match self.root {
            None => 0,
            Some(child) => match child {
                Child::Leaf(number) => {
                    self.root = None;
                    self.leaves.give_back(number);
                    number
                }
                Child::Inner(top) => {
                    let number = leaf_at(self.nodes.as_slice(), child, at);
                    let gone = parent_of(self.nodes.as_slice(), top, at);
                    self.root = Some(take(&mut self.nodes, top, at, dirty));
                    self.parents.note(dirty);
                    self.leaves.give_back(number);
                    self.inners.give_back(gone);
                    number
                }
            },
        }
    }

    /// Lists the inner nodes above the leaf at a position, children before parents.
    pub fn touch(&self, at: u32, dirty: &mut Dirty)
        requires { at < leaf_count_of self.now.tree }
        ensures listed { dirty.new ≡ rows_above at self.now.tree }
        ensures above { (n : ℕ) → IsNodeOverPosition self.now.tree at n → times_listed n dirty.new ≡ 1 }
        ensures no_other { (n : ℕ) → 1 ≤ times_listed n dirty.new → IsNodeOverPosition self.now.tree at n }
        ensures listing { ListsChanges self.now.tree self.now.tree dirty.new }
        ensures few { (high : ℕ) → BoundsHeight (leaf_count_of self.now.tree) high → length dirty.new ≤ high }
    {
        dirty.clear();
        match self.root {
            None => {}
            Some(child) => touch_below(self.nodes.as_slice(), child, at, dirty),
        }
    }
}

/// Lists what a new leaf below a root writes, and answers the root that there is then.
fn plan_put(
    nodes: &[Node],
    child: Child,
    at: u32,
    new: u32,
    number: u32,
    dirty: &mut Dirty,
) -> Child
    requires place { HasPlace nodes.now child at number }
    requires empty { dirty.old ≡ [] }
    ensures root { (t : Tree) → IsSoundTree nodes.now child t → result ≡ name (tree_of_plan (plan_grown at new number t)) }
    ensures listed { (t : Tree) → IsSoundTree nodes.now child t → dirty.new ≡ rows (plan_grown at new number t) }
{
    let grown = grow(nodes, child, at, new, number, dirty);
    dirty.push(row_on(grown.side, grown.node, grown.near, grown.far));
    Child::Inner(grown.node)
}

/// Makes a row for an inner node's number, unless there is one.
fn add_row(nodes: &mut Vec<Node>, child: Child, number: u32)
    requires room { vec_len nodes.old < vec_capacity nodes.old }
    requires near { number ≤ vec_len nodes.old }
    ensures len { vec_len nodes.new ≡ max (vec_len nodes.old) (number + 1) }
    ensures place { number < length nodes.new.items }
    ensures stands { (t : Tree) → NodesStand nodes.old.items t → NodesStand nodes.new.items t }
{
    if number as usize == nodes.as_slice().len() {
        nodes.push_reserved(Node {
            left: child,
            right: child,
            height: 0,
            leaves: 0,
        });
    }
}

/// Puts a leaf below a root, over an arena with room for one more row.
fn put(
    nodes: &mut Vec<Node>,
    child: Child,
    at: u32,
    new: u32,
    number: u32,
    dirty: &mut Dirty,
) -> Child
    requires room { vec_len nodes.old < vec_capacity nodes.old }
    requires near { number ≤ vec_len nodes.old }
    requires place { HasPlace nodes.old.items child at number }
    requires empty { dirty.old ≡ [] }
    ensures len { vec_len nodes.new ≡ max (vec_len nodes.old) (number + 1) }
    ensures sound { (t : Tree) → IsSoundTree nodes.old.items child t → at ≤ count t → count t < 65536 → times number t ≡ 0 → IsSoundTree nodes.new.items result (tree_of_plan (plan_grown at new number t)) }
    ensures listed { (t : Tree) → IsSoundTree nodes.old.items child t → dirty.new ≡ rows (plan_grown at new number t) }
{
    add_row(nodes, child, number);
    let root = plan_put(nodes.as_slice(), child, at, new, number, dirty);
    apply(nodes.as_mut_slice(), dirty);
    root
}

/// Lists what a removal below a root writes, and answers the root that there is then.
fn plan_take(nodes: &[Node], child: Child, at: u32, dirty: &mut Dirty) -> Child
    requires place { HasSoundLeaf nodes.now child at }
    requires empty { dirty.old ≡ [] }
    ensures root { (t : Tree) → IsSoundTree nodes.now child t → result ≡ name (tree_of_plan (plan_shrunk at t)) }
    ensures listed { (t : Tree) → IsSoundTree nodes.now child t → dirty.new ≡ rows (plan_shrunk at t) }
{
    shrink(nodes, child, at, dirty).child
}

/// Takes a leaf out below an inner node.
fn take(nodes: &mut Vec<Node>, top: u32, at: u32, dirty: &mut Dirty) -> Child
    requires place { HasSoundLeaf nodes.old.items (Inner top) at }
    requires empty { dirty.old ≡ [] }
    ensures len { vec_len nodes.new ≡ vec_len nodes.old }
    ensures sound { (t : Tree) → IsSoundTree nodes.old.items (Inner top) t → at < count t → IsSoundTree nodes.new.items result (tree_of_plan (plan_shrunk at t)) }
    ensures listed { (t : Tree) → IsSoundTree nodes.old.items (Inner top) t → dirty.new ≡ rows (plan_shrunk at t) }
{
    let root = plan_take(nodes.as_slice(), Child::Inner(top), at, dirty);
    apply(nodes.as_mut_slice(), dirty);
    root
}
