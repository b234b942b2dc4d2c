//! Values at the leaves and inner nodes of a tree, and the room for them.
ghost use Rattle.std.specs.Prelude.{◌≡◌, ◌≢◌, ℕ, ◌+◌, ◌<◌, ◌≤◌, ◌↔◌, Bool, true, List, [], ◌∷◌, ◌++◌, length, Option, Some, None, OnOk, OnErr};
ghost use Rattle.std.specs.List.{slice_get};
ghost use Rattle.std.specs.Option.{option_map};
ghost use Rattle.tree_shape.specs.Values.{part, row_value};
ghost use Rattle.tree_shape.specs.Composing.{StandLaws, RoomLaws, Costs};

use knit_base::{NoMemory, Steps};
use std::sync::ledger::Ledger;
use tree_shape::{Child, DirtyRow};

/// Values kept by the numbers of leaves and of inner nodes.
pub trait Values: Drop {
    /// What contracts see at a node.
    type Value;

    /// Room for a value, or for any that is no larger.
    type Room: Copy;

    /// Rooms, in the order in which they are used.
    type Need: Drop;

    /// The value of the leaf with a number.
    ghost leaf_at: { Self → ℕ → Option Self.Value };

    /// The value of the inner node with a number.
    ghost node_at: { Self → ℕ → Option Self.Value };

    /// How many numbers of leaves and of inner nodes there is a place for.
    ghost slots: { Self → ℕ };

    /// Two values composed, the left one first.
    ghost join: { Self.Value → Self.Value → Self.Value };

    /// The two can be composed.
    ghost fits: { Self.Value → Self.Value → Type 0 };

    /// Which values may be the leaves of one tree.
    ghost sound: { List Self.Value → Type 0 };

    /// A value stands for the leaves, one after the other.
    ghost stands: { List Self.Value → Self.Value → Type 0 };

    /// The steps that reading or writing a value takes.
    ghost cost: { Self.Value → ℕ };

    /// The room that a value takes.
    ghost room: { Self.Value → Self.Room };

    /// Room for what composing two values of these rooms may give.
    ghost after: { Self.Room → Self.Room → Self.Room };

    /// The first room is no larger than the second.
    ghost within: { Self.Room → Self.Room → Type 0 };

    /// There is memory for values of these rooms, one after the other.
    ghost meets: { Self → List Self.Room → Type 0 };

    /// The rooms of a need, in the order in which they are used.
    ghost rooms: { Self.Need → List Self.Room };

    /// The room of what a child has.
    fn room_of(&self, child: Child) -> Self::Room
        requires { (v : Self.Value) × (part (leaf_at self.now) (node_at self.now) child ≡ Some v) }
        ensures { (v : Self.Value) → part (leaf_at self.now) (node_at self.now) child ≡ Some v → result ≡ room v };

    /// Room for what composing two values of these rooms may give.
    fn both(left: Self::Room, right: Self::Room) -> Self::Room
        ensures { result ≡ after left right };

    /// A need without rooms. Takes no memory.
    fn no_need() -> Self::Need
        ensures { rooms result ≡ [] };

    /// Takes all rooms out of a need.
    fn clear(need: &mut Self::Need)
        ensures { rooms need.new ≡ [] };

    /// Appends a room. Takes no memory: a need has 73 rooms at most.
    fn push(need: &mut Self::Need, size: Self::Room)
        requires { length (rooms need.old) < 73 }
        ensures { rooms need.new ≡ rooms need.old ++ size ∷ [] };

    /// The room at a place, from 0.
    fn nth(need: &Self::Need, i: u32) -> Self::Room
        requires { i < length (rooms need.now) }
        ensures { slice_get (rooms need.now) i ≡ Some result };

    /// Makes the memory that a need asks for, and keeps what is there for others. Fails where memory runs out, with the same values.
    fn reserve(&mut self, need: &Self::Need) -> Result<(), NoMemory>
        ensures ok { OnOk result (meets self.new (rooms need.now)) }
        ensures leaves { (k : ℕ) → leaf_at self.new k ≡ leaf_at self.old k }
        ensures nodes { (k : ℕ) → node_at self.new k ≡ node_at self.old k }
        ensures slots { slots self.old ≤ slots self.new }
        ensures memory { (needed : List Self.Room) → meets self.old needed → meets self.new needed };

    /// Whether the memory that a need asks for is there.
    fn meets(&self, need: &Self::Need) -> bool
        ensures { (result ≡ true) ↔ meets self.now (rooms need.now) };

    /// Composes the values of a row's two children and keeps the result at its node, in place of what was there.
    fn compose<L: Ledger>(&mut self, row: DirtyRow, steps: &mut Steps<L>)
        requires place { row.node < slots self.old }
        requires parts { (a : Self.Value) × (b : Self.Value) × (part (leaf_at self.old) (node_at self.old) row.left ≡ Some a) × (part (leaf_at self.old) (node_at self.old) row.right ≡ Some b) × fits a b × (r : Self.Room) × (rest : List Self.Room) × within (after (room a) (room b)) r × meets self.old (r ∷ rest) }
        ensures node { node_at self.new row.node ≡ row_value join (leaf_at self.old) (node_at self.old) row }
        ensures others { (k : ℕ) → k ≢ row.node → node_at self.new k ≡ node_at self.old k }
        ensures leaves { (k : ℕ) → leaf_at self.new k ≡ leaf_at self.old k }
        ensures slots { slots self.new ≡ slots self.old }
        ensures room { (a b : Self.Value) (r : Self.Room) (rest : List Self.Room) → part (leaf_at self.old) (node_at self.old) row.left ≡ Some a → part (leaf_at self.old) (node_at self.old) row.right ≡ Some b → within (after (room a) (room b)) r → meets self.old (r ∷ rest) → meets self.new rest }
        ensures cost { (a b : Self.Value) → part (leaf_at self.old) (node_at self.old) row.left ≡ Some a → part (leaf_at self.old) (node_at self.old) row.right ≡ Some b → steps.new ≡ steps.old + (cost a + (cost b + cost (join a b))) };

    /// Lets go of what a leaf has.
    fn clear_leaf(&mut self, number: u32)
        ensures others { (k : ℕ) → k ≢ number → leaf_at self.new k ≡ leaf_at self.old k }
        ensures nodes { (k : ℕ) → node_at self.new k ≡ node_at self.old k }
        ensures slots { slots self.new ≡ slots self.old }
        ensures memory { (needed : List Self.Room) → meets self.old needed → meets self.new needed };

    /// Lets go of what an inner node has.
    fn clear_node(&mut self, number: u32)
        ensures others { (k : ℕ) → k ≢ number → node_at self.new k ≡ node_at self.old k }
        ensures leaves { (k : ℕ) → leaf_at self.new k ≡ leaf_at self.old k }
        ensures slots { slots self.new ≡ slots self.old }
        ensures memory { (needed : List Self.Room) → meets self.old needed → meets self.new needed };

    /// For how many numbers of leaves and of inner nodes there is a place.
    fn places(&self) -> u64
        ensures { result ≡ slots self.now };

    /// Makes a place for so many leaves and inner nodes. Fails where memory runs out, with the same values.
    fn reserve_slots(&mut self, many: u32) -> Result<(), NoMemory>
        ensures ok { OnOk result (many ≤ slots self.new) }
        ensures more { slots self.old ≤ slots self.new }
        ensures leaves { (k : ℕ) → leaf_at self.new k ≡ leaf_at self.old k }
        ensures nodes { (k : ℕ) → node_at self.new k ≡ node_at self.old k }
        ensures memory { (needed : List Self.Room) → meets self.old needed → meets self.new needed };

    /// Sound leaves have a value that stands for them: a leaf alone, and two runs of leaves composed.
    ghost stand_laws: { StandLaws sound stands join fits };

    /// The room of a composed value is no larger than the one known from the rooms of its parts.
    ghost room_laws: { RoomLaws join fits room after within };

    /// Memory is for any order.
    ghost meets_law: { (s : Self) (r : Self.Room) (needed : List Self.Room) → meets s (needed ++ r ∷ []) → meets s (r ∷ needed) };

    /// There is a bound on what a value for some of the leaves costs.
    ghost cost_law: { (xs : List Self.Value) → sound xs → (each : ℕ) × Costs stands cost each xs };
}

/// Values that can be put at a leaf.
pub trait Takes<F>: Values {
    /// The value of what is put at a leaf.
    ghost value_of: { F → Self.Value };

    /// What must be so of it.
    ghost may_stand: { F → Type 0 };

    /// Puts a value at a leaf, in place of what was there.
    fn set_leaf(&mut self, number: u32, leaf: F)
        requires lawful { may_stand leaf }
        requires place { number < Self.slots self.old }
        requires memory { (r : Self.Room) × (rest : List Self.Room) × Self.within (Self.room (value_of leaf)) r × Self.meets self.old (r ∷ rest) }
        ensures leaf { Self.leaf_at self.new number ≡ Some (value_of leaf) }
        ensures others { (k : ℕ) → k ≢ number → Self.leaf_at self.new k ≡ Self.leaf_at self.old k }
        ensures nodes { (k : ℕ) → Self.node_at self.new k ≡ Self.node_at self.old k }
        ensures slots { Self.slots self.new ≡ Self.slots self.old }
        ensures memory { (r : Self.Room) (rest : List Self.Room) → Self.within (Self.room (value_of leaf)) r → Self.meets self.old (r ∷ rest) → Self.meets self.new rest };
}
