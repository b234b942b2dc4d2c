//! Composition, and where a face is made.
ghost use Rattle.std.specs.Prelude.{◌≡◌, ◌↔◌, ℕ, ◌<◌, ◌≤◌, ◌+◌, ◌^◌, List, ◌++◌, length, IfOk, IsOk, IsTrue, OnErr, OnOk};
ghost use Rattle.carriage_model.specs.State.{State};
ghost use Rattle.knit_base.specs.declared.needle.Needle.{Needle};
ghost use Rattle.face_data.specs.declared.face.FaceView.{FaceView};
ghost use Rattle.face_data.specs.Composition.{and_then, composed};
ghost use Rattle.face_data.specs.Goodness.{IsGood};
ghost use Rattle.face_data.specs.Items.{items, most_items};
ghost use Rattle.face_data.specs.Summaries.{summary_outcome};
ghost use Rattle.face_data.specs.View.{IsPacked, summary_of};
ghost use Rattle.summary_compose.specs.Composing.{IsNoGreater};
ghost use Rattle.summary_compose.specs.Known.{AreGoodFaces};
ghost use Rattle.summary_compose.specs.Rooms.{no_room, room_of_face, room_of_both_faces};

use crate::charging::charge;
use crate::joining::put_together;
use crate::making::Making;
use crate::room::{Room, room_for};
use face_data::{Face, FaceView};
use knit_base::{NoMemory, Steps};
use std::alloc::Global;
use std::marker::Model;
use std::sync::ledger::Ledger;

/// Where faces are made one after the other, with room for them. The room is kept until the scratch is let go.
#[derive(Drop)]
pub struct Scratch {
    making: Making,
    room: Room,
}

impl Model for Scratch {
    ghost use Rattle.summary_compose.specs.Composing.{made_in, MakingHasRoom, ScratchView};
    ghost use Rattle.summary_compose.specs.Rooms.{CanBeMade};

    ghost Value = { ScratchView };

    ghost view = { λ s. record { summary = made_in s.making; room = s.room } };

    ghost invariant = { λ s. MakingHasRoom s.making s.room × CanBeMade s.room };
}

impl Scratch {
    /// A scratch without room, in which nothing was composed. Takes no memory.
    pub fn new(alloc: Global) -> Self
        ensures { result.room ≡ no_room }
    {
        Scratch {
            making: Making::new(alloc),
            room: Room::NONE,
        }
    }

    /// Makes so much room, beside what there is. The face last composed stays, also after `NoMemory`. Where there is so much room
    /// already, it takes no memory.
    pub fn reserve(&mut self, room: &Room) -> Result<(), NoMemory>
        ensures has { OnOk result (IsNoGreater room.now self.new.room) }
        ensures keeps { IsNoGreater self.old.room self.new.room }
        ensures refused { OnErr result (self.new.room ≡ self.old.room) }
        ensures face { self.new.summary ≡ self.old.summary }
        ensures ready { IsNoGreater room.now self.old.room → IsOk result }
    {
        if self.meets(room) {
            return Ok(());
        }
        let more = self.room.max(room);
        if more.is_past_all() {
            return Err(NoMemory);
        }
        self.making.reserve(&more)?;
        self.room = more;
        Ok(())
    }

    /// Whether there is so much room in each field. Takes no memory.
    pub fn meets(&self, room: &Room) -> bool
        ensures { IsTrue result ↔ IsNoGreater room.now self.now.room }
    {
        room.is_within(&self.room)
    }

    /// The face last composed, or that of no line. Takes no memory.
    pub fn view(&self) -> FaceView<'_>
        ensures summary { summary_of result ≡ self.now.summary }
        ensures packed { IsPacked result }
    {
        self.making.view()
    }
}

/// Leaves in the scratch the face of the first face's text followed by the second's: lines and loops are counted from the first
/// line of the first. Takes no memory, and a step for each item of both faces and of the new one.
pub fn compose_into<L: Ledger>(
    a: &FaceView,
    b: &FaceView,
    scratch: &mut Scratch,
    steps: &mut Steps<L>,
)
    requires good { AreGoodFaces a.now b.now }
    requires packed { IsPacked a.now }
    requires second_packed { IsPacked b.now }
    requires lines { a.now.lines + b.now.lines < 2 ^ 32 }
    requires room { IsNoGreater (room_of_both_faces a.now b.now) scratch.old.room }
    ensures composed { scratch.new.summary ≡ composed (summary_of a.now) (summary_of b.now) }
    ensures runs_both { (s : State) (first : ℕ) → summary_outcome (scratch.new.summary) s first ≡ and_then (summary_outcome (summary_of a.now) s first) (λ t. summary_outcome (summary_of b.now) t (first + a.now.lines)) }
    ensures good { (carriers limit : ℕ) (first second : List Needle) → IsGood carriers limit first (summary_of a.now) → IsGood carriers limit second (summary_of b.now) → IsGood carriers limit (first ++ second) (scratch.new.summary) }
    ensures bound { (carriers limit : ℕ) (known : List Needle) → IsGood carriers limit known (summary_of a.now) → IsGood carriers limit known (summary_of b.now) → items (scratch.new.summary) ≤ most_items carriers limit (length known) }
    ensures room { scratch.new.room ≡ scratch.old.room }
    ensures fits { (face : FaceView) → IsPacked face → summary_of face ≡ scratch.new.summary → IsNoGreater (room_of_face face) (room_of_both_faces a.now b.now) }
    ensures steps { steps.new ≡ steps.old + items (summary_of a.now) + items (summary_of b.now) + items (scratch.new.summary) }
{
    charge(a, steps);
    charge(b, steps);
    put_together(a, b, &mut scratch.making);
    charge(&scratch.making.view(), steps);
}

/// The face of the first face's text followed by the second's, owned. It takes room of its own to make it in, and lets go of that; where
/// many faces are made, a `Scratch` is reused. After `NoMemory` no more steps are counted than for the whole composition.
pub fn compose<L: Ledger>(
    alloc: Global,
    a: &FaceView,
    b: &FaceView,
    steps: &mut Steps<L>,
) -> Result<Face, NoMemory>
    requires good { AreGoodFaces a.now b.now }
    requires packed { IsPacked a.now }
    requires second_packed { IsPacked b.now }
    requires lines { a.now.lines + b.now.lines < 2 ^ 32 }
    ensures composed { IfOk result (λ face. face ≡ composed (summary_of a.now) (summary_of b.now)) }
    ensures runs_both { IfOk result (λ face. (s : State) (first : ℕ) → summary_outcome face s first ≡ and_then (summary_outcome (summary_of a.now) s first) (λ t. summary_outcome (summary_of b.now) t (first + a.now.lines))) }
    ensures good { IfOk result (λ face. (carriers limit : ℕ) (first second : List Needle) → IsGood carriers limit first (summary_of a.now) → IsGood carriers limit second (summary_of b.now) → IsGood carriers limit (first ++ second) face) }
    ensures bound { IfOk result (λ face. (carriers limit : ℕ) (known : List Needle) → IsGood carriers limit known (summary_of a.now) → IsGood carriers limit known (summary_of b.now) → items face ≤ most_items carriers limit (length known)) }
    ensures steps { IfOk result (λ face. steps.new ≡ steps.old + items (summary_of a.now) + items (summary_of b.now) + items face) }
    ensures refused { OnErr result (steps.new ≤ steps.old + items (summary_of a.now) + items (summary_of b.now) + items (composed (summary_of a.now) (summary_of b.now))) }
{
    let mut scratch = Scratch::new(alloc);
    scratch.reserve(&room_for(a, b))?;
    compose_into(a, b, &mut scratch, steps);
    Face::of(alloc, &scratch.view())
}
