//! What a change of a tree needs.
use crate::rooms::Rooms;
use std::marker::Model;

/// The room that a change needs: that of each face that it makes, and whether it makes a leaf.
#[derive(Drop)]
pub struct Need {
    pub(crate) rooms: Rooms,
    pub(crate) leaf: bool,
}

impl Model for Need {
    ghost use Rattle.summary_tree.specs.Trees.{NeedView};

    ghost Value = { NeedView };

    ghost view = { λ n. record { rooms = n.rooms; leaf = n.leaf } };
}
