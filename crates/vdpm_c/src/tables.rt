//! What crosses to C beside numbers and arrays of them.
use crate::buffer_slot::BufferSlot;
use crate::made_slot::MadeSlot;
use crate::run_slot::RunSlot;
use crate::slot::Slot;

/// A viewer as C holds it: all zero before it is opened and once it is closed.
#[repr(C)]
pub struct Handle {
    pub slot: Slot,
    /// 1 where a viewer stands in the slot, and 0 where none does.
    pub open: u32,
}

/// How large a hierarchy and the mesh that is shown of it are.
#[repr(C)]
#[derive(Clone, Copy)]
pub struct Counts {
    /// How many nodes are active, and how many faces are kept.
    pub shown_nodes: u32,
    pub shown_faces: u32,
    /// How many nodes, leaves and records there are in all.
    pub nodes: u32,
    pub leaves: u32,
    pub records: u32,
    /// How many decimals the coordinates have.
    pub digits: u32,
}

/// A view, but for its planes.
#[repr(C)]
#[derive(Clone, Copy)]
pub struct Look {
    /// Where the eye stands, in units.
    pub eye_x: i32,
    pub eye_y: i32,
    pub eye_z: i32,
    /// The focal length, in pixels.
    pub focal: u32,
    /// The tolerance, and that for silhouettes, which isn't above it, in pixels.
    pub tolerance: u32,
    pub silhouette: u32,
    /// 0 where nodes are judged by their errors, and 1 where by their deviations.
    pub measure: u32,
}

/// How many moves a view made, and how many are left.
#[repr(C)]
#[derive(Clone, Copy)]
pub struct Moved {
    pub moves: u32,
    pub left: u32,
}

/// The bounding box of the complete mesh: on each axis the least and the greatest coordinate, in
/// units.
#[repr(C)]
#[derive(Clone, Copy)]
pub struct ExtentTold {
    pub low_x: i32,
    pub low_y: i32,
    pub low_z: i32,
    pub high_x: i32,
    pub high_y: i32,
    pub high_z: i32,
}

/// How fine the mesh that is shown is.
#[repr(C)]
#[derive(Clone, Copy)]
pub struct LevelTold {
    /// The greatest error and the greatest deviation of a node that is shown, in units.
    pub error: u64,
    pub deviation: u64,
    /// How many records are split.
    pub split: u32,
}

/// How many entries each list of a change has.
#[repr(C)]
#[derive(Clone, Copy)]
pub struct ChangeCounts {
    /// The faces and the nodes that are gone.
    pub gone_faces: u32,
    pub gone_nodes: u32,
    /// The nodes that are new, and the faces that are new or have another corner.
    pub new_nodes: u32,
    pub put_faces: u32,
}

/// What was made of a text, as C holds it: all zero before it is made and once it is closed.
#[repr(C)]
pub struct MadeHandle {
    pub slot: MadeSlot,
    /// 1 where something stands in the slot, and 0 where nothing does.
    pub open: u32,
}

/// What is being simplified, as C holds it: all zero before it is begun and once it is closed.
#[repr(C)]
pub struct RunHandle {
    pub slot: RunSlot,
    /// 1 where something stands in the slot, and 0 where nothing does.
    pub open: u32,
}

/// How far a run is.
#[repr(C)]
#[derive(Clone, Copy)]
pub struct ProgressTold {
    /// How many faces the mesh had at first, and how many are left.
    pub faces: u64,
    pub faces_left: u64,
    /// How many collapses were done.
    pub collapses: u64,
    /// 1 where this is known to be the end, and 0 else.
    pub ended: u32,
}

/// A number with decimals: `whole + part / 10^D`, and less than zero where `negative` is 1.
#[repr(C)]
#[derive(Clone, Copy)]
pub struct DecimalTold {
    pub whole: u64,
    pub part: u64,
    pub negative: u32,
}

/// How positions lead back to coordinates: extent / steps * position + middle.
#[repr(C)]
#[derive(Clone, Copy)]
pub struct ScaleTold {
    /// How long the longest axis of the bounding box is, with 18 decimals.
    pub extent: DecimalTold,
    /// The middle of the box on each axis, with 19 decimals.
    pub x: DecimalTold,
    pub y: DecimalTold,
    pub z: DecimalTold,
    /// Into how many steps the extent is divided; 0, and all others too, where positions are the
    /// coordinates.
    pub steps: u32,
}

/// The slots of a renderer's buffer as C holds them: all zero before they are opened and once they
/// are closed.
#[repr(C)]
pub struct BufferHandle {
    pub slot: BufferSlot,
    /// 1 where a buffer's slots stand in the slot, and 0 where none do.
    pub open: u32,
}

/// What a change of slots came to.
#[repr(C)]
#[derive(Clone, Copy)]
pub struct SlotSizes {
    /// How many slots are to be written.
    pub written: u32,
    /// How many slots the buffer has.
    pub length: u32,
}

/// The fault of a text.
#[repr(C)]
#[derive(Clone, Copy)]
pub struct FaultTold {
    /// Its number; 0 where there is none.
    pub number: u32,
    /// The line, face or vertex, counted from 1; 0 where it has none.
    pub place: u64,
}

/// No fault.
pub const NO_FAULT: FaultTold = FaultTold {
    number: 0,
    place: 0,
};
