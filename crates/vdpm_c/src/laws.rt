//! A buffer whose slots are changed as `vdpm_change` tells shows the mesh that is shown then.
ghost use Rattle.vdpm_c.specs.Frames.{SlotsFollowFrames};

/// Slots that show the nodes or the faces of one front show those of another after the change from
/// the one to the other, which isn't refused, each in one slot.
pub fn slots_follow_frames()
    ensures { SlotsFollowFrames }
{}
