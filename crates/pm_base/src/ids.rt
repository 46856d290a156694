//! The numbers that name parts of a mesh. Each kind has a type of its own, so that none is taken
//! for another.
ghost use Rattle.std.specs.Prelude.{◌≡◌, ◌+◌, ◌*◌, ◌<◌};
ghost use Rattle.pm_base.specs.declared.limits.TheConstants.{MOST_FACES, MOST_SIDES};
ghost use Rattle.pm_base.specs.Sides.{next as next_of, prev as prev_of, face_of};

/// A node of the vertex forest, by its number from 0.
#[derive(Clone, Copy, Debug, PartialEq, Eq, PartialOrd, Ord)]
pub struct NodeId(pub u32);

/// A face, by its number from 0.
#[derive(Clone, Copy, Debug, PartialEq, Eq, PartialOrd, Ord)]
pub struct FaceId(pub u32);

/// A side of a face, by its number from 0: side `i` of face `f` runs from corner `i` to the next
/// corner and has the number `3f + i`. The corner that it runs from has the same number. A mesh has
/// at most `MOST_SIDES`, three a face.
#[derive(Clone, Copy, Debug, PartialEq, Eq, PartialOrd, Ord)]
pub struct Side(pub u32);

impl FaceId {
    /// The side that runs from corner 0, 1 or 2 of the face.
    pub fn side(self, corner: u32) -> Side
        requires face { self.0 < MOST_FACES }
        requires corner { corner < 3 }
        ensures value { result.0 ≡ 3 * self.0 + corner }
        ensures face { face_of result.0 ≡ self.0 }
        ensures few { result.0 < MOST_SIDES }
    {
        Side(3 * self.0 + corner)
    }
}

impl Side {
    /// The face that has the side.
    pub fn face(self) -> FaceId
        ensures { result.0 ≡ face_of self.0 }
    {
        FaceId(self.0 / 3)
    }

    /// The side that follows in the same face.
    #[tactic(auto, unfolding(crate::specs::Sides::next))]
    pub fn next(self) -> Side
        requires { self.0 < MOST_SIDES }
        ensures value { result.0 ≡ next_of self.0 }
        ensures face { face_of result.0 ≡ face_of self.0 }
        ensures few { result.0 < MOST_SIDES }
    {
        if self.0 % 3 == 2 {
            Side(self.0 - 2)
        } else {
            Side(self.0 + 1)
        }
    }

    /// The side that comes before in the same face.
    pub fn prev(self) -> Side
        requires { self.0 < MOST_SIDES }
        ensures value { result.0 ≡ prev_of self.0 }
        ensures face { face_of result.0 ≡ face_of self.0 }
        ensures few { result.0 < MOST_SIDES }
    {
        self.next().next()
    }
}
