//! The neighbours that a record tells.
ghost use Rattle.std.specs.Prelude.{◌≡◌, ◌∷◌, []};
ghost use Rattle.pm_forest.specs.Moves.{sides_in, neighbours_of, places_in, neighbour_places_of};

use crate::{NewFace, Record};
use pm_base::Side;

// The sides recorded beyond the two outer sides of a face, if it is there.
fn beside(face: &Option<NewFace>) -> (Option<Side>, Option<Side>)
    ensures { result.0 ∷ result.1 ∷ [] ≡ places_in face.now }
{
    match face {
        None => (None, None),
        Some(face) => (face.first, face.second),
    }
}

impl Record {
    /// The sides recorded beyond the outer sides of the record's faces: left first, left second,
    /// right first, right second. `None` stands where none is recorded, and where the face isn't
    /// there.
    #[tactic(auto, using(crate::proofs::NeighbourLaws::four_places, crate::proofs::NeighbourLaws::listed_in_places))]
    pub fn neighbours(&self) -> [Option<Side>; 4]
        ensures places { result ≡ neighbour_places_of self.now }
        ensures list { sides_in result ≡ neighbours_of self.now }
    {
        let (left_first, left_second) = beside(&self.left);
        let (right_first, right_second) = beside(&self.right);
        [left_first, left_second, right_first, right_second]
    }
}
