//! What is known of the next word beside its kind.
ghost use Rattle.std.specs.Prelude.{◌≡◌, ◌≤◌};
ghost use Rattle.pm_pack.specs.Details.{bits, gap, order_of};
ghost use Rattle.pm_pack.specs.Details.{corner_detail, face_detail, detail_of};

use super::Past;

impl Past {
    /// The detail of the next word, 0 for none.
    #[tactic(auto, unfolding(crate::specs::Details::detail_of))]
    pub(super) fn detail(&self) -> u32
        ensures { result ≡ detail_of self.now }
    {
        let field = self.spot.field;
        if field == 17 {
            2048 + self.split_node().width.min(255)
        } else if field == 26 {
            2048 + self.ring.as_slice().len() as u32
        } else if field > 26 && field < 30 {
            self.corner_detail()
        } else if field == 30 {
            self.face_detail()
        } else {
            0
        }
    }

    fn corner_detail(&self) -> u32
        ensures { result ≡ corner_detail self.now }
    {
        let edge = self.edge();
        let beyond = self.faces.beyond(edge);
        let order = order_of(self.faces.input(edge), self.faces.input(beyond));
        1024 * (order + 2) + self.corner_kind() % 1024
    }

    // Which of the input words of the faces on the edge is less, and by how many bits.
    #[tactic(auto, unfolding(crate::specs::Details::face_detail))]
    fn face_detail(&self) -> u32
        ensures { result ≡ face_detail self.now }
    {
        let edge = self.edge();
        let beyond = self.faces.input(self.faces.beyond(edge));
        let edge = self.faces.input(edge);
        let less = if edge < beyond { 2049 } else { 2048 };
        2 * bits(gap(edge, beyond)) + less
    }
}

// How many bits a number has.
fn bits(n: u32) -> u32
    ensures value { result ≡ bits n }
    ensures most { result ≤ 32 }
{
    32u32.saturating_sub(n.leading_zeros())
}

// How far two numbers are apart.
fn gap(a: u32, b: u32) -> u32
    ensures { result ≡ gap a b }
{
    a.max(b).saturating_sub(a.min(b))
}

// How two input words stand to each other: which are odd, whether the first is less, and whether
// they are next to each other.
#[tactic(auto, unfolding(crate::specs::Details::order_of))]
fn order_of(a: u32, b: u32) -> u32
    ensures value { result ≡ order_of a b }
    ensures most { result ≤ 15 }
{
    let less = if a < b { 4 } else { 0 };
    let next = if gap(a, b) == 1 { 8 } else { 0 };
    a % 2 + 2 * (b % 2) + less + next
}
