//! Where the parts of a coat stand.
ghost use Rattle.std.specs.Prelude.{◌≡◌, ◌≤◌, ◌+◌, ◌*◌};
ghost use Rattle.pm_base.specs.declared.limits.TheConstants.{MOST_FACES, MOST_VERTICES};
ghost use Rattle.paint.specs.Coat.{has_colours, has_coordinates, has_pages, colour_bytes};
ghost use Rattle.paint.specs.Coat.{coordinate_bytes, page_bytes, filler, colours_end};
ghost use Rattle.paint.specs.Coat.{coordinates_from, pages_from, pages_end, coat_end, AreSizes};

/// The bytes of the head of a coat.
pub const HEAD: usize = 20;

/// How many vertices and faces a coat is for, and which parts it has: 1 colours, 2 texture
/// coordinates, 4 pages, added up.
#[derive(Clone, Copy, Debug, PartialEq, Eq)]
pub struct Sizes {
    pub vertices: u32,
    pub faces: u32,
    pub parts: u32,
}

/// How many bytes fill so many up to whole words.
#[tactic(auto, unfolding(crate::specs::Coat::filler))]
pub(crate) fn filler(bytes: usize) -> usize
    ensures value { result ≡ filler bytes }
    ensures small { result ≤ 3 }
{
    (4 - bytes % 4) % 4
}

impl Sizes {
    pub(crate) fn has_colours(self) -> bool
        ensures { result ≡ has_colours self }
    {
        self.parts % 2 == 1
    }

    pub(crate) fn has_coordinates(self) -> bool
        ensures { result ≡ has_coordinates self }
    {
        self.parts / 2 % 2 == 1
    }

    pub(crate) fn has_pages(self) -> bool
        ensures { result ≡ has_pages self }
    {
        self.parts / 4 % 2 == 1
    }

    /// How many bytes the colours have.
    #[tactic(auto, unfolding(crate::specs::Coat::colour_bytes))]
    pub(crate) fn colour_bytes(self) -> usize
        requires { AreSizes self }
        ensures value { result ≡ colour_bytes self }
        ensures most { result ≤ 3 * MOST_VERTICES }
    {
        if self.has_colours() {
            3 * self.vertices as usize
        } else {
            0
        }
    }

    /// How many bytes the texture coordinates have.
    #[tactic(auto, unfolding(crate::specs::Coat::coordinate_bytes))]
    pub(crate) fn coordinate_bytes(self) -> usize
        requires { AreSizes self }
        ensures value { result ≡ coordinate_bytes self }
        ensures most { result ≤ 8 * MOST_VERTICES }
    {
        if self.has_coordinates() {
            8 * self.vertices as usize
        } else {
            0
        }
    }

    /// How many bytes the pages have.
    #[tactic(auto, unfolding(crate::specs::Coat::page_bytes))]
    pub(crate) fn page_bytes(self) -> usize
        requires { AreSizes self }
        ensures value { result ≡ page_bytes self }
        ensures most { result ≤ MOST_FACES }
    {
        if self.has_pages() {
            self.faces as usize
        } else {
            0
        }
    }

    /// Where the colours end.
    #[tactic(auto, unfolding(crate::specs::Coat::colours_end))]
    pub(crate) fn colours_end(self) -> usize
        requires { AreSizes self }
        ensures value { result ≡ colours_end self }
        ensures most { result ≤ 20 + 3 * MOST_VERTICES }
    {
        HEAD + self.colour_bytes()
    }

    /// Where the texture coordinates begin.
    #[tactic(auto, unfolding(crate::specs::Coat::coordinates_from))]
    pub(crate) fn coordinates_from(self) -> usize
        requires { AreSizes self }
        ensures value { result ≡ coordinates_from self }
        ensures most { result ≤ 23 + 3 * MOST_VERTICES }
    {
        self.colours_end() + filler(self.colour_bytes())
    }

    /// Where the pages begin.
    #[tactic(auto, unfolding(crate::specs::Coat::pages_from))]
    pub(crate) fn pages_from(self) -> usize
        requires { AreSizes self }
        ensures value { result ≡ pages_from self }
        ensures most { result ≤ 23 + 11 * MOST_VERTICES }
    {
        self.coordinates_from() + self.coordinate_bytes()
    }

    /// Where the pages end.
    #[tactic(auto, unfolding(crate::specs::Coat::pages_end))]
    pub(crate) fn pages_end(self) -> usize
        requires { AreSizes self }
        ensures value { result ≡ pages_end self }
        ensures most { result ≤ 23 + 11 * MOST_VERTICES + MOST_FACES }
    {
        self.pages_from() + self.page_bytes()
    }

    /// Where the coat ends.
    #[tactic(auto, unfolding(crate::specs::Coat::coat_end))]
    pub(crate) fn coat_end(self) -> usize
        requires { AreSizes self }
        ensures value { result ≡ coat_end self }
        ensures most { result ≤ 26 + 11 * MOST_VERTICES + MOST_FACES }
    {
        self.pages_end() + filler(self.page_bytes())
    }
}
