//! What nodes have of what the input's vertices have: means, and fits.
ghost use Rattle.std.specs.Prelude.{◌≡◌, ◌*◌, IfOk, IfErr, OnOk, None, length};
ghost use Rattle.pm_forest.specs.Forest.{node_count, leaf_count};
ghost use Rattle.pm_paint.specs.Means.{mean_array};
ghost use Rattle.pm_fits.specs.Faults.{number_fault, IsRefusal};
ghost use Rattle.pm_fits.specs.Channels.{fit_array};

use crate::viewer::Viewer;
use pm_fits::{FitFault, fits_by_channel, number_fault};
use pm_paint::means_by_channel;
use std::alloc::{AllocError, Global};

impl Viewer {
    /// The rounded means over the leaves under each node, `channels` numbers for each node, of what
    /// the vertices of the input have: `values` has `channels` numbers for each of these, in their
    /// order. They are the same whatever is shown. It takes time linear in nodes times channels.
    pub fn means(
        &self,
        alloc: Global,
        channels: u32,
        values: &[u16],
    ) -> Result<Vec<u16>, AllocError>
        requires { length values.now ≡ leaf_count self.now.shown.h * channels }
        ensures means { IfOk result (λ means. means.items
            ≡ mean_array self.now.shown.h channels values.now) }
        ensures len { IfOk result (λ means. length means.items
            ≡ node_count self.now.shown.h * channels) }
    {
        means_by_channel(alloc, self.hierarchy(), channels, values)
    }

    /// What is wrong with numbers of the input's vertices, so many channels of them, of which
    /// `fits` is to tell the fits; none where it can.
    pub fn number_fault(&self, channels: u32, values: &[i32]) -> Option<FitFault>
        ensures { result
            ≡ number_fault (leaf_count self.now.shown.h * channels) values.now }
    {
        number_fault(self.leaves() as usize * channels as usize, values)
    }

    /// What each node has of numbers that go with positions, as the coordinates of a texture: in
    /// each channel that of the linear map which fits the numbers of its leaves best, at its own
    /// position. `values` has `channels` numbers for each vertex of the input, in their order. They
    /// are the same whatever is shown. It takes time linear in nodes times channels.
    pub fn fits(&self, alloc: Global, channels: u32, values: &[i32]) -> Result<Vec<i32>, FitFault>
        ensures fits { IfOk result (λ fits. fits.items
            ≡ fit_array self.now.shown.h channels values.now) }
        ensures len { IfOk result (λ fits. length fits.items
            ≡ node_count self.now.shown.h * channels) }
        ensures taken { OnOk result
            (number_fault (leaf_count self.now.shown.h * channels) values.now ≡ None) }
        ensures refused { IfErr result (λ e. IsRefusal
            (number_fault (leaf_count self.now.shown.h * channels) values.now) e) }
    {
        fits_by_channel(alloc, self.hierarchy(), channels, values)
    }
}
