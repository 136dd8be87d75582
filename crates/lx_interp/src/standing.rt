//! Where functions stand.
ghost use Rattle.std.specs.Prelude.{◌≡◌};
ghost use Rattle.lx_images.specs.Asker.{code_place};
ghost use Rattle.lx_images.specs.Image.{Code as Images};
ghost use Rattle.lx_image_steps.specs.Standing.{run_of};
ghost use Rattle.lx_interp.specs.Places.{stand_in};

use lx_image_steps::Activation;

/// Where a function stands in the code of images: its number, the number of its block and the place of its next instruction
/// there, and whether a jump led to the block, whose phis then are behind it.
#[derive(Clone, Copy)]
pub struct Standing {
    pub function: u32,
    pub block: usize,
    pub place: usize,
    pub arrived: bool,
}

impl Standing {
    /// Where a function that runs stands.
    pub(crate) fn of(run: &Activation) -> Self
        ensures { (c : Images) → stand_in c result ≡ code_place (run_of c run.now) }
    {
        Standing {
            function: run.function,
            block: run.block,
            place: run.place,
            arrived: run.arrived,
        }
    }
}
