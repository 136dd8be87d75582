//! What is reported of a world of images.
ghost use Rattle.std.specs.Prelude.{◌≡◌, IfOk, length, map};

use crate::outcomes::outcomes;
use crate::world::World;
use crate::{instance_names, owners};
use lx_caps::CapStore;
use lx_model::account::{Account, ImageCount};
use lx_words::{Items, Memory, number_of};
use std::alloc::Global;

impl<C: CapStore + Drop> World<C> {
    ghost use Rattle.lx_images.specs.Image.{Code};
    ghost use Rattle.lx_images.specs.ImageWorld.{ImageWorld};
    ghost use Rattle.lx_images.specs.Shown.{shown};
    ghost use Rattle.lx_model.specs.Account.{account, image_count};
    ghost use Rattle.lx_slot_types.specs.Gets.{below};
    ghost use Rattle.lx_world.specs.Worlds.{StandsForWorld, program_of};

    /// The account of the world: its schedule, how calls ended, the notes, what each principal owns, and the names of
    /// instances. `images` is what the images of the program's modules have beyond the modules, which depends on the
    /// program alone. The world stands for one of the monitor.
    ///
    /// # Errors
    /// Want of memory; more modules, reference types or instances than a number of 32 bits counts are that too.
    pub fn account(&self, alloc: Global, images: Items<ImageCount>) -> Result<Account, Memory>
        requires stands { (c : Code) × (v : ImageWorld) × StandsForWorld C.stands c self.now v }
        requires images { images ≡ map (image_count (program_of self.now)) (below (length (program_of self.now).modules)) }
        ensures { IfOk result (λ a. (c : Code) (v : ImageWorld) → StandsForWorld C.stands c self.now v → a ≡ account c.program (shown v)) }
    {
        let program = self.code.program();
        let modules = number_of(program.modules.len())?;
        let types = number_of(program.interface.reftypes.len())?;
        let outcomes = outcomes(alloc, self.runners.list.as_slice())?;
        let instances = self.shared.names();
        let owners = owners(alloc, self.shared.caps(), instances, modules, types)?;
        let names = instance_names(alloc, instances, modules)?;
        let schedule = Items::from_slice(alloc, self.shared.threads())?;
        let notes = Items::from_slice(alloc, self.shared.notes())?;
        Ok(Account {
            schedule,
            outcomes: Items::from_vec(outcomes),
            notes,
            images,
            owners: Items::from_vec(owners),
            names: Items::from_vec(names),
        })
    }
}
