//! Worked rows of images: the first fault of texts that are changed in one place, and texts that are images of their modules.
ghost use Rattle.lx_generated_laws.specs.ImageFaults.{WorkedImageFaults};
ghost use Rattle.lx_generated_laws.specs.Images.{WorkedImages};
ghost use Rattle.lx_generated_laws.specs.Wrappers.{WorkedWrappers};

/// The first fault of each changed image, or none.
pub fn worked_image_faults()
    ensures { WorkedImageFaults }
{}

/// Texts that are images of their modules, with all guards and without those of spared stores, and what erasing gives of them.
pub fn worked_images()
    ensures { WorkedImages }
{}

/// Wrappers with parameters, and what is wrong where one is missing, differs or stands in another place.
pub fn worked_wrappers()
    ensures { WorkedWrappers }
{}
