//! The texts of images: a module's text with guards, checks and wrappers, what is wrong with a text that is no image, and the program that
//! is left where the additions are taken away. Definitions, and the laws between them.
//!
//! ```text
//! image_laws();
//! // A lawful, verified text has no fault as an image just where some module has this image; that module is what erasing gives.
//! image_program_laws();
//! // The program of a lawful, verified image is lawful and verified.
//! ```
#![tactic(auto)]

ghost use Rattle.lx_image_texts.specs.Laws.{ImageLaws};
ghost use Rattle.lx_image_texts.specs.ProgramLaws.{ImageProgramLaws};

/// A lawful, verified text has no fault as an image exactly where some module that names nothing but its own has this image, and that
/// module is then what erasing gives. A fault that is told at an instruction is there, and is the first; one that is told of the whole text is
/// the first of its globals, imports, wrappers, places and annotations. With all guards, and without those of spared stores, a text is an
/// image of its module; slot types and spared stores are the module's, and a store is spared just where it goes to its function's own stack.
pub fn image_laws()
    ensures { ImageLaws }
{}

/// The program of a lawful, verified image is lawful and verified. An image of a lawful, verified module has none of the verifier's
/// faults, and is lawful exactly where there is room for its wrappers.
pub fn image_program_laws()
    ensures { ImageProgramLaws }
{}
