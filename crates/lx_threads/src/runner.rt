//! The runners of threads of images, as what asks through the seats of a lock.
use crate::Asker;
use lx_interp::{Code, Runner};
use lx_model::request::{Reply, Request};
use lx_words::Memory;
use lx_world::{image_answer_laws, image_request_laws};

/// The code that the threads of a world run.
#[derive(Drop)]
pub(crate) struct ThreadCode {
    pub(crate) code: Code,
}

// A runner may lack memory only while it asks nothing. Which of its steps it is that lacks it is not said of them together.
impl Asker<ThreadCode> for Runner {
    ghost use Rattle.std.specs.Prelude.{◌≡◌, true, None};
    ghost use Rattle.lx_images.specs.Image.{ImageThread};
    ghost use Rattle.lx_interp.specs.Runner.{request_of};
    ghost use Rattle.lx_run_laws.specs.Servable.{is_servable};
    ghost use Rattle.lx_world.specs.Worlds.{StandsFor};
    ghost use Rattle.lx_threads.specs.Imaged.{imaged};
    ghost use Rattle.lx_threads.specs.Threads.{AsksOf};

    ghost Thread = { ImageThread };

    ghost program = { λ text. text.code.program };

    ghost machine = { λ text. imaged text.code };

    ghost stands = { λ text t r v. StandsFor text.code t r v };

    ghost asks = { λ text t r v. AsksOf text.code t r v };

    ghost lacks = { λ text r. request_of r ≡ None };

    ghost fits = { λ p t r. is_servable p t r ≡ true };

    fn done(&self) -> bool {
        Runner::done(self)
    }

    fn local(&mut self, text: &ThreadCode) -> Result<(), Memory> {
        Runner::local(self, &text.code)?;
        Ok(())
    }

    fn request(&self) -> Option<&Request> {
        image_request_laws();
        Runner::request(self)
    }

    fn absorb(&mut self, text: &ThreadCode, reply: &Reply) {
        image_request_laws();
        image_answer_laws();
        Runner::absorb(self, &text.code, reply);
    }
}
