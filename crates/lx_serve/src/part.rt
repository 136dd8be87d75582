//! What threads share may lie in a lock.
use crate::shared::SharedPart;
use lx_caplock::Part;
use lx_caps::CapStore;
use lx_model::request::{Reply, Request};
use lx_words::Memory;

impl<C: CapStore + Drop> Part for SharedPart<C> {
    ghost use Rattle.std.specs.Prelude.{◌≡◌, true};
    ghost use Rattle.lx_run_laws.specs.Servable.{is_servable};
    ghost use Rattle.lx_serve.specs.Fitting.{fitting_servable};
    ghost use Rattle.lx_serve.specs.Room.{MayLack};
    ghost use Rattle.lx_serve.specs.Stands.{StandsForState, program_of};

    ghost program = { λ part. program_of part };

    ghost stands = { λ part s. StandsForState C.stands (program_of part) part s };

    ghost takes = { λ p t r. is_servable p t r ≡ true };

    ghost lacks = { λ part t r. MayLack C.stands C.spare part t r };

    fn serve(&mut self, thread: u32, request: &Request) -> Result<Reply, Memory> {
        let reply = SharedPart::serve(self, thread, request)?;
        Ok(reply)
    }

    ghost takes_fitting = { fitting_servable };
}
