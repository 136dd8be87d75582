//! Copies of requests.

ghost use Rattle.std.specs.Prelude.{◌≡◌, IfOk};
ghost use Rattle.lx_model.specs.declared.request.What.TheVariants as what;

use lx_annot::expr::Env;
use lx_model::request::{Request, Way, What};
use lx_words::{Items, Memory, Width, Word, Words};
use std::alloc::Global;

fn words_copy(alloc: Global, words: &Words) -> Result<Words, Memory>
    ensures { IfOk result (λ copy. copy ≡ words.now) }
{
    let copy = Items::from_slice(alloc, words.as_slice())?;
    Ok(copy)
}

fn env_copy(alloc: Global, env: &Env) -> Result<Env, Memory>
    ensures { IfOk result (λ copy. copy ≡ env.now) }
{
    let args = words_copy(alloc, &env.args)?;
    Ok(Env { args, ret: env.ret })
}

fn enter_copy(alloc: Global, way: Way, args: &Words) -> Result<What, Memory>
    ensures { IfOk result (λ copy. copy ≡ what.Enter way args.now) }
{
    let args = words_copy(alloc, args)?;
    Ok(What::Enter { way, args })
}

fn native_copy(alloc: Global, native: u32, args: &Words) -> Result<What, Memory>
    ensures { IfOk result (λ copy. copy ≡ what.Native native args.now) }
{
    let args = words_copy(alloc, args)?;
    Ok(What::Native { native, args })
}

// What is asked of memory is made again of its numbers.

fn load(at: u64, width: Width) -> What
    ensures { result ≡ what.Load at width }
{
    What::Load { at, width }
}

fn store(at: u64, value: Word) -> What
    ensures { result ≡ what.Store at value }
{
    What::Store { at, value }
}

fn copy(to: u64, from: u64, len: u64) -> What
    ensures { result ≡ what.Copy to from len }
{
    What::Copy { to, from, len }
}

fn fill(to: u64, byte: u8, len: u64) -> What
    ensures { result ≡ what.Fill to byte len }
{
    What::Fill { to, byte, len }
}

fn alloca(at: u64, size: u64) -> What
    ensures { result ≡ what.Alloca at size }
{
    What::Alloca { at, size }
}

fn leaving(low: u64, high: u64) -> What
    ensures { result ≡ what.Return low high }
{
    What::Return { low, high }
}

fn what_copy(alloc: Global, what: &What) -> Result<What, Memory>
    ensures { IfOk result (λ copy. copy ≡ what.now) }
{
    match what {
        What::Load { at, width } => Ok(load(*at, *width)),
        What::Store { at, value } => Ok(store(*at, *value)),
        What::Copy { to, from, len } => Ok(copy(*to, *from, *len)),
        What::Fill { to, byte, len } => Ok(fill(*to, *byte, *len)),
        What::Alloca { at, size } => Ok(alloca(*at, *size)),
        What::Enter { way, args } => enter_copy(alloc, *way, args),
        What::Perform {
            function,
            post,
            index,
            env,
            source,
            dest,
        } => {
            let env = env_copy(alloc, env)?;
            Ok(What::Perform {
                function: *function,
                post: *post,
                index: *index,
                env,
                source: *source,
                dest: *dest,
            })
        }
        What::Return { low, high } => Ok(leaving(*low, *high)),
        What::Native { native, args } => native_copy(alloc, *native, args),
        What::Finish { outcome } => Ok(What::Finish { outcome: *outcome }),
    }
}

/// The same request, owned by who keeps it.
///
/// # Errors
/// Want of memory.
pub fn request_copy(alloc: Global, request: &Request) -> Result<Request, Memory>
    ensures { IfOk result (λ copy. copy ≡ request.now) }
{
    let what = what_copy(alloc, &request.what)?;
    Ok(Request {
        who: request.who,
        what,
    })
}
