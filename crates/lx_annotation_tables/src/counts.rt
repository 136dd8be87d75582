//! How many actions the annotations of functions have.
ghost use Rattle.std.specs.Prelude.{◌≡◌, IfOk};
ghost use Rattle.lx_code.specs.Reach.{CountsActions};
ghost use Rattle.lx_serve.specs.Sources.{Knows};
ghost use Rattle.lx_annotation_tables.specs.Counted.{post_count, pre_count};
ghost use Rattle.lx_annotation_tables.specs.Entries.{annotation_by};

use lx_code::ActionCounts;
use lx_model::program::Program;
use lx_serve::{Source, annotation_at};
use lx_words::{Memory, number_of};
use std::alloc::Global;

#[tactic(auto, unfolding(crate::specs::Entries::annotation_by))]
fn counts_by(program: &Program, source: Option<Source>) -> Result<ActionCounts, Memory>
    ensures pre { IfOk result (λ counts. counts.pre ≡ pre_count (annotation_by program.now source)) }
    ensures post { IfOk result (λ counts. counts.post ≡ post_count (annotation_by program.now source)) }
{
    match annotation_at(&program.interface, source) {
        Some(annotation) => {
            let pre = number_of(annotation.pre.len())?;
            let post = number_of(annotation.post.len())?;
            Ok(ActionCounts { pre, post })
        }
        None => Ok(ActionCounts { pre: 0, post: 0 }),
    }
}

/// How many actions each function of a program has. `sources` tells where the annotation of each function stands.
///
/// # Errors
/// Want of memory; more actions of a function than a number of 32 bits counts are that too.
pub fn action_counts(
    alloc: Global,
    program: &Program,
    sources: &[Option<Source>],
) -> Result<Vec<ActionCounts>, Memory>
    requires { Knows program.now sources.now }
    ensures { IfOk result (λ counts. CountsActions program.now counts.items) }
{
    let mut counts = Vec::new(alloc);
    for source in sources {
        counts.push(counts_by(program, *source)?)?;
    }
    Ok(counts)
}
