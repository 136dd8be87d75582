//! Maps from names to the places of what stands first under them. They own copies of the names, and are filled from the
//! last to the first, so that of equal names the first stays.
ghost use Rattle.std.specs.Prelude.{◌≡◌, ℕ, Some, List, bytes_eq, cond, IfOk, OnOk};
ghost use Rattle.lx_code.specs.Firsts.{at_name, is_from, is_named, HasNames};

use indexmap::IndexMap;
use lx_ir::instr::Edge;
use lx_ir::module::Block;
use lx_words::Memory;
use std::alloc::Global;

// Puts a place at a copy of a name.
fn put_name(
    alloc: Global,
    names: &mut IndexMap<Vec<u8>, usize>,
    name: &[u8],
    place: usize,
) -> Result<(), Memory>
    ensures { OnOk result ((other : List ℕ) → at_name names.new.entries other ≡ cond (bytes_eq name.now other) (Some place) (at_name names.old.entries other)) }
{
    let bytes = Vec::from_slice(alloc, name)?;
    names.insert(bytes, place)?;
    Ok(())
}

/// The number of the first block of each label.
pub(crate) fn labels_of(alloc: Global, blocks: &[Block]) -> Result<IndexMap<Vec<u8>, usize>, Memory>
    ensures { IfOk result (λ labels. HasNames is_named blocks.now labels.entries) }
{
    let mut labels = IndexMap::new(alloc);
    let mut left = blocks.len();
    while left > 0 {
        left -= 1;
        put_name(alloc, &mut labels, blocks[left].name.as_slice(), left)?;
    }
    Ok(labels)
}

/// The place of the first edge of each label.
pub(crate) fn edges_of(alloc: Global, edges: &[Edge]) -> Result<IndexMap<Vec<u8>, usize>, Memory>
    ensures { IfOk result (λ labels. HasNames is_from edges.now labels.entries) }
{
    let mut labels = IndexMap::new(alloc);
    let mut left = edges.len();
    while left > 0 {
        left -= 1;
        put_name(alloc, &mut labels, edges[left].label.as_slice(), left)?;
    }
    Ok(labels)
}
