//! Blocks in an image.
ghost use Rattle.std.specs.Prelude.{◌≡◌, ◌++◌, ◌∷◌, [], map, option_map, IfOk, OnOk};
ghost use Rattle.lx_instrument.specs.Made.{block_by};
ghost use Rattle.lx_spared.specs.Rooms.{spared_by};

use crate::instrs::instrs_by;
use lx_ir::module::Block;
use lx_ir_copies::Copied;
use lx_spared::Rooms;
use lx_words::{Items, Memory};
use std::alloc::Global;

/// A block in the image.
fn block_by(alloc: Global, numbers: &[u32], rooms: &Rooms, block: &Block) -> Result<Block, Memory>
    ensures { IfOk result (λ b. b ≡ block_by numbers.now (spared_by rooms.now) block.now) }
{
    let name = block.name.copied(alloc)?;
    let instrs = instrs_by(alloc, numbers, rooms, block.instrs.as_slice())?;
    Ok(Block { name, instrs })
}

fn push_block(
    alloc: Global,
    list: &mut Items<Block>,
    numbers: &[u32],
    rooms: &Rooms,
    block: &Block,
) -> Result<(), Memory>
    ensures { OnOk result (list.new ≡ list.old ++ block_by numbers.now (spared_by rooms.now) block.now ∷ []) }
{
    let block = block_by(alloc, numbers, rooms, block)?;
    list.push(block)?;
    Ok(())
}

fn push_blocks(
    alloc: Global,
    list: &mut Items<Block>,
    numbers: &[u32],
    rooms: &Rooms,
    blocks: &[Block],
) -> Result<(), Memory>
    ensures { OnOk result (list.new ≡ list.old ++ map (block_by numbers.now (spared_by rooms.now)) blocks.now) }
{
    for block in blocks {
        push_block(alloc, list, numbers, rooms, block)?;
    }
    Ok(())
}

fn blocks_by(
    alloc: Global,
    numbers: &[u32],
    rooms: &Rooms,
    blocks: &[Block],
) -> Result<Items<Block>, Memory>
    ensures { IfOk result (λ list. list ≡ map (block_by numbers.now (spared_by rooms.now)) blocks.now) }
{
    let mut list = Items::new(alloc);
    match push_blocks(alloc, &mut list, numbers, rooms, blocks) {
        Ok(()) => Ok(list),
        Err(why) => {
            drop(list);
            Err(why)
        }
    }
}

/// The body of a function in the image; an import has none.
pub(crate) fn body_by(
    alloc: Global,
    numbers: &[u32],
    rooms: &Rooms,
    body: &Option<Items<Block>>,
) -> Result<Option<Items<Block>>, Memory>
    ensures { IfOk result (λ b. b ≡ option_map (map (block_by numbers.now (spared_by rooms.now))) body.now) }
{
    match body {
        Some(blocks) => {
            let blocks = blocks_by(alloc, numbers, rooms, blocks.as_slice())?;
            Ok(Some(blocks))
        }
        None => Ok(None),
    }
}
