//! Functions in initialisers.

ghost use Rattle.std.specs.Prelude.{◌++◌, OnOk, flat_map, option_to_list};
ghost use Rattle.lx_ir.specs.InitNodes.{inits_of_list};
ghost use Rattle.lx_slot_types.specs.Sites.{function_init, init_sites, items_sites, sites_at};
ghost use Rattle.lx_propagate.specs.Tables.{Adds};

use crate::constants::function_init;
use crate::parts::field_if_named;
use crate::table::{Table, add_field};
use lx_ir::module::{GlobalVar, Init, InitNode};
use lx_ir::types::IrType;
use lx_slot_sums::{FieldName, SlotSums};
use lx_words::Memory;

/// Adds the sites in an initialiser of a type.
#[tactic(auto, using(crate::proofs::Adding::adds_nothing))]
#[cycle(inits)]
fn add_init(table: &mut Table, sums: &SlotSums, t: &IrType, init: &Init) -> Result<(), Memory>
    ensures { OnOk result (Adds sums.now.interface sums.now.text (init_sites t.now init.now) table.old.entries table.new.entries) }
{
    match &init.node {
        InitNode::Plain(_) => Ok(()),
        InitNode::Blank(_) => Ok(()),
        InitNode::Bytes(_) => Ok(()),
        InitNode::Group(_, types, items) => add_items(table, sums, t, types.as_slice(), items),
    }
}

/// Adds the sites in the items of a group of a type.
#[cycle(inits)]
fn add_items(
    table: &mut Table,
    sums: &SlotSums,
    t: &IrType,
    types: &[IrType],
    items: &[Init],
) -> Result<(), Memory>
    ensures { OnOk result (Adds sums.now.interface sums.now.text (items_sites t.now 0 types.now (inits_of_list items.now)) table.old.entries table.new.entries) }
{
    for k in 0..types.len().min(items.len()) {
        add_item(
            table,
            sums,
            field_if_named(t, k as u64),
            &types[k],
            &items[k],
        )?;
    }
    Ok(())
}

/// Adds those of an item that is a field: where it is a function itself, and those in it.
#[tactic(auto, using(crate::proofs::Adding::adds_then))]
#[cycle(inits)]
fn add_item(
    table: &mut Table,
    sums: &SlotSums,
    at: Option<FieldName>,
    item_type: &IrType,
    item: &Init,
) -> Result<(), Memory>
    ensures { OnOk result (Adds sums.now.interface sums.now.text (sites_at (option_to_list at) (function_init item.now) ++ init_sites item_type.now item.now) table.old.entries table.new.entries) }
{
    add_field(table, sums, at, function_init(item))?;
    add_init(table, sums, item_type, item)?;
    Ok(())
}

/// Adds the sites in the initialisers of globals.
#[tactic(auto, using(crate::proofs::Adding::adds_none))]
pub(crate) fn add_globals(
    table: &mut Table,
    sums: &SlotSums,
    globals: &[GlobalVar],
) -> Result<(), Memory>
    ensures { OnOk result (Adds sums.now.interface sums.now.text (flat_map (λ g. init_sites g.ty g.init) globals.now) table.old.entries table.new.entries) }
{
    for global in globals {
        add_init(table, sums, &global.ty, &global.init)?;
    }
    Ok(())
}
