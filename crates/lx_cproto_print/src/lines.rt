//! The lines of an interface.

ghost use Rattle.std.specs.Prelude.{◌≡◌, ◌++◌, IfOk, OnOk, codes, flat_map, slice_get};
ghost use Rattle.lx_cproto_print.specs.Printed.{clauses_text, condition_text, enclosed_text, head_text, export_line, field_line, first_item_text, first_param_text, interface_text, item_list_text, item_params, item_text, items_text, iterator_line, param_text, params_text, reftype_line, slot_line, slot_name};

use crate::clauses::{put_clauses, reftype_name};
use crate::expressions::put_expr;
use crate::pieces::{behind_first, put, put_index, put_name, type_bytes};
use lx_annot::action::{Annotation, CapSpec};
use lx_annot::expr::{Expr, Ty};
use lx_annot::interface::{CapIterator, Export, Field, Interface, Item, Parameter, Slot};
use lx_words::{Memory, Name};
use std::alloc::Global;

fn put_param(out: &mut Vec<u8>, param: &Parameter) -> Result<(), Memory>
    ensures { OnOk result (out.new.items ≡ out.old.items ++ param_text param.now) }
{
    put(out, type_bytes(param.ty))?;
    put(out, b" ")?;
    put(out, param.name.as_slice())
}

fn put_first_param(out: &mut Vec<u8>, params: &[Parameter]) -> Result<(), Memory>
    ensures { OnOk result (out.new.items ≡ out.old.items ++ first_param_text (slice_get params.now 0)) }
{
    match params.first() {
        Some(param) => put_param(out, param),
        None => put(out, b""),
    }
}

/// Appends parameters, each behind a comma.
fn put_further_params(out: &mut Vec<u8>, params: &[Parameter]) -> Result<(), Memory>
    ensures { OnOk result (out.new.items ≡ out.old.items ++ flat_map (λ p. codes ", " ++ param_text p) params.now) }
{
    for param in params {
        put(out, b", ")?;
        put_param(out, param)?;
    }
    Ok(())
}

fn put_params(out: &mut Vec<u8>, params: &[Parameter]) -> Result<(), Memory>
    ensures { OnOk result (out.new.items ≡ out.old.items ++ params_text params.now) }
{
    put_first_param(out, params)?;
    put_further_params(out, behind_first(params))
}

/// Appends a name and a type behind a word.
#[tactic(auto, unfolding(crate::specs::Printed::head_text))]
fn put_head(out: &mut Vec<u8>, word: &[u8], name: &[u8], ret: Ty) -> Result<(), Memory>
    ensures { OnOk result (out.new.items ≡ out.old.items ++ head_text word.now name.now ret) }
{
    put(out, word)?;
    put(out, name)?;
    put(out, b" : ")?;
    put(out, type_bytes(ret))
}

/// Appends parameters in brackets, behind a space.
#[tactic(auto, unfolding(crate::specs::Printed::enclosed_text))]
fn put_enclosed(out: &mut Vec<u8>, params: &[Parameter]) -> Result<(), Memory>
    ensures { OnOk result (out.new.items ≡ out.old.items ++ enclosed_text params.now) }
{
    put(out, b" (")?;
    put_params(out, params)?;
    put(out, b")")
}

/// Appends what stands behind the type of a slot or an export, up to the end of the line.
fn put_rest(
    out: &mut Vec<u8>,
    i: &Interface,
    params: &[Parameter],
    a: &Annotation,
) -> Result<(), Memory>
    ensures { OnOk result (out.new.items ≡ out.old.items ++ (enclosed_text params.now ++ clauses_text i.now params.now a.now ++ codes "\n")) }
{
    put_enclosed(out, params)?;
    put_clauses(out, i, params, a)?;
    put(out, b"\n")
}

fn put_item_list(
    out: &mut Vec<u8>,
    i: &Interface,
    params: &[Parameter],
    list: &CapSpec,
) -> Result<(), Memory>
    requires { params.now ≡ item_params }
    ensures { OnOk result (out.new.items ≡ out.old.items ++ item_list_text i.now list.now) }
{
    match list {
        CapSpec::Write(at, size) => {
            put(out, b"write ")?;
            put_expr(out, params, at)?;
            put(out, b", ")?;
            put_expr(out, params, size)
        }
        CapSpec::Call(at) => {
            put(out, b"call ")?;
            put_expr(out, params, at)
        }
        CapSpec::Ref(ty, at) => {
            put(out, b"ref ")?;
            put(out, reftype_name(i, *ty))?;
            put(out, b", ")?;
            put_expr(out, params, at)
        }
        CapSpec::Each(_, _) => put(out, b""),
    }
}

fn put_condition(
    out: &mut Vec<u8>,
    params: &[Parameter],
    condition: &Option<Expr>,
) -> Result<(), Memory>
    requires { params.now ≡ item_params }
    ensures { OnOk result (out.new.items ≡ out.old.items ++ condition_text condition.now) }
{
    match condition {
        Some(e) => {
            put(out, b"if (")?;
            put_expr(out, params, e)?;
            put(out, b") ")
        }
        None => put(out, b""),
    }
}

fn put_item(
    out: &mut Vec<u8>,
    i: &Interface,
    params: &[Parameter],
    item: &Item,
) -> Result<(), Memory>
    requires { params.now ≡ item_params }
    ensures { OnOk result (out.new.items ≡ out.old.items ++ item_text i.now item.now) }
{
    put_condition(out, params, &item.cond)?;
    put_item_list(out, i, params, &item.cap)
}

fn put_first_item(
    out: &mut Vec<u8>,
    i: &Interface,
    params: &[Parameter],
    items: &[Item],
) -> Result<(), Memory>
    requires { params.now ≡ item_params }
    ensures { OnOk result (out.new.items ≡ out.old.items ++ first_item_text i.now (slice_get items.now 0)) }
{
    match items.first() {
        Some(item) => put_item(out, i, params, item),
        None => put(out, b""),
    }
}

/// Appends items, each behind a `;`.
fn put_further_items(
    out: &mut Vec<u8>,
    i: &Interface,
    params: &[Parameter],
    items: &[Item],
) -> Result<(), Memory>
    requires { params.now ≡ item_params }
    ensures { OnOk result (out.new.items ≡ out.old.items ++ flat_map (λ x. codes "; " ++ item_text i.now x) items.now) }
{
    for item in items {
        put(out, b"; ")?;
        put_item(out, i, params, item)?;
    }
    Ok(())
}

/// The parameter of an iterator.
fn item_param(alloc: Global) -> Result<Parameter, Memory>
    ensures { IfOk result (λ p. p ≡ record { name = codes "p"; ty = Ty.Ptr }) }
{
    let name = Name::from_bytes(alloc, b"p")?;
    Ok(Parameter { name, ty: Ty::Ptr })
}

fn put_iterator(
    out: &mut Vec<u8>,
    i: &Interface,
    params: &[Parameter],
    iterator: &CapIterator,
) -> Result<(), Memory>
    requires { params.now ≡ item_params }
    ensures { OnOk result (out.new.items ≡ out.old.items ++ iterator_line i.now iterator.now) }
{
    let items = iterator.items.as_slice();
    put(out, b"iterator ")?;
    put(out, iterator.name.as_slice())?;
    put(out, b"(p) { ")?;
    put_first_item(out, i, params, items)?;
    put_further_items(out, i, params, behind_first(items))?;
    put(out, b" }\n")
}

/// The name of a slot by its number.
fn slot_name(i: &Interface, k: u32) -> &[u8]
    ensures { result.now ≡ slot_name i.now k }
{
    match i.slots.as_slice().get(k as usize) {
        Some(slot) => slot.name.as_slice(),
        None => &[],
    }
}

fn put_field(out: &mut Vec<u8>, i: &Interface, field: &Field) -> Result<(), Memory>
    ensures { OnOk result (out.new.items ≡ out.old.items ++ field_line i.now field.now) }
{
    put(out, b"field %")?;
    put_name(out, field.name.as_slice())?;
    put(out, b" ")?;
    put_index(out, field.index)?;
    put(out, b" : ")?;
    put(out, slot_name(i, field.slot))?;
    put(out, b"\n")
}

fn put_reftype(out: &mut Vec<u8>, name: &Name) -> Result<(), Memory>
    ensures { OnOk result (out.new.items ≡ out.old.items ++ reftype_line name.now) }
{
    put(out, b"reftype ")?;
    put(out, name.as_slice())?;
    put(out, b"\n")
}

fn put_reftypes(out: &mut Vec<u8>, names: &[Name]) -> Result<(), Memory>
    ensures { OnOk result (out.new.items ≡ out.old.items ++ flat_map reftype_line names.now) }
{
    for name in names {
        put_reftype(out, name)?;
    }
    Ok(())
}

fn put_iterators(
    out: &mut Vec<u8>,
    i: &Interface,
    params: &[Parameter],
    iterators: &[CapIterator],
) -> Result<(), Memory>
    requires { params.now ≡ item_params }
    ensures { OnOk result (out.new.items ≡ out.old.items ++ flat_map (iterator_line i.now) iterators.now) }
{
    for iterator in iterators {
        put_iterator(out, i, params, iterator)?;
    }
    Ok(())
}

fn put_slot(out: &mut Vec<u8>, i: &Interface, slot: &Slot) -> Result<(), Memory>
    ensures { OnOk result (out.new.items ≡ out.old.items ++ slot_line i.now slot.now) }
{
    put_head(out, b"slot ", slot.name.as_slice(), slot.ret)?;
    put_rest(out, i, slot.params.as_slice(), &slot.annotation)
}

fn put_slots(out: &mut Vec<u8>, i: &Interface, slots: &[Slot]) -> Result<(), Memory>
    ensures { OnOk result (out.new.items ≡ out.old.items ++ flat_map (slot_line i.now) slots.now) }
{
    for slot in slots {
        put_slot(out, i, slot)?;
    }
    Ok(())
}

fn put_fields(out: &mut Vec<u8>, i: &Interface, fields: &[Field]) -> Result<(), Memory>
    ensures { OnOk result (out.new.items ≡ out.old.items ++ flat_map (field_line i.now) fields.now) }
{
    for field in fields {
        put_field(out, i, field)?;
    }
    Ok(())
}

fn put_export(out: &mut Vec<u8>, i: &Interface, export: &Export) -> Result<(), Memory>
    ensures { OnOk result (out.new.items ≡ out.old.items ++ export_line i.now export.now) }
{
    put_head(out, b"export ", export.name.as_slice(), export.ret)?;
    put_rest(out, i, export.params.as_slice(), &export.annotation)
}

fn put_exports(out: &mut Vec<u8>, i: &Interface, exports: &[Export]) -> Result<(), Memory>
    ensures { OnOk result (out.new.items ≡ out.old.items ++ flat_map (export_line i.now) exports.now) }
{
    for export in exports {
        put_export(out, i, export)?;
    }
    Ok(())
}

/// The text of an interface: its reference types, iterators, slots, fields and exports in their order, one in a line.
/// The parameter of an iterator, whose name no interface keeps, is `p`; the end of loans is left out.
///
/// # Errors
/// `Memory` where there is not enough memory.
pub fn print_interface(alloc: Global, i: &Interface) -> Result<Vec<u8>, Memory>
    ensures { IfOk result (λ text. text.items ≡ interface_text i.now) }
{
    let params = [item_param(alloc)?];
    let mut out = Vec::new(alloc);
    put(&mut out, b"interface 2\n")?;
    put_reftypes(&mut out, i.reftypes.as_slice())?;
    put_iterators(&mut out, i, &params, i.iterators.as_slice())?;
    put_slots(&mut out, i, i.slots.as_slice())?;
    put_fields(&mut out, i, i.fields.as_slice())?;
    put_exports(&mut out, i, i.exports.as_slice())?;
    Ok(out)
}
