//! The imports that the wrappers of images wrap, in tables, so that no name is looked up while a function runs.
ghost use Rattle.std.specs.Prelude.{◌≡◌, ◌≤◌, ◌++◌, ◌∷◌, [], IfOk, OnOk, Some, length, map, option_copied, option_and_then, slice_get};
ghost use Rattle.lx_images.specs.Image.{wrapped_name};
ghost use Rattle.lx_image_code.specs.Imports.{import_at, imports_in, imports_of, wrapped_by};

use lx_ir::module::{Function, Module};
use lx_ir_verify::Verified;
use lx_model::program::Program;
use lx_name_tables::ProgramNames;
use lx_words::{Items, Memory};
use std::alloc::Global;

/// Of each function of an image the number of the kernel's function that it wraps; none, where it is no wrapper of one.
pub(crate) type Imports = Items<Option<u32>>;

// The name of the import that a function wraps: what stands behind `lxfi.out.` in its own.
fn name_of_import(function: &Function) -> Option<&[u8]>
    ensures { option_copied result ≡ wrapped_name (Some function.now) }
{
    let name = function.name.as_slice();
    if name.starts_with(b"lxfi.out.") {
        let (_, import) = name.split_at(9);
        Some(import)
    } else {
        None
    }
}

// The number of the kernel's function that a function of an image wraps.
fn wrapped_by(names: &ProgramNames<'_>, function: &Function) -> Option<u32>
    ensures { result ≡ wrapped_by names.now function.now }
{
    match name_of_import(function) {
        Some(name) => names.function_named(None, name),
        None => None,
    }
}

// The imports that the functions of an image wrap.
fn imports_in(alloc: Global, names: &ProgramNames<'_>, image: &Module) -> Result<Imports, Memory>
    ensures { IfOk result (λ imports. imports ≡ imports_in names.now image.now) }
{
    let mut imports = Items::new(alloc);
    for function in image.functions.as_slice() {
        imports.push(wrapped_by(names, function))?;
    }
    Ok(imports)
}

// The imports that the functions of an image wrap go behind those of the images before it.
fn push_imports(
    tables: &mut Items<Imports>,
    alloc: Global,
    names: &ProgramNames<'_>,
    image: &Module,
) -> Result<(), Memory>
    ensures { OnOk result (tables.new ≡ tables.old ++ imports_in names.now image.now ∷ []) }
{
    let imports = imports_in(alloc, names, image)?;
    tables.push(imports)?;
    Ok(())
}

// The imports that the functions of each image wrap, by the tables of the program's names.
fn imports_by(
    alloc: Global,
    names: &ProgramNames<'_>,
    images: &[Verified],
) -> Result<Items<Imports>, Memory>
    ensures { IfOk result (λ tables. tables ≡ imports_of names.now images.now) }
{
    let mut tables = Items::new(alloc);
    for image in images {
        push_imports(&mut tables, alloc, names, image.module())?;
    }
    Ok(tables)
}

/// The imports that the functions of each image wrap.
pub(crate) fn imports_of(
    alloc: Global,
    program: &Program,
    images: &[Verified],
) -> Result<Items<Imports>, Memory>
    requires { length program.now.functions ≤ 4294967296 }
    ensures { IfOk result (λ tables. tables ≡ imports_of program.now images.now) }
{
    let names = ProgramNames::new(alloc, program);
    let tables = imports_by(alloc, &names, images);
    drop(names);
    tables
}

/// The import that a function of an image wraps, by the tables.
pub(crate) fn import_at(tables: &[Imports], number: u32, function: u32) -> Option<u32>
    ensures { result ≡ import_at tables.now number function }
{
    match tables.get(number as usize) {
        Some(imports) => match imports.as_slice().get(function as usize) {
            Some(import) => *import,
            None => None,
        },
        None => None,
    }
}
