//! Checked texts, linked.

ghost use Rattle.std.specs.Prelude.{◌≡◌, ◌≤◌, All, IfOk, length, map};
ghost use Rattle.lx_propagate.specs.Slots.{annotated_of};
ghost use Rattle.lx_files.specs.Sound.{AreSound, IsSoundImage, IsSoundModule};
ghost use Rattle.lx_link.specs.Answers.{origin_name};
ghost use Rattle.lx_input.specs.Checks.{EachModule, VerifyTurn, passed};
ghost use Rattle.lx_input.specs.Inputs.{BehindLink, BehindSlots, BehindVerified, CheckTurn, ImageCheck, LinkTurn, TextsTurn, sources_by};
ghost use Rattle.lx_input.specs.Laws.{HasNoConflict, IsLinkedInput, IsReady, IsVerifiedImage};

use crate::checks::{annotate_modules, verify_module, verify_modules};
use crate::input::Input;
use crate::stop::link_stop;
use lx_files::{Besides, ImageFile, InputStop, Sources};
use lx_ir::module::Module;
use lx_ir_verify::Verified;
use lx_link::{VerifiedTexts, link};
use lx_script::{Case, CaseModule, Origin};
use lx_slot_types::Annotated;
use lx_words::Items;
use std::alloc::Global;

/// The name of the file that a text comes from.
fn origin_name(origin: &Origin) -> &[u8]
    ensures { result.now ≡ origin_name origin.now }
{
    match origin {
        Origin::None => &[],
        Origin::Builtin => b"builtin",
        Origin::File(name) => name.as_slice(),
    }
}

/// A case has at most 16 threads.
fn few_threads(case: &Case) -> usize
    ensures count { result ≡ length case.now.threads }
    ensures few { length case.now.threads ≤ 16 }
{
    case.threads.len()
}

/// A case, and the texts that were read for it, verified.
#[derive(Drop)]
struct VerifiedCase {
    case: Case,
    texts: VerifiedTexts,
}

/// Links what was checked; `name` is the name of the case.
#[tactic(auto, using(crate::proofs::Linking::link_told))]
fn link_checked(
    alloc: Global,
    name: &[u8],
    checked: VerifiedCase,
    annotated: Items<Annotated>,
    besides: Besides,
) -> Result<Input, InputStop>
    requires sound { AreSound (sources_by checked besides) }
    requires annotated { annotated ≡ map (annotated_of checked.texts.interface) checked.texts.modules.items }
    requires agree { All (HasNoConflict checked.texts.interface) checked.texts.modules.items }
    ensures turn { LinkTurn name.now (sources_by checked besides) result }
    ensures linked { IfOk result IsLinkedInput }
    ensures besides { IfOk result (λ i. i.besides ≡ besides) }
{
    let _threads = few_threads(&checked.case);
    let VerifiedCase { case, texts } = checked;
    let outcome = link(alloc, texts, annotated.as_slice(), &case);
    // What was linked no longer needs its case, however it went.
    drop(case);
    match outcome {
        Ok(linked) => {
            let (program, script) = linked.into_parts();
            Ok(Input {
                program,
                script,
                annotated,
                besides,
            })
        }
        Err(fault) => {
            drop(annotated);
            drop(besides);
            Err(link_stop(alloc, name, fault))
        }
    }
}

/// The image, where there is one and it has no fault.
fn verified_image(alloc: Global, image: Option<ImageFile>) -> Result<Option<ImageFile>, InputStop>
    requires { IsSoundImage image }
    ensures turn { ImageCheck image (passed result) }
    ensures same { IfOk result (λ verified. verified ≡ image) }
    ensures verified { IfOk result IsVerifiedImage }
{
    match image {
        None => Ok(None),
        Some(ImageFile { file, text }) => match verify_module(alloc, file.as_slice(), text) {
            Ok(verified) => Ok(Some(ImageFile {
                file,
                text: verified.into_module(),
            })),
            Err(why) => {
                drop(file);
                Err(why)
            }
        },
    }
}

/// Verifies the image of what is linked, where there is one.
fn verify_image(alloc: Global, input: Input) -> Result<Input, InputStop>
    requires sound { IsSoundImage input.besides.image }
    requires linked { IsLinkedInput input }
    ensures turn { BehindLink input result }
    ensures ready { IfOk result IsReady }
    ensures besides { IfOk result (λ i. i.besides ≡ input.besides) }
{
    let Input {
        program,
        script,
        annotated,
        besides: Besides {
            number,
            schedule,
            image,
        },
    } = input;
    match verified_image(alloc, image) {
        Ok(image) => Ok(Input {
            program,
            script,
            annotated,
            besides: Besides {
                number,
                schedule,
                image,
            },
        }),
        Err(why) => {
            drop(program);
            drop(script);
            drop(annotated);
            drop(schedule);
            Err(why)
        }
    }
}

/// Links what was checked, and verifies the image behind that.
fn check_linked(
    alloc: Global,
    name: &[u8],
    checked: VerifiedCase,
    annotated: Items<Annotated>,
    besides: Besides,
) -> Result<Input, InputStop>
    requires sound { AreSound (sources_by checked besides) }
    requires annotated { annotated ≡ map (annotated_of checked.texts.interface) checked.texts.modules.items }
    requires agree { All (HasNoConflict checked.texts.interface) checked.texts.modules.items }
    ensures turn { BehindSlots name.now (sources_by checked besides) result }
    ensures ready { IfOk result IsReady }
    ensures besides { IfOk result (λ i. i.besides ≡ besides) }
{
    match link_checked(alloc, name, checked, annotated, besides) {
        Ok(input) => verify_image(alloc, input),
        Err(why) => Err(why),
    }
}

/// Hands on slot types in each module, and goes on behind that.
fn check_slots(
    alloc: Global,
    name: &[u8],
    checked: VerifiedCase,
    besides: Besides,
) -> Result<Input, InputStop>
    requires sound { AreSound (sources_by checked besides) }
    ensures turn { BehindVerified name.now (sources_by checked besides) result }
    ensures ready { IfOk result IsReady }
    ensures besides { IfOk result (λ i. i.besides ≡ besides) }
{
    match annotate_modules(
        alloc,
        &checked.texts.interface,
        checked.case.modules.as_slice(),
        checked.texts.modules.as_slice(),
    ) {
        Ok(annotated) => check_linked(alloc, name, checked, annotated, besides),
        Err(why) => {
            drop(checked);
            drop(besides);
            Err(why)
        }
    }
}

/// Verifies each module behind the kernel, which is handed on.
fn verify_behind(
    alloc: Global,
    kernel: Verified,
    names: &[CaseModule],
    modules: Items<Module>,
) -> Result<(Verified, Vec<Verified>), InputStop>
    requires sound { All IsSoundModule modules }
    requires as_many { length modules ≡ length names.now }
    ensures turn { EachModule VerifyTurn names.now modules (passed result) }
    ensures kernel { IfOk result (λ texts. texts.0 ≡ kernel) }
    ensures modules { IfOk result (λ texts. texts.1.items ≡ modules) }
{
    match verify_modules(alloc, names, modules.into_vec()) {
        Ok(verified) => Ok((kernel, verified)),
        Err(why) => {
            drop(kernel);
            Err(why)
        }
    }
}

/// Verifies the kernel, and then each module.
fn verify_texts(
    alloc: Global,
    case: &Case,
    kernel: Module,
    modules: Items<Module>,
) -> Result<(Verified, Vec<Verified>), InputStop>
    requires kernel { IsSoundModule kernel }
    requires modules { All IsSoundModule modules }
    requires as_many { length modules ≡ length case.now.modules }
    ensures turn { TextsTurn case.now kernel modules (passed result) }
    ensures kernel { IfOk result (λ texts. texts.0 ≡ kernel) }
    ensures modules { IfOk result (λ texts. texts.1.items ≡ modules) }
{
    match verify_module(alloc, origin_name(&case.kernel), kernel) {
        Ok(verified) => verify_behind(alloc, verified, case.modules.as_slice(), modules),
        Err(why) => {
            drop(modules);
            Err(why)
        }
    }
}

/// Checks and links what was read; `name` is the name of the case.
pub fn check_sources(alloc: Global, name: &[u8], sources: Sources) -> Result<Input, InputStop>
    requires { AreSound sources }
    ensures turn { CheckTurn name.now sources result }
    ensures ready { IfOk result IsReady }
    ensures besides { IfOk result (λ i. i.besides ≡ sources.besides) }
{
    let Sources {
        case,
        kernel,
        interface,
        modules,
        besides,
    } = sources;
    match verify_texts(alloc, &case, kernel, modules) {
        Ok((kernel, modules)) => {
            let texts = VerifiedTexts {
                kernel,
                interface,
                modules,
            };
            check_slots(alloc, name, VerifiedCase { case, texts }, besides)
        }
        Err(why) => {
            drop(case);
            drop(interface);
            drop(besides);
            Err(why)
        }
    }
}
