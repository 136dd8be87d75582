//! Images that are those of other modules are told, the first one by its number.
ghost use Rattle.lx_input.specs.Laws.{IsReady};

use crate::images::Image;
use crate::inputs::input_of;
use crate::opened::open_over;
use crate::rows::{Row, Wanted, assert_rows};
use crate::texts::{exchanged, has_type, stores_past, stores_seven, two_modules};
use lx_input::Input;
use lx_opening::OpenFault;
use std::alloc::Global;
use std::process::Abort;
use std::test::Fail;

/// Whether this module of an input is told to have another image, or none is where none is named.
pub fn differs(
    alloc: Global,
    input: Input,
    images: &[Image<'_>],
    wanted: Option<u32>,
) -> Result<bool, Fail>
    requires { IsReady input }
{
    match open_over(alloc, input, images)? {
        Ok(opened) => {
            drop(opened);
            Ok(wanted.is_none())
        }
        Err(OpenFault::ImageDiffers { module }) => Ok(wanted == Some(module)),
        Err(OpenFault::Memory) => Err(Fail::new("want of memory")),
    }
}

/// The image is told to be that of another module.
const OTHER: Wanted = Wanted::Differs(Some(0));

const TAKEN: Wanted = Wanted::Differs(None);

/// The image as it is made, and with its lines lower; then parts of it, and what makes it the image of another module: an operand, an
/// initialiser, a global more, a function more.
static STORING: [Row; 6] = [
    Row("0:\n", "0:\n", TAKEN),
    Row("0:\n", "\n0:\n\n", TAKEN),
    Row("i32 7", "i32 8", OTHER),
    Row("global i32 0", "global i32 1", OTHER),
    Row("define", "@h = global i32 0\ndefine", OTHER),
    Row(
        "}\n",
        "}\ndefine i32 @other() {\n0:\n  ret i32 0\n}\n",
        OTHER,
    ),
];

#[test]
fn an_image_of_the_module_alone_is_taken(rt: HostRuntime) -> Result<(), Fail> {
    assert_rows(&rt, rt.alloc(), stores_seven(), &STORING)
}

/// The image as it is made, and those of modules with other types.
static TYPED: [Row; 3] = [
    Row("0:\n", "0:\n", TAKEN),
    Row("i32 }", "i64 }", OTHER),
    Row("%pair = type { i32, i32 }\n", "", OTHER),
];

#[test]
fn an_image_with_the_types_of_the_module_alone_is_taken(rt: HostRuntime) -> Result<(), Fail> {
    assert_rows(&rt, rt.alloc(), has_type(), &TYPED)
}

/// Whether this module of two is told to have another image, where the first one stores a 7, and the second one past its global.
fn differs_of_two<'a>(
    alloc: Global,
    first: &'a str,
    second: &'a str,
    wanted: Option<u32>,
) -> Result<bool, Fail> {
    let files = [
        ("m.ll", stores_seven().module),
        ("n.ll", stores_past().module),
    ];
    let input = input_of(alloc, two_modules(), &files)?;
    let images = [Image::Text(first), Image::Text(second)];
    differs(alloc, input, &images, wanted)
}

/// The first of two images that differ is told, where `eight` stores an 8.
fn assert_first(rt: &impl Abort, alloc: Global, eight: &str) -> Result<(), Fail> {
    let (seven, past) = (stores_seven().image, stores_past().image);
    assert!(rt; differs_of_two(alloc, seven, past, None)?);
    assert!(rt; differs_of_two(alloc, seven, eight, Some(1))?);
    assert!(rt; differs_of_two(alloc, eight, past, Some(0))?);
    // each is the other's
    assert!(rt; differs_of_two(alloc, past, seven, Some(0))?);
    Ok(())
}

#[test]
fn the_first_of_two_images_that_differ_is_told(rt: HostRuntime) -> Result<(), Fail> {
    let eight = exchanged(rt.alloc(), stores_seven().image, "i32 7", "i32 8")?;
    let went = assert_first(&rt, rt.alloc(), eight.as_str());
    drop(eight);
    went
}

#[test]
fn a_world_that_is_not_opened_says_why(rt: HostRuntime) -> Result<(), Fail> {
    let fault = OpenFault::ImageDiffers { module: 3 };
    let text = format!(in rt.alloc(); "{fault}")?;
    assert!(rt; text.as_str() == "the image of module 3 is not that of its text");
    Ok(())
}
