//! What expressions come to over the arguments of a call.

use crate::interfaces::interface_in;
use lx_annot::action::Who;
use lx_annot::expr::Expr;
use lx_annot::interface::Interface;
use lx_annot::value::{Look, value_at_entry};
use lx_words::{Width, Word};
use std::alloc::Global;
use std::test::Fail;

/// A memory of which nothing is mapped.
struct Unmapped;

impl Look for Unmapped {
    ghost use Rattle.std.specs.Prelude.{None};

    ghost shows = { λ memory at. None };

    fn load64(&self, _at: u64) -> Option<u64> {
        None
    }
}

/// An expression over `b`, `c`, `d` and `x`, and its value; none where it looks at memory.
struct Valued(&'static str, Option<u64>);

static VALUES: [Valued; 16] = [
    // A truth is extended by zeros, and each other word as its type says.
    Valued("b", Some(1)),
    Valued("c", Some(0xffff_ffff_ffff_ffff)),
    Valued("d", Some(0xff)),
    Valued("-b", Some(0xffff_ffff_ffff_ffff)),
    Valued("!d", Some(0)),
    Valued("x >> 63", Some(1)),
    Valued("x >> 64", Some(0)),
    Valued("1 << 63 == x", Some(1)),
    Valued("1 << 64", Some(0)),
    // Comparisons are signed.
    Valued("x < 0", Some(1)),
    Valued("x + x", Some(0)),
    // The left side decides.
    Valued("0 && load64(x)", Some(0)),
    Valued("2 && 3", Some(1)),
    Valued("2 || load64(x)", Some(1)),
    Valued("0 || 0", Some(0)),
    Valued("1 && load64(x)", None),
];

fn put_text(text: &mut String, expression: &str) -> Result<(), Fail> {
    let head = "interface 1\nexport f : void (bool b, i8 c, u8 d, i64 x) principal(";
    for piece in [head, expression, ")"] {
        text.push_str(piece)?;
    }
    Ok(())
}

/// The principal of the one export, where it is an expression.
fn principal_of(interface: &Interface) -> Option<&Expr> {
    match interface.exports.as_slice() {
        [export] => match &export.annotation.principal {
            Some(Who::Value(expression)) => Some(expression),
            _ => None,
        },
        _ => None,
    }
}

/// Whether the principal of the one export has this value.
fn has_value(interface: &Interface, wanted: Option<u64>) -> bool {
    let args = [
        Word::new(Width::W1, 1),
        Word::new(Width::W8, 0xff),
        Word::new(Width::W8, 0xff),
        Word::new(Width::W64, 1 << 63),
    ];
    match principal_of(interface) {
        Some(expression) => value_at_entry(expression, &args, &Unmapped).ok() == wanted,
        None => false,
    }
}

fn text_has_value(alloc: Global, text: &str, wanted: Option<u64>) -> bool {
    match interface_in(alloc, text.as_bytes()) {
        Ok(interface) => {
            let has = has_value(&interface, wanted);
            drop(interface);
            has
        }
        Err(_) => false,
    }
}

fn is_valued(alloc: Global, row: &Valued) -> Result<bool, Fail> {
    let mut text = String::new(alloc);
    let put = put_text(&mut text, row.0);
    let is = text_has_value(alloc, text.as_str(), row.1);
    drop(text);
    put?;
    Ok(is)
}

#[test]
fn expressions_have_values(rt: HostRuntime) -> Result<(), Fail> {
    for (number, row) in VALUES.iter().enumerate() {
        assert!(rt; is_valued(rt.alloc(), row)?, "row {number}");
    }
    Ok(())
}
