//! Interfaces, with the first fault or the canonical texts that each has.

use crate::interface_texts::{checked, in_check, with_brackets, with_items, with_signs};
use lx_annot::action::{ActionNode, Annotation};
use lx_annot::canonical::canonical;
use lx_annot::interface::Interface;
use lx_annot_read::{InterfaceFault, read_interface};
use lx_words::Memory;
use std::alloc::Global;
use std::test::Fail;

/// The bytes that a file may have.
pub const MOST_BYTES: usize = 1 << 20;

pub fn interface_in(alloc: Global, text: &[u8]) -> Result<Interface, InterfaceFault> {
    if text.len() > MOST_BYTES {
        return Err(InterfaceFault::Memory);
    }
    read_interface(alloc, text)
}

/// A text, and its first fault: the number of its kind, its line, and its words.
pub struct Row(pub &'static [u8], pub u8, pub u32, pub &'static [u8]);

/// Whether a fault is of this kind, in this line, with these words.
pub fn is_fault(fault: &InterfaceFault, kind: u8, line: u32, what: &[u8]) -> bool {
    let (found, at, words) = match fault {
        InterfaceFault::Memory => return false,
        InterfaceFault::Lexical { line, what } => (1, *line, what),
        InterfaceFault::Statement { line, what } => (2, *line, what),
        InterfaceFault::Unknown { line, what } => (3, *line, what),
        InterfaceFault::Twice { line, what } => (4, *line, what),
        InterfaceFault::NeedsSize { line, what } => (5, *line, what),
    };
    found == kind && at == line && words.is_same(what)
}

/// What is wanted of a text.
#[derive(Clone, Copy)]
enum Wanted<'a> {
    /// The first fault: the number of its kind, its line, and its words.
    Fault(u8, u32, &'a [u8]),
    /// The canonical text of the first export.
    FirstText(&'a [u8]),
    /// That text, and how many loans the last action ends, or none.
    FirstEnd(&'a [u8], Option<u32>),
    /// How many exports there are.
    Exports(usize),
    /// The first iterator's line, and how many items it has.
    Iterator(u32, usize),
    /// The canonical texts of all slots and exports.
    Texts(&'a [&'a [u8]], &'a [&'a [u8]]),
    /// The names, numbers and lines of the built-in interface.
    BuiltInNames,
}

/// Whether an interface is as it is wanted.
fn is_wanted(alloc: Global, interface: &Interface, wanted: Wanted<'_>) -> bool {
    match wanted {
        Wanted::Fault(..) => false,
        Wanted::FirstText(text) => has_first_text(alloc, interface, text),
        Wanted::FirstEnd(text, end) => {
            has_first_text(alloc, interface, text) && last_end(interface) == end
        }
        Wanted::Exports(count) => interface.exports.len() == count,
        Wanted::Iterator(line, items) => has_iterator(interface, line, items),
        Wanted::Texts(slots, exports) => {
            are_slots(alloc, interface, slots) && are_exports(alloc, interface, exports)
        }
        Wanted::BuiltInNames => has_built_in_names(interface),
    }
}

/// Whether a text is as it is wanted.
fn is_so(alloc: Global, text: &[u8], wanted: Wanted<'_>) -> bool {
    match interface_in(alloc, text) {
        Ok(interface) => {
            let is_wanted = is_wanted(alloc, &interface, wanted);
            drop(interface);
            is_wanted
        }
        Err(fault) => match wanted {
            Wanted::Fault(kind, line, what) => is_fault(&fault, kind, line, what),
            _ => false,
        },
    }
}

static HEADS: [Row; 10] = [
    Row(b"", 2, 1, b"end"),
    Row(b"interface", 2, 1, b"end"),
    Row(b"# nothing\n\ninterface\n# more\n", 2, 3, b"end"),
    Row(b"interface 01", 2, 1, b"01"),
    Row(b"interface 02", 2, 1, b"02"),
    Row(b"interface 2\nfoo", 2, 2, b"foo"),
    Row(b"interface 3\n", 2, 1, b"3"),
    Row(b"reftype a\n", 2, 1, b"reftype"),
    Row(b"@", 1, 1, b"0x40"),
    Row(b"interface 1\nreftype a\n\"b\"", 1, 3, b"0x22"),
];

static NAMES: [Row; 22] = [
    Row(b"interface 1\nfoo", 2, 2, b"foo"),
    Row(b"interface 1\nreftype", 2, 2, b"end"),
    Row(b"interface 1\nreftype 7", 2, 2, b"7"),
    Row(b"interface 1\nreftype a reftype\nb reftype a", 4, 3, b"a"),
    Row(
        b"interface 1\niterator i(p) { call p }\niterator i",
        4,
        3,
        b"i",
    ),
    Row(
        b"interface 1\niterator i(shared) { call shared }",
        2,
        2,
        b"shared",
    ),
    Row(b"interface 1\niterator i(p) { }", 2, 2, b"}"),
    Row(b"interface 1\niterator i(p) { call p; }", 2, 2, b"}"),
    Row(b"interface 1\niterator i(p) { i(p) }", 2, 2, b"i"),
    Row(
        b"interface 1\niterator i(p) { if (p) if (p) call p }",
        2,
        2,
        b"if",
    ),
    Row(b"interface 1\niterator i(p) { ref d, p }", 3, 2, b"d"),
    Row(
        b"interface 1\niterator i(p) { call return }",
        3,
        2,
        b"return",
    ),
    Row(b"interface 1\nslot s : i32 ()\nslot s @", 4, 3, b"s"),
    Row(b"interface 1\nslot s : int ()", 2, 2, b"int"),
    Row(b"interface 1\nslot s : i32 (ptr p, i8 p +", 4, 2, b"p"),
    Row(b"interface 1\nslot s : i32 (ptr global)", 2, 2, b"global"),
    Row(b"interface 1\nslot s : i32 (void)", 2, 2, b")"),
    Row(
        b"interface 1\nslot s : i32 () export s : void () export s",
        4,
        2,
        b"s",
    ),
    Row(b"interface 1\nfield %t 0 : s", 3, 2, b"s"),
    Row(
        b"interface 1\nslot s : i32 ()\nfield %\"a b\" 0 : s\nfield\n%\"a b\" 0 +",
        4,
        5,
        b"%a b",
    ),
    Row(
        b"interface 1\nslot s : i32 ()\nfield %t 4294967295 : s field %t 4294967296 : s",
        2,
        3,
        b"4294967296",
    ),
    Row(b"interface 1\nslot s : i32 ()\nfield t 0 : s", 2, 3, b"t"),
];

static CLAUSES: [Row; 26] = [
    Row(
        b"interface 1\nexport f : void (ptr p) pre(copy(write, p))",
        5,
        2,
        b"write",
    ),
    Row(
        b"interface 1\nexport f : void (ptr p) pre(copy(\nwrite,\np\n)\n)",
        5,
        3,
        b"write",
    ),
    Row(
        b"interface 1\nexport f : void (ptr p) pre(copy(write, q))",
        3,
        2,
        b"q",
    ),
    Row(
        b"interface 1\nexport f : void (ptr p) pre(copy(write))",
        2,
        2,
        b")",
    ),
    Row(
        b"interface 1\nexport f : void (ptr p) pre(copy(write, p;",
        2,
        2,
        b";",
    ),
    Row(b"interface 1\niterator i(p) { write p }", 5, 2, b"write"),
    Row(
        b"interface 1\niterator i(p) { call p;\nwrite\np; call p }",
        5,
        3,
        b"write",
    ),
    Row(b"interface 1\niterator i(p) { write p )", 2, 2, b")"),
    Row(b"interface 1\niterator i(p) { write, p, 8 }", 2, 2, b","),
    Row(
        b"interface 1\nexport f : void (ptr p) pre(copy(call, write))",
        3,
        2,
        b"write",
    ),
    Row(
        b"interface 1\nexport f : i32 (ptr p) pre(check(call, return))",
        3,
        2,
        b"return",
    ),
    Row(
        b"interface 1\nexport f : void (ptr p) post(check(call, return))",
        3,
        2,
        b"return",
    ),
    Row(
        b"interface 1\nexport f : i32 (ptr p) principal(return)",
        3,
        2,
        b"return",
    ),
    Row(
        b"interface 1\nexport f : i32 (ptr p) principal(shared + 1)",
        2,
        2,
        b"+",
    ),
    Row(
        b"interface 1\nexport f : i32 (ptr p) principal(p) principal(p)",
        2,
        2,
        b"principal",
    ),
    Row(
        b"interface 1\nexport f : i32 (ptr p) pre(lend(call, p))",
        2,
        2,
        b"lend",
    ),
    Row(
        b"interface 1\nexport f : i32 (ptr p) pre(check(each(p)))\niterator each(p) { call p }",
        3,
        2,
        b"each",
    ),
    Row(
        b"interface 1\nexport f : i32 (ptr p) pre(check(ref(d), p))",
        3,
        2,
        b"d",
    ),
    Row(
        b"interface 1\nexport f : i32 (ptr p) pre(check(call, 9223372036854775808))",
        2,
        2,
        b"9223372036854775808",
    ),
    Row(
        b"interface 1\nexport f : i32 (ptr p) pre(check(call, load64))",
        3,
        2,
        b"load64",
    ),
    Row(
        b"interface 1\nexport f : i32 (ptr p) pre(check(call, load64",
        2,
        2,
        b"end",
    ),
    Row(
        b"interface 1\nexport f : i32 (ptr load64) pre(check(call, load64(load64 +)))",
        2,
        2,
        b")",
    ),
    Row(
        b"interface 1\nexport f : i32 (ptr p) pre(check(call, p p))",
        2,
        2,
        b"p",
    ),
    Row(
        b"interface 1\nexport f : i32 (ptr p) pre(check(call, p = 1))",
        1,
        2,
        b"0x3d",
    ),
    Row(b"interface 1\nexport f : i32 (ptr p) pre(if p)", 2, 2, b"p"),
    Row(
        b"interface 1\nexport f : i32 (ptr p) pre(check(call, p)) q @",
        2,
        2,
        b"q",
    ),
];

fn row_fails(alloc: Global, row: &Row) -> bool {
    is_so(alloc, row.0, Wanted::Fault(row.1, row.2, row.3))
}

#[test]
fn the_first_fault_of_a_head(rt: HostRuntime) {
    let alloc = rt.alloc();
    assert_eq!(rt; HEADS.iter().position(|row| !row_fails(alloc, row)), None);
}

#[test]
fn the_first_fault_of_names(rt: HostRuntime) {
    let alloc = rt.alloc();
    assert_eq!(rt; NAMES.iter().position(|row| !row_fails(alloc, row)), None);
}

#[test]
fn the_first_fault_of_clauses(rt: HostRuntime) {
    let alloc = rt.alloc();
    assert_eq!(rt; CLAUSES.iter().position(|row| !row_fails(alloc, row)), None);
}

/// Lends where none may stand, and lends that are not whole.
static LENDS: [Row; 13] = [
    Row(
        b"interface 1\nslot s : i32 (ptr p)\npre(if (p)\nlend(call, p))",
        2,
        4,
        b"lend",
    ),
    Row(
        b"interface 1\nexport f : i32 (ptr p)\npost(lend(call, p))",
        2,
        3,
        b"lend",
    ),
    Row(
        b"interface 2\nexport f : i32 (ptr p)\npost(lend(call, p))",
        2,
        3,
        b"lend",
    ),
    Row(
        b"interface 2\nslot s : i32 (ptr p) pre(lend(call, p)) post(if (p)\nlend(call, p))",
        2,
        3,
        b"lend",
    ),
    Row(
        b"interface 2\nexport f : i32 (ptr p) pre(\nlend(write, p))",
        5,
        3,
        b"write",
    ),
    Row(b"interface 2\nexport f : i32 (ptr p) pre(lend)", 2, 2, b")"),
    Row(
        b"interface 2\nexport f : i32 (ptr p) pre(lend(call, return))",
        3,
        2,
        b"return",
    ),
    Row(
        b"interface 2\nexport f : i32 (ptr p) pre(lend(each(p)))",
        3,
        2,
        b"each",
    ),
    Row(
        b"interface 2\nexport f : i32 (ptr p) pre(lend(lend(call, p)))",
        3,
        2,
        b"lend",
    ),
    Row(
        b"interface 2\niterator i(p) { lend write p, 8 }",
        2,
        2,
        b"lend",
    ),
    Row(
        b"interface 2\nexport f : i32 (ptr p) pre(lend(call, p))\npost(end)",
        2,
        3,
        b"end",
    ),
    Row(
        b"interface 2\nexport f : i32 (ptr p) pre(lend(call, p))\npost(end(1))",
        2,
        3,
        b"end",
    ),
    Row(
        b"interface 2\nexport f : i32 (ptr p) pre(end)",
        2,
        2,
        b"end",
    ),
];

#[test]
fn the_first_fault_of_lends(rt: HostRuntime) {
    let alloc = rt.alloc();
    assert_eq!(rt; LENDS.iter().position(|row| !row_fails(alloc, row)), None);
}

/// An expression over `p` and `q`, and its canonical text.
struct Sample(&'static str, &'static [u8]);

static EXPRESSIONS: [Sample; 26] = [
    Sample("p", b"$0"),
    Sample("q", b"$1"),
    Sample("007", b"7"),
    Sample("9223372036854775807", b"9223372036854775807"),
    Sample("((p))", b"$0"),
    Sample("- ! -p", b"(-(!(-$0)))"),
    Sample("-p * q", b"((-$0) * $1)"),
    Sample("-(p * q)", b"(-($0 * $1))"),
    Sample("p - q - 1", b"(($0 - $1) - 1)"),
    Sample("p - (q - 1)", b"($0 - ($1 - 1))"),
    Sample("p - q * 2", b"($0 - ($1 * 2))"),
    Sample("p * q + 2", b"(($0 * $1) + 2)"),
    Sample("p * q * 2", b"(($0 * $1) * 2)"),
    Sample("p << 1 + 2 >> q", b"(($0 << (1 + 2)) >> $1)"),
    Sample("p < q << 1", b"($0 < ($1 << 1))"),
    Sample("p < q <= 1 > 2 >= 3", b"(((($0 < $1) <= 1) > 2) >= 3)"),
    Sample("p == q < 1 != 2", b"(($0 == ($1 < 1)) != 2)"),
    Sample("p & q == 1", b"($0 & ($1 == 1))"),
    Sample("p ^ q & 1", b"($0 ^ ($1 & 1))"),
    Sample("p | q ^ 1", b"($0 | ($1 ^ 1))"),
    Sample("p && q | 1", b"($0 && ($1 | 1))"),
    Sample("p || q && 1 || 2", b"(($0 || ($1 && 1)) || 2)"),
    Sample("p && q && 1", b"(($0 && $1) && 1)"),
    Sample("load64(p + 8) + 8", b"(load64(($0 + 8)) + 8)"),
    Sample("load64 ( load64\t(p) ) # more", b"load64(load64($0))"),
    Sample("!load64(p)", b"(!load64($0))"),
];

fn is_text(alloc: Global, interface: &Interface, annotation: &Annotation, wanted: &[u8]) -> bool {
    match canonical(alloc, interface, annotation) {
        Ok(text) => text.as_slice() == wanted,
        Err(_) => false,
    }
}

/// Whether this is the canonical text of the first export.
fn has_first_text(alloc: Global, interface: &Interface, wanted: &[u8]) -> bool {
    match interface.exports.as_slice().first() {
        Some(export) => is_text(alloc, interface, &export.annotation, wanted),
        None => false,
    }
}

/// Whether an expression is read as it says.
fn is_sample(alloc: Global, sample: &Sample) -> Result<bool, Memory> {
    let text = checked(alloc, sample.0)?;
    match in_check(alloc, sample.1) {
        Ok(wanted) => Ok(is_so(alloc, text.as_slice(), Wanted::FirstText(wanted.as_slice()))),
        Err(error) => {
            drop(text);
            Err(error)
        }
    }
}

#[test]
fn operators_bind_by_their_level_and_from_the_left(rt: HostRuntime) {
    let alloc = rt.alloc();
    assert_eq!(rt;
        EXPRESSIONS
            .iter()
            .position(|sample| !is_sample(alloc, sample).unwrap_or(false)),
        None
    );
}

/// An interface, the canonical text of its first export, and how many loans the last action of that ends, or none.
struct Lending(&'static [u8], &'static [u8], Option<u32>);

static LENDINGS: [Lending; 9] = [
    Lending(
        b"interface 2 export f : void (ptr p) pre(lend(write, p, 8))",
        b"pre(lend(write, $0, 8)) post(end)",
        Some(1),
    ),
    Lending(
        b"interface 2 export f : i32 (ptr p, i8 n) principal(p) pre(if (n) if (p) lend(call, p)) post(copy(call, return))",
        b"principal($0) pre(if ($1) if ($0) lend(call, $0)) post(copy(call, return)) post(end)",
        Some(1),
    ),
    // the end stands last, in whatever order the clauses do
    Lending(
        b"interface 2 export f : void (ptr p) post(copy(call, p)) pre(lend(call, 1)) pre(check(call, 2)) pre(if (p) lend(call, 3)) post(check(call, 4))",
        b"pre(lend(call, 1)) pre(check(call, 2)) pre(if ($0) lend(call, 3)) post(copy(call, $0)) post(check(call, 4)) post(end)",
        Some(2),
    ),
    Lending(
        b"interface 2 export f : void (ptr p) pre(lend(call, p)) pre(lend(call, p)) pre(lend(call, p))",
        b"pre(lend(call, $0)) pre(lend(call, $0)) pre(lend(call, $0)) post(end)",
        Some(3),
    ),
    Lending(
        b"interface 2 export f : void (ptr p) pre(transfer(call, p)) post(copy(call, p))",
        b"pre(transfer(call, $0)) post(copy(call, $0))",
        None,
    ),
    Lending(b"interface 2 export f : void (ptr p)", b"", None),
    // `lend` as a name
    Lending(
        b"interface 1 reftype lend iterator lend(lend) { call lend } slot lend : void () export lend : void (ptr lend) pre(check(lend(lend))) post(copy(ref(lend), lend))",
        b"pre(check(lend($0))) post(copy(ref(lend), $0))",
        None,
    ),
    Lending(
        b"interface 2 reftype lend iterator lend(lend) { call lend } slot lend : void () export lend : void (ptr lend) pre(check(lend(lend))) post(copy(ref(lend), lend))",
        b"pre(check(lend($0))) post(copy(ref(lend), $0))",
        None,
    ),
    Lending(
        b"interface 2 reftype lend iterator lend(lend) { call lend } export lend : void (ptr lend) pre(lend(lend(lend))) pre(lend(ref(lend), lend))",
        b"pre(lend(lend($0))) pre(lend(ref(lend), $0)) post(end)",
        Some(2),
    ),
];

/// How many loans the last action of the first export ends, where it ends any.
fn last_end(interface: &Interface) -> Option<u32> {
    let export = interface.exports.as_slice().first()?;
    match &export.annotation.post.as_slice().last()?.node {
        ActionNode::End(count) => Some(*count),
        _ => None,
    }
}

/// Whether an interface is read as it says.
fn is_lending(alloc: Global, row: &Lending) -> bool {
    is_so(alloc, row.0, Wanted::FirstEnd(row.1, row.2))
}

#[test]
fn the_end_of_all_loans_stands_behind_all_actions(rt: HostRuntime) {
    let alloc = rt.alloc();
    assert_eq!(rt;
        LENDINGS.iter().position(|row| !is_lending(alloc, row)),
        None
    );
}

/// How many exports the second version gives, with and without a `lend`.
#[test]
fn a_text_of_version_2_may_lend_nothing(rt: HostRuntime) {
    let alloc = rt.alloc();
    assert!(rt; is_so(alloc, b"interface 2", Wanted::Exports(0)));
    assert!(rt;
        is_so(
            alloc,
            b"interface 2 export f : void () export g : i8 ()",
            Wanted::Exports(2)
        )
    );
}

static BUILT_IN: &[u8] = b"interface 1
reftype device
iterator skb_caps(p) { write p, 24; write load64(p), load64(p + 8) }
slot probe : i32 (ptr dev) principal(dev) pre(copy(ref(device), dev)) post(if (return < 0) transfer(ref(device), dev))
slot xmit : i32 (ptr skb, ptr dev) principal(dev) pre(transfer(skb_caps(skb))) post(if (return < 0) transfer(skb_caps(skb)))
field %struct.dev_ops 0 : probe
field %struct.dev_ops 1 : xmit
export kmalloc : ptr (i64 n) post(if (return != 0) transfer(write, return, n))
export kzalloc : ptr (i64 n) post(if (return != 0) transfer(write, return, n))
export kfree : void (ptr p) pre(if (p != 0) transfer(write, p, load64(p - 16)))
export dev_register : ptr (ptr ops)
export dev_set_priv : void (ptr dev, ptr v) pre(check(ref(device), dev))
export dev_zero : void (ptr p, i64 n) pre(check(write, p, n))
export dev_wipe : void (ptr p, i64 n) pre(transfer(write, p, n)) post(transfer(write, p, n))
export skb_new : ptr (i64 n) post(if (return != 0) transfer(write, return, 24)) post(if (return != 0) transfer(write, load64(return), n))
export netif_rx : i32 (ptr skb) pre(transfer(skb_caps(skb)))
export hook_get : ptr () post(copy(call, return))
export hook_fn : i64 (i64 x)
";

static SLOT_TEXTS: [&[u8]; 2] = [
    b"principal($0) pre(copy(ref(device), $0)) post(if ((return < 0)) transfer(ref(device), $0))",
    b"principal($1) pre(transfer(skb_caps($0))) post(if ((return < 0)) transfer(skb_caps($0)))",
];

static EXPORT_TEXTS: [&[u8]; 11] = [
    b"post(if ((return != 0)) transfer(write, return, $0))",
    b"post(if ((return != 0)) transfer(write, return, $0))",
    b"pre(if (($0 != 0)) transfer(write, $0, load64(($0 - 16))))",
    b"",
    b"pre(check(ref(device), $0))",
    b"pre(check(write, $0, $1))",
    b"pre(transfer(write, $0, $1)) post(transfer(write, $0, $1))",
    b"post(if ((return != 0)) transfer(write, return, 24)) post(if ((return != 0)) transfer(write, load64(return), $0))",
    b"pre(transfer(skb_caps($0)))",
    b"post(copy(call, return))",
    b"",
];

/// Whether these are the canonical texts of the slots.
fn are_slots(alloc: Global, interface: &Interface, texts: &[&[u8]]) -> bool {
    let slots = interface.slots.as_slice();
    slots.len() == texts.len()
        && slots.iter().zip(texts).all(|(slot, text)| is_text(
            alloc,
            interface,
            &slot.annotation,
            text,
        ))
}

/// Whether these are the canonical texts of the exports.
fn are_exports(alloc: Global, interface: &Interface, texts: &[&[u8]]) -> bool {
    let exports = interface.exports.as_slice();
    exports.len() == texts.len()
        && exports.iter().zip(texts).all(|(export, text)| is_text(
            alloc,
            interface,
            &export.annotation,
            text,
        ))
}

#[test]
fn a_whole_interface_says_its_annotations(rt: HostRuntime) {
    let wanted = Wanted::Texts(&SLOT_TEXTS, &EXPORT_TEXTS);
    assert!(rt; is_so(rt.alloc(), BUILT_IN, wanted));
}

fn has_iterator(interface: &Interface, line: u32, items: usize) -> bool {
    match interface.iterators.as_slice().first() {
        Some(iterator) => iterator.line == line && iterator.items.len() == items,
        None => false,
    }
}

fn has_second_field(interface: &Interface, name: &[u8], line: u32) -> bool {
    match interface.fields.as_slice().get(1) {
        Some(field) => {
            field.name.is_same(name) && field.index == 1 && field.slot == 1 && field.line == line
        }
        None => false,
    }
}

fn has_third_export(interface: &Interface, name: &[u8], line: u32) -> bool {
    match interface.exports.as_slice().get(2) {
        Some(export) => {
            export.name.is_same(name) && export.params.len() == 1 && export.line == line
        }
        None => false,
    }
}

fn has_built_in_names(interface: &Interface) -> bool {
    has_iterator(interface, 3, 2)
        && has_second_field(interface, b"struct.dev_ops", 7)
        && has_third_export(interface, b"kfree", 10)
}

#[test]
fn a_whole_interface_keeps_names_numbers_and_lines(rt: HostRuntime) {
    assert!(rt; is_so(rt.alloc(), BUILT_IN, Wanted::BuiltInNames));
}

/// Whether an iterator with an item and so many more is as it is wanted.
fn items_are_so(alloc: Global, more: usize, wanted: Wanted<'_>) -> Result<bool, Memory> {
    let text = with_items(alloc, more)?;
    Ok(is_so(alloc, text.as_slice(), wanted))
}

#[test]
fn an_iterator_has_sixteen_items_at_most(rt: HostRuntime) -> Result<(), Fail> {
    let alloc = rt.alloc();
    assert!(rt; items_are_so(alloc, 15, Wanted::Iterator(2, 16))?);
    assert!(rt; items_are_so(alloc, 16, Wanted::Fault(2, 19, b";"))?);
    Ok(())
}

/// So many signs, what stands behind them, and the first fault: the number of its kind, and its words.
struct Signs(usize, &'static str, u8, &'static [u8]);

static SIGNS: [Signs; 4] = [
    Signs(1008, "p))", 2, b")"),
    Signs(1007, "p)) pre(check(call, p))", 2, b"pre"),
    // an unknown name as the last token, and behind it
    Signs(1009, "q))", 3, b"q"),
    Signs(1010, "q))", 2, b"q"),
];

/// Whether so many signs with this text behind them are as they are wanted.
fn signs_are_so(
    alloc: Global,
    signs: usize,
    end: &str,
    wanted: Wanted<'_>,
) -> Result<bool, Memory> {
    let text = with_signs(alloc, signs, end)?;
    Ok(is_so(alloc, text.as_slice(), wanted))
}

fn signs_fail(alloc: Global, row: &Signs) -> bool {
    signs_are_so(alloc, row.0, row.1, Wanted::Fault(row.2, 3, row.3)).unwrap_or(false)
}

#[test]
fn a_statement_has_1024_tokens_at_most(rt: HostRuntime) -> Result<(), Fail> {
    let alloc = rt.alloc();
    assert!(rt; signs_are_so(alloc, 1007, "p)) export g : void ()", Wanted::Exports(2))?);
    Ok(())
}

#[test]
fn a_statement_of_1025_tokens_has_a_fault(rt: HostRuntime) {
    let alloc = rt.alloc();
    assert_eq!(rt; SIGNS.iter().position(|row| !signs_fail(alloc, row)), None);
}

fn brackets_are_read(alloc: Global) -> Result<bool, Memory> {
    let text = with_brackets(alloc, 503)?;
    Ok(is_so(
        alloc,
        text.as_slice(),
        Wanted::FirstText(b"pre(check(call, $0))"),
    ))
}

#[test]
fn brackets_nest_as_deeply_as_a_statement_is_long(rt: HostRuntime) -> Result<(), Fail> {
    assert!(rt; brackets_are_read(rt.alloc())?);
    Ok(())
}

/// The same interface without spaces, and with many and comments.
static SPACED: [&[u8]; 2] = [
    b"interface 1 export f:ptr(i64 n)post(if(return!=0)copy(write,return,n))",
    b"interface#\n1\r\nexport\tf :\nptr ( i64 n ) # no\npost ( if ( return != 0 ) copy ( write , return , n ) )",
];

static UNSPACED: &[u8] = b"post(if ((return != 0)) copy(write, return, $0))";

#[test]
fn spaces_and_comments_say_nothing(rt: HostRuntime) {
    let alloc = rt.alloc();
    let wanted = Wanted::FirstText(UNSPACED);
    assert_eq!(rt;
        SPACED.iter().position(|text| !is_so(alloc, text, wanted)),
        None
    );
}
