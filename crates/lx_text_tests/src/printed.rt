//! Interfaces written as prototypes of C, with the statements that are printed of each.

use crate::interfaces::interface_in;
use crate::prototype_texts::{printed_with_type, with_members, with_type};
use crate::prototypes::prototypes_in;
use lx_annot::interface::Interface;
use lx_annot_read::InterfaceFault;
use lx_cproto_print::print_interface;
use lx_words::Memory;
use std::alloc::Global;
use std::test::Fail;

fn prints(alloc: Global, interface: &Interface, wanted: &[u8]) -> bool {
    match print_interface(alloc, interface) {
        Ok(text) => text.as_slice() == wanted,
        Err(_) => false,
    }
}

/// Whether an interface was read of which this is printed.
fn is_printed(alloc: Global, read: Result<Interface, InterfaceFault>, wanted: &[u8]) -> bool {
    match read {
        Ok(interface) => {
            let same = prints(alloc, &interface, wanted);
            drop(interface);
            same
        }
        Err(_) => false,
    }
}

/// Whether this is printed of a text, and printed again of what is printed.
fn is_printed_twice(alloc: Global, text: &[u8], wanted: &[u8]) -> bool {
    is_printed(alloc, prototypes_in(alloc, text), wanted)
        && is_printed(alloc, interface_in(alloc, wanted), wanted)
}

/// A text, and what is printed of it.
struct Printed(&'static [u8], &'static [u8]);

fn row_prints(alloc: Global, row: &Printed) -> bool {
    is_printed_twice(alloc, row.0, row.1)
}

/// Texts that say nothing, and comments.
static EMPTY: [Printed; 9] = [
    Printed(b"lxfi_c 1", b"interface 2\n"),
    Printed(b"lxfi_c 1\n", b"interface 2\n"),
    Printed(b"lxfi_c 1\n\r\n\t // nothing", b"interface 2\n"),
    Printed(b"lxfi_c 1\n/**//***//* a\nb */", b"interface 2\n"),
    Printed(
        b"lxfi_c 1\n/* \x00 \xff # */ // \x00 \xff #\n",
        b"interface 2\n",
    ),
    Printed(b"lxfi_c 1\nstruct s { };", b"interface 2\n"),
    Printed(
        b"lxfi_c 1\nstruct s{struct t*a;struct s*const*b;};",
        b"interface 2\n",
    ),
    Printed(
        b"lxfi_c 1\nint/* a\n\n b */f// c\n(void)/**/;",
        b"interface 2\nexport f : i32 ()\n",
    ),
    Printed(
        b"lxfi_c 1\nint f(void*p)pre(if(p!=0)copy(write,p,8<<1));",
        b"interface 2\nexport f : i32 (ptr p) pre(if ((p != 0)) copy(write, p, (8 << 1)))\n",
    ),
];

/// Structs, the numbers of their members, and the order of lists.
static STRUCTS: [Printed; 9] = [
    Printed(
        b"lxfi_c 1\nreftype device;\nstruct dev_ops {\nint (*probe)(void *dev) principal(dev) pre(copy(ref(device), dev));\nlong count;\n};\nvoid *kmalloc(unsigned long n) post(if (return != 0) transfer(write, return, n));\n",
        b"interface 2\nreftype device\nslot probe : i32 (ptr dev) principal(dev) pre(copy(ref(device), dev))\nfield %struct.dev_ops 0 : probe\nexport kmalloc : ptr (i64 n) post(if ((return != 0)) transfer(write, return, n))\n",
    ),
    Printed(
        b"lxfi_c 1\nstruct s { long c; int (*a)(int x) pre(lend(write, x, 8)); };",
        b"interface 2\nslot a : i32 (i32 x) pre(lend(write, x, 8))\nfield %struct.s 1 : a\n",
    ),
    Printed(
        b"lxfi_c 1\nstruct s { void (*a)(void); char b; struct t *c; void *(*d)(void); _Bool e; bool (*f)(void); };",
        b"interface 2\nslot a : void ()\nslot d : ptr ()\nslot f : bool ()\nfield %struct.s 0 : a\nfield %struct.s 3 : d\nfield %struct.s 5 : f\n",
    ),
    // each struct counts for itself, and a member without functions may have the name of a slot
    Printed(
        b"lxfi_c 1\nstruct s { int a; int (*b)(void); };\nstruct t { int b; int a; int (*c)(void); };",
        b"interface 2\nslot b : i32 ()\nslot c : i32 ()\nfield %struct.s 1 : b\nfield %struct.t 2 : c\n",
    ),
    // a slot, an export and a struct of one name
    Printed(
        b"lxfi_c 1\nstruct f { int (*f)(int f); };\nint f(struct f *f);",
        b"interface 2\nslot f : i32 (i32 f)\nfield %struct.f 0 : f\nexport f : i32 (ptr f)\n",
    ),
    Printed(
        b"lxfi_c 1\nint g(void);\nreftype b;\nint f(void);\nreftype a;\niterator i(p) { call p }",
        b"interface 2\nreftype b\nreftype a\niterator i(p) { call p }\nexport g : i32 ()\nexport f : i32 ()\n",
    ),
    // words of types and of statements as names
    Printed(
        b"lxfi_c 1\nreftype int;\nint struct(int int, long const unsigned);\nvoid reftype(void);\nstruct const { char char; };",
        b"interface 2\nreftype int\nexport struct : i32 (i32 int, i64 unsigned)\nexport reftype : void ()\n",
    ),
    Printed(
        b"lxfi_c 1\niterator lend(lend) { if (lend) call lend }\nvoid lend(void *lend) pre(lend(lend(lend)));",
        b"interface 2\niterator lend(p) { if (p) call p }\nexport lend : void (ptr lend) pre(lend(lend(lend)))\n",
    ),
    Printed(
        b"lxfi_c 1\nconst struct s *f(struct s * const *a, unsigned const int b, signed char c, unsigned long long d, _Bool e);",
        b"interface 2\nexport f : ptr (ptr a, u32 b, i8 c, i64 d, bool e)\n",
    ),
];

/// Clauses and items, in the brackets of the canonical text.
static CLAUSES: [Printed; 8] = [
    Printed(
        b"lxfi_c 1\niterator all(q) { if (q) write q, load64(q); call q /**/ + /* * / */ 1 }\nint f(void); // end",
        b"interface 2\niterator all(p) { if (p) write p, load64(p); call (p + 1) }\nexport f : i32 ()\n",
    ),
    Printed(
        b"lxfi_c 1\nreftype d;\niterator i(x) { ref d, x; if (x - 1) ref d, load64(x) }",
        b"interface 2\nreftype d\niterator i(p) { ref d, p; if ((p - 1)) ref d, load64(p) }\n",
    ),
    Printed(
        b"lxfi_c 1\nvoid f(void *p) principal(shared);\nvoid g(void *p) principal(global);\nvoid h(void *p) principal(p);\nvoid i(void *p) principal(p + 8);",
        b"interface 2\nexport f : void (ptr p) principal(shared)\nexport g : void (ptr p) principal(global)\nexport h : void (ptr p) principal(p)\nexport i : void (ptr p) principal((p + 8))\n",
    ),
    // the principal first, then what stands before the body, then what stands behind it
    Printed(
        b"lxfi_c 1\nint f(void *p)\n    post(copy(call, return))\n    pre(check(call, p))\n    principal(p)\n    pre(transfer(write, p, 8));",
        b"interface 2\nexport f : i32 (ptr p) principal(p) pre(check(call, p)) pre(transfer(write, p, 8)) post(copy(call, return))\n",
    ),
    // the end of the loans is not written
    Printed(
        b"lxfi_c 1\nint f(void *p) post(check(call, p)) pre(lend(write, p, 8)) pre(if (p) lend(call, p));",
        b"interface 2\nexport f : i32 (ptr p) pre(lend(write, p, 8)) pre(if (p) lend(call, p)) post(check(call, p))\n",
    ),
    Printed(
        b"lxfi_c 1\nint f(long a, long b) pre(copy(write, a + b * 2 << 1, a - b - 007));",
        b"interface 2\nexport f : i32 (i64 a, i64 b) pre(copy(write, ((a + (b * 2)) << 1), ((a - b) - 7)))\n",
    ),
    Printed(
        b"lxfi_c 1\nint f(long a) post(if (return == -1 || !a && a < 9223372036854775807) if (((a))) check(call, load64(load64(a) + 8)));",
        b"interface 2\nexport f : i32 (i64 a) post(if (((return == (-1)) || ((!a) && (a < 9223372036854775807)))) if (a) check(call, load64((load64(a) + 8))))\n",
    ),
    Printed(
        b"lxfi_c 1\nint f(long load64, long write) pre(copy(write, load64(load64), write & load64 ^ 1 | 2));",
        b"interface 2\nexport f : i32 (i64 load64, i64 write) pre(copy(write, load64(load64), (((write & load64) ^ 1) | 2)))\n",
    ),
];

#[test]
fn texts_that_say_nothing_are_printed(rt: HostRuntime) {
    let alloc = rt.alloc();
    assert_eq!(rt; EMPTY.iter().position(|row| !row_prints(alloc, row)), None);
}

#[test]
fn structs_are_printed_as_slots_and_fields(rt: HostRuntime) {
    let alloc = rt.alloc();
    assert_eq!(rt;
        STRUCTS.iter().position(|row| !row_prints(alloc, row)),
        None
    );
}

#[test]
fn clauses_are_printed_with_names_and_brackets(rt: HostRuntime) {
    let alloc = rt.alloc();
    assert_eq!(rt;
        CLAUSES.iter().position(|row| !row_prints(alloc, row)),
        None
    );
}

/// A type of C, and the type that it is.
struct Typed(&'static str, &'static str);

static TYPES: [Typed; 44] = [
    Typed("bool", "bool"),
    Typed("_Bool", "bool"),
    Typed("char", "i8"),
    Typed("signed char", "i8"),
    Typed("unsigned char", "u8"),
    Typed("short", "i16"),
    Typed("unsigned short", "u16"),
    Typed("int", "i32"),
    Typed("unsigned", "u32"),
    Typed("unsigned int", "u32"),
    Typed("long", "i64"),
    Typed("unsigned long", "i64"),
    Typed("long long", "i64"),
    Typed("unsigned long long", "i64"),
    Typed("size_t", "i64"),
    Typed("const int", "i32"),
    Typed("int const", "i32"),
    Typed("const const char const", "i8"),
    Typed("signed const char", "i8"),
    Typed("const signed const char const", "i8"),
    Typed("unsigned const", "u32"),
    Typed("unsigned const char", "u8"),
    Typed("unsigned const short const", "u16"),
    Typed("long const long", "i64"),
    Typed("unsigned const long const long const", "i64"),
    Typed("void *", "ptr"),
    Typed("void*const", "ptr"),
    Typed("const void *", "ptr"),
    Typed("void const *", "ptr"),
    Typed("const void const * const * const", "ptr"),
    Typed("_Bool **", "ptr"),
    Typed("char ***", "ptr"),
    Typed("signed char * const *", "ptr"),
    Typed("unsigned *", "ptr"),
    Typed("unsigned const *", "ptr"),
    Typed("unsigned short const*const*", "ptr"),
    Typed("long long *", "ptr"),
    Typed("size_t /* a\nb */ *", "ptr"),
    Typed("struct s *", "ptr"),
    Typed("const struct s **", "ptr"),
    Typed("struct const s * const", "ptr"),
    Typed("struct s const *", "ptr"),
    Typed("struct struct *", "ptr"),
    Typed("struct int * *", "ptr"),
];

/// Whether a function that takes and gives a value of this type is printed so.
fn is_type(alloc: Global, row: &Typed) -> Result<bool, Memory> {
    let text = with_type(alloc, row.0)?;
    match printed_with_type(alloc, row.1) {
        Ok(wanted) => Ok(is_printed_twice(alloc, text.as_slice(), wanted.as_slice())),
        Err(error) => {
            drop(text);
            Err(error)
        }
    }
}

#[test]
fn types_of_c_are_types_of_the_interface(rt: HostRuntime) {
    let alloc = rt.alloc();
    assert_eq!(rt;
        TYPES
            .iter()
            .position(|row| !is_type(alloc, row).unwrap_or(false)),
        None
    );
}

/// Whether the last field is that of this number in a struct `s`, in this line.
fn has_last_field(interface: &Interface, index: u32, line: u32) -> bool {
    match interface.fields.as_slice().last() {
        Some(field) => {
            field.name.is_same(b"struct.s") && field.index == index && field.line == line
        }
        None => false,
    }
}

fn has_last_slot(interface: &Interface, line: u32) -> bool {
    match interface.slots.as_slice().last() {
        Some(slot) => slot.line == line,
        None => false,
    }
}

fn has_last_iterator(interface: &Interface, line: u32) -> bool {
    match interface.iterators.as_slice().last() {
        Some(iterator) => iterator.line == line,
        None => false,
    }
}

fn has_last_export(interface: &Interface, line: u32) -> bool {
    match interface.exports.as_slice().last() {
        Some(export) => export.line == line,
        None => false,
    }
}

/// Whether the last of each kind begins in its line.
fn has_lines(interface: &Interface) -> bool {
    has_last_iterator(interface, 3)
        && has_last_slot(interface, 9)
        && has_last_field(interface, 1, 9)
        && has_last_export(interface, 13)
}

/// A text with an iterator, a field and an export in several lines each.
static IN_LINES: &[u8] = b"lxfi_c 1
reftype d;
iterator
i(p)
{ call p }
struct s {
long
a; /* b
*/ int
(*f)(void);
};
// c
void *
g(void);";

fn lines_are_kept(alloc: Global) -> bool {
    match prototypes_in(alloc, IN_LINES) {
        Ok(interface) => {
            let kept = has_lines(&interface);
            drop(interface);
            kept
        }
        Err(_) => false,
    }
}

#[test]
fn a_line_is_that_of_the_first_token(rt: HostRuntime) {
    assert!(rt; lines_are_kept(rt.alloc()));
}

/// Whether the one field has this number, and stands in the line behind so many more than the first two.
fn has_one_field(interface: &Interface, index: u32) -> bool {
    interface.fields.len() == 1 && has_last_field(interface, index, index.saturating_add(3))
}

/// Whether the one field behind so many members that hold no function has their number.
fn is_behind(alloc: Global, text: &[u8], count: u32) -> bool {
    match prototypes_in(alloc, text) {
        Ok(interface) => {
            let is = has_one_field(&interface, count);
            drop(interface);
            is
        }
        Err(_) => false,
    }
}

fn members_count(alloc: Global, count: u32) -> Result<bool, Memory> {
    let text = with_members(alloc, count)?;
    Ok(is_behind(alloc, text.as_slice(), count))
}

#[test]
fn members_without_functions_count(rt: HostRuntime) -> Result<(), Fail> {
    assert!(rt; members_count(rt.alloc(), 0)?);
    assert!(rt; members_count(rt.alloc(), 1)?);
    assert!(rt; members_count(rt.alloc(), 2000)?);
    Ok(())
}
