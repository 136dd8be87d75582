//! Interfaces written as prototypes of C, with the first fault of each.

use crate::interfaces::{MOST_BYTES, Row, is_fault};
use crate::prototype_texts::with_signs;
use lx_annot::interface::Interface;
use lx_cproto::{CFault, is_cproto, read_cproto};
use lx_words::Memory;
use std::alloc::Global;

pub fn prototypes_in(alloc: Global, text: &[u8]) -> Result<Interface, CFault> {
    if text.len() > MOST_BYTES {
        return Err(CFault::Memory);
    }
    read_cproto(alloc, text)
}

/// Whether a text has this first fault: the number of its kind, its line, and its words.
fn has_fault(alloc: Global, text: &[u8], kind: u8, line: u32, what: &[u8]) -> bool {
    match prototypes_in(alloc, text) {
        Ok(_) => false,
        Err(fault) => is_fault(&fault, kind, line, what),
    }
}

fn row_fails(alloc: Global, row: &Row) -> bool {
    has_fault(alloc, row.0, row.1, row.2, row.3)
}

/// Heads, and what stands where a statement may begin.
static HEADS: [Row; 15] = [
    Row(b"", 2, 1, b"end"),
    Row(b"lxfi_c", 2, 1, b"end"),
    Row(b"lxfi_c 01", 2, 1, b"01"),
    Row(b"lxfi_c 2\n", 2, 1, b"2"),
    Row(b"interface 1\n", 2, 1, b"interface"),
    Row(b"/* a\n\n */ lxfi_c\n2", 2, 4, b"2"),
    Row(b"lxfi_c 1 1", 2, 1, b"1"),
    Row(b"lxfi_c 1\n;", 2, 2, b";"),
    Row(b"lxfi_c 1\nfoo", 2, 2, b"foo"),
    Row(b"lxfi_c 1\n%a", 2, 2, b"%a"),
    Row(b"lxfi_c 1\ntypedef int t;", 2, 2, b"typedef"),
    Row(b"lxfi_c 1\nextern int f(void);", 2, 2, b"extern"),
    Row(b"lxfi_c 1\nstruct s;", 2, 2, b";"),
    Row(b"lxfi_c 1\nstruct { int a; };", 2, 2, b"{"),
    Row(b"lxfi_c 1\nslot s : i32 ()", 2, 2, b"slot"),
];

/// Types that are none, and types that no value has.
static TYPES: [Row; 20] = [
    Row(b"lxfi_c 1\nfloat f(void);", 2, 2, b"float"),
    Row(b"lxfi_c 1\nconst f(void);", 2, 2, b"f"),
    Row(b"lxfi_c 1\n* f(void);", 2, 2, b"*"),
    Row(b"lxfi_c 1\nsigned f(void);", 2, 2, b"f"),
    Row(b"lxfi_c 1\nsigned int f(void);", 2, 2, b"int"),
    Row(b"lxfi_c 1\nshort int f(void);", 2, 2, b"f"),
    Row(b"lxfi_c 1\nlong int f(void);", 2, 2, b"f"),
    Row(b"lxfi_c 1\nlong long long f(void);", 2, 2, b"f"),
    Row(b"lxfi_c 1\nint long f(void);", 2, 2, b"f"),
    Row(b"lxfi_c 1\nunsigned size_t f(void);", 2, 2, b"f"),
    Row(b"lxfi_c 1\nunsigned int;", 2, 2, b";"),
    Row(b"lxfi_c 1\nint f(unsigned int);", 2, 2, b")"),
    Row(b"lxfi_c 1\nint * const *;", 2, 2, b";"),
    Row(b"lxfi_c 1\nstruct s f(void);", 2, 2, b"f"),
    Row(b"lxfi_c 1\nint f(struct s a);", 2, 2, b"a"),
    Row(b"lxfi_c 1\nint f(const struct s const a);", 2, 2, b"a"),
    Row(b"lxfi_c 1\nint f(struct *a);", 2, 2, b"*"),
    Row(b"lxfi_c 1\nint f(void x);", 2, 2, b"x"),
    Row(b"lxfi_c 1\nint f(int a, void const b);", 2, 2, b"b"),
    Row(b"lxfi_c 1\nint f(char unsigned a);", 2, 2, b"a"),
];

/// Names, parameters, and ends of prototypes.
static CALLABLES: [Row; 25] = [
    Row(b"lxfi_c 1\nint f(int);", 2, 2, b")"),
    Row(b"lxfi_c 1\nint f();", 2, 2, b")"),
    Row(b"lxfi_c 1\nint f(void *);", 2, 2, b")"),
    Row(b"lxfi_c 1\nint f(void, int x);", 2, 2, b","),
    Row(b"lxfi_c 1\nint f(const void);", 2, 2, b")"),
    Row(b"lxfi_c 1\nint f(int a,);", 2, 2, b")"),
    Row(b"lxfi_c 1\nint f(int a, ...);", 2, 2, b"..."),
    Row(b"lxfi_c 1\nint f(int a int b);", 2, 2, b"int"),
    Row(b"lxfi_c 1\nint f(int (*g)(void));", 2, 2, b"("),
    Row(b"lxfi_c 1\nint f(int return);", 2, 2, b"return"),
    Row(b"lxfi_c 1\nint f(void *shared);", 2, 2, b"shared"),
    Row(b"lxfi_c 1\nint f(long global);", 2, 2, b"global"),
    Row(b"lxfi_c 1\nint f(int a,\nint a);", 4, 3, b"a"),
    Row(b"lxfi_c 1\nint f(void);\nvoid *\nf(int a);", 4, 4, b"f"),
    Row(b"lxfi_c 1\nint f, g;", 2, 2, b","),
    Row(b"lxfi_c 1\nint 7(void);", 2, 2, b"7"),
    Row(b"lxfi_c 1\nint f(void) { }", 2, 2, b"{"),
    Row(b"lxfi_c 1\nint f(void) : i32", 2, 2, b":"),
    // a semicolon that is missing at the end, and behind it
    Row(b"lxfi_c 1\nint f(void)", 2, 2, b"end"),
    Row(b"lxfi_c 1\nint f(void)\n\n// no more\n", 2, 2, b"end"),
    Row(b"lxfi_c 1\nint f(void)\nint g(void);", 2, 3, b"int"),
    Row(b"lxfi_c 1\nreftype a", 2, 2, b"end"),
    Row(b"lxfi_c 1\nreftype a, b;", 2, 2, b","),
    Row(b"lxfi_c 1\nreftype a;\nreftype a;", 4, 3, b"a"),
    // an iterator ends with its brace
    Row(b"lxfi_c 1\niterator i(p) { call p };", 2, 2, b";"),
];

/// Structs and members.
static STRUCTS: [Row; 24] = [
    Row(b"lxfi_c 1\nstruct s { int a; };\nstruct s { };", 4, 3, b"s"),
    Row(
        b"lxfi_c 1\nstruct s { };\nstruct t { };\nstruct\ns { };",
        4,
        5,
        b"s",
    ),
    Row(b"lxfi_c 1\nstruct s { int a; int a; };", 4, 2, b"a"),
    Row(
        b"lxfi_c 1\nstruct s { int a;\nint (*a)(void); };",
        4,
        3,
        b"a",
    ),
    Row(
        b"lxfi_c 1\nstruct s { int (*a)(void);\nint a; };",
        4,
        3,
        b"a",
    ),
    Row(
        b"lxfi_c 1\nstruct s { int (*a)(void); };\nstruct t { int (*a)(void); };",
        4,
        3,
        b"a",
    ),
    Row(b"lxfi_c 1\nstruct s { void a; };", 2, 2, b"a"),
    Row(b"lxfi_c 1\nstruct s { struct t u; };", 2, 2, b"u"),
    Row(b"lxfi_c 1\nstruct s { struct t { int a; }; };", 2, 2, b"{"),
    Row(b"lxfi_c 1\nstruct s { int; };", 2, 2, b";"),
    Row(b"lxfi_c 1\nstruct s { ; };", 2, 2, b";"),
    Row(b"lxfi_c 1\nstruct s { int a, b; };", 2, 2, b","),
    Row(b"lxfi_c 1\nstruct s { int a : 3; };", 2, 2, b":"),
    Row(b"lxfi_c 1\nstruct s { int a[4]; };", 1, 2, b"0x5b"),
    Row(b"lxfi_c 1\nstruct s { int f(void); };", 2, 2, b"("),
    Row(b"lxfi_c 1\nstruct s { int (f)(void); };", 2, 2, b"f"),
    Row(b"lxfi_c 1\nstruct s { int (**f)(void); };", 2, 2, b"*"),
    Row(b"lxfi_c 1\nstruct s { int (*const f)(void); };", 2, 2, b"f"),
    Row(b"lxfi_c 1\nstruct s { int (*f)(void) };", 2, 2, b"}"),
    Row(b"lxfi_c 1\nstruct s { reftype d; };", 2, 2, b"reftype"),
    Row(b"lxfi_c 1\nstruct s { int a;", 2, 2, b"end"),
    Row(b"lxfi_c 1\nstruct s { int a; }", 2, 2, b"end"),
    Row(b"lxfi_c 1\nstruct s { int a; }\nint f(void);", 2, 3, b"int"),
    Row(b"lxfi_c 1\nstruct s { } t;", 2, 2, b"t"),
];

/// Clauses and items.
static CLAUSES: [Row; 21] = [
    Row(
        b"lxfi_c 1\nvoid f(void *p) pre(copy(write, p));",
        5,
        2,
        b"write",
    ),
    Row(
        b"lxfi_c 1\nstruct s { int (*a)(void *p)\npre(copy(write, p)); };",
        5,
        3,
        b"write",
    ),
    Row(b"lxfi_c 1\niterator i(p) { write p }", 5, 2, b"write"),
    Row(b"lxfi_c 1\nint f(void) pre(copy(call, q));", 3, 2, b"q"),
    Row(
        b"lxfi_c 1\nvoid f(void) post(copy(call, return));",
        3,
        2,
        b"return",
    ),
    Row(
        b"lxfi_c 1\nint f(void) pre(copy(call, return));",
        3,
        2,
        b"return",
    ),
    Row(b"lxfi_c 1\nint f(int a) principal(b);", 3, 2, b"b"),
    // what a statement names stands before it
    Row(
        b"lxfi_c 1\nvoid f(void *p) pre(check(ref(d), p));\nreftype d;",
        3,
        2,
        b"d",
    ),
    Row(
        b"lxfi_c 1\nstruct s { int (*a)(void *p) pre(check(i(p))); };\niterator i(p) { call p }",
        3,
        2,
        b"i",
    ),
    Row(b"lxfi_c 1\niterator i(p) { ref d, p }", 3, 2, b"d"),
    Row(
        b"lxfi_c 1\nint f(int a) principal(a) principal(a);",
        2,
        2,
        b"principal",
    ),
    Row(
        b"lxfi_c 1\nint f(int a) post(lend(call, a));",
        2,
        2,
        b"lend",
    ),
    Row(b"lxfi_c 1\nint f(int a) pre();", 2, 2, b")"),
    Row(b"lxfi_c 1\nint f(int a) pre(copy(call, a)", 2, 2, b"end"),
    Row(
        b"lxfi_c 1\nint f(int a) pre(copy(call, a)) copy(call, a);",
        2,
        2,
        b"copy",
    ),
    Row(
        b"lxfi_c 1\nint f(int a) pre(copy(call, 9223372036854775808));",
        2,
        2,
        b"9223372036854775808",
    ),
    Row(b"lxfi_c 1\niterator i(p) { }", 2, 2, b"}"),
    Row(b"lxfi_c 1\niterator i(p) { call p; }", 2, 2, b"}"),
    Row(b"lxfi_c 1\niterator i(void *p) { call p }", 2, 2, b"*"),
    Row(
        b"lxfi_c 1\niterator i(shared) { call shared }",
        2,
        2,
        b"shared",
    ),
    Row(
        b"lxfi_c 1\niterator i(p) { call p }\niterator\ni(q) { call q }",
        4,
        4,
        b"i",
    ),
];

/// Bytes that begin no token, and comments.
static BYTES: [Row; 18] = [
    Row(b"lxfi_c 1\nint f(void); # x", 1, 2, b"0x23"),
    Row(b"lxfi_c 1\nint f(void);\x00", 1, 2, b"0x0"),
    Row(b"lxfi_c 1\n\x00", 1, 2, b"0x0"),
    // what stands before the byte is read first
    Row(b"lxfi_c 1\nint f(\x00", 1, 2, b"0x0"),
    Row(b"lxfi_c 1\nint f(int);\x00", 2, 2, b")"),
    Row(b"lxfi_c 1\nstruct s { int a; \x80", 1, 2, b"0x80"),
    Row(b"\xef\xbb\xbflxfi_c 1\n", 1, 1, b"0xef"),
    Row(b"lxfi_c 1\nint f(int a[]);", 1, 2, b"0x5b"),
    Row(b"lxfi_c 1\n\"a\"", 1, 2, b"0x22"),
    Row(b"lxfi_c 1\nint f(void) / 2", 1, 2, b"0x2f"),
    Row(b"lxfi_c 1\n/*", 1, 2, b"0x2f"),
    Row(b"lxfi_c 1\n\n/*/\nint f(void);", 1, 3, b"0x2f"),
    Row(b"lxfi_c 1\n/* a // */ b */", 2, 2, b"b"),
    Row(b"lxfi_c 1\n/* /* */ */", 2, 2, b"*"),
    Row(b"lxfi_c 1\nint f(void); // x\n/* y\n */ foo", 2, 4, b"foo"),
    // a backslash does not draw a comment on
    Row(b"lxfi_c 1\n// a \\\nfoo", 2, 3, b"foo"),
    Row(b"lxfi_c 1\n// /*\nfoo // */", 2, 3, b"foo"),
    Row(b"lxfi_c 1\nun/**/signed f(void);", 2, 2, b"un"),
];

#[test]
fn the_first_fault_of_heads_of_prototypes(rt: HostRuntime) {
    let alloc = rt.alloc();
    assert_eq!(rt; HEADS.iter().position(|row| !row_fails(alloc, row)), None);
}

#[test]
fn the_first_fault_of_types(rt: HostRuntime) {
    let alloc = rt.alloc();
    assert_eq!(rt; TYPES.iter().position(|row| !row_fails(alloc, row)), None);
}

#[test]
fn the_first_fault_of_names_and_parameters(rt: HostRuntime) {
    let alloc = rt.alloc();
    assert_eq!(rt;
        CALLABLES.iter().position(|row| !row_fails(alloc, row)),
        None
    );
}

#[test]
fn the_first_fault_of_structs(rt: HostRuntime) {
    let alloc = rt.alloc();
    assert_eq!(rt; STRUCTS.iter().position(|row| !row_fails(alloc, row)), None);
}

#[test]
fn the_first_fault_of_clauses_of_prototypes(rt: HostRuntime) {
    let alloc = rt.alloc();
    assert_eq!(rt; CLAUSES.iter().position(|row| !row_fails(alloc, row)), None);
}

#[test]
fn the_first_fault_of_bytes_and_comments(rt: HostRuntime) {
    let alloc = rt.alloc();
    assert_eq!(rt; BYTES.iter().position(|row| !row_fails(alloc, row)), None);
}

/// 13 tokens of a prototype.
const PROTOTYPE: &str = "lxfi_c 1\nvoid f(void *p) pre(check(call, ";

/// 16 tokens of a member.
const MEMBER: &str = "lxfi_c 1\nstruct s { void (*f)(void *p) pre(check(call, ";

/// 7 tokens of an iterator.
const ITERATOR: &str = "lxfi_c 1\niterator i(p) { call ";

/// So many signs behind a text, what stands behind them in the next line, and the first fault: the number of its kind,
/// and its words.
struct Signs(&'static str, usize, &'static str, u8, &'static [u8]);

static SIGNS: [Signs; 7] = [
    Signs(PROTOTYPE, 1008, "p));", 2, b";"),
    Signs(PROTOTYPE, 1009, "p));", 2, b")"),
    // an unknown name as the last token, and behind it
    Signs(PROTOTYPE, 1010, "q));", 3, b"q"),
    Signs(PROTOTYPE, 1011, "q));", 2, b"q"),
    Signs(PROTOTYPE, 1008, "p))", 2, b"end"),
    Signs(MEMBER, 1005, "p)); };", 2, b";"),
    Signs(ITERATOR, 1016, "p }", 2, b"}"),
];

fn signs_fail(alloc: Global, row: &Signs) -> Result<bool, Memory> {
    let text = with_signs(alloc, row.0, row.1, row.2)?;
    Ok(has_fault(alloc, text.as_slice(), row.3, 3, row.4))
}

#[test]
fn a_prototype_of_1025_tokens_has_a_fault(rt: HostRuntime) {
    let alloc = rt.alloc();
    assert_eq!(rt;
        SIGNS
            .iter()
            .position(|row| !signs_fail(alloc, row).unwrap_or(false)),
        None
    );
}

/// So many signs behind a text that is read, and what stands behind them.
struct Whole(&'static str, usize, &'static str);

static WHOLE: [Whole; 3] = [
    Whole(PROTOTYPE, 1007, "p)); int g(void);"),
    Whole(MEMBER, 1004, "p)); int a; };"),
    Whole(ITERATOR, 1015, "p }"),
];

fn is_read(alloc: Global, text: &[u8]) -> bool {
    match prototypes_in(alloc, text) {
        Ok(_) => true,
        Err(_) => false,
    }
}

fn is_whole(alloc: Global, row: &Whole) -> Result<bool, Memory> {
    let text = with_signs(alloc, row.0, row.1, row.2)?;
    Ok(is_read(alloc, text.as_slice()))
}

#[test]
fn each_statement_has_1024_tokens_for_itself(rt: HostRuntime) {
    let alloc = rt.alloc();
    assert_eq!(rt;
        WHOLE
            .iter()
            .position(|row| !is_whole(alloc, row).unwrap_or(false)),
        None
    );
}

#[test]
fn the_first_line_tells_the_dialect(rt: HostRuntime) {
    assert!(rt; is_cproto(b"lxfi_c 1"));
    assert!(rt; is_cproto(b"lxfi_c 1\n"));
    assert!(rt; is_cproto(b"lxfi_c 1\n\x00"));
    assert!(rt; !is_cproto(b""));
    assert!(rt; !is_cproto(b"lxfi_c 1\r\n"));
    assert!(rt; !is_cproto(b"lxfi_c 1 "));
    assert!(rt; !is_cproto(b"lxfi_c 12"));
    assert!(rt; !is_cproto(b" lxfi_c 1\n"));
    assert!(rt; !is_cproto(b"interface 2\n"));
}
