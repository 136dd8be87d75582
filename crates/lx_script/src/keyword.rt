//! The words that a case's statements are made of.

pub const LXFI: &[u8] = b"lxfi";

pub const CASE: &[u8] = b"case";

pub const VERSION: &[u8] = b"1";

pub const KERNEL: &[u8] = b"kernel";

pub const INTERFACE: &[u8] = b"interface";

pub const NONE: &[u8] = b"none";

pub const BUILTIN: &[u8] = b"builtin";

pub const FILE: &[u8] = b"file";

pub const MODULE: &[u8] = b"module";

pub const THREAD: &[u8] = b"thread";

pub const CALL: &[u8] = b"call";

pub const FUEL: &[u8] = b"fuel";
