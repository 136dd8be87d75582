//! Fields of named structs.

use std::marker::Model;

/// A field of a named struct: the struct's number among the types, and the field's in the struct.
#[derive(Clone, Copy)]
pub struct FieldName {
    pub struct_number: u32,
    pub index: u64,
}

impl Model for FieldName {
    ghost use Rattle.lx_slot_types.specs.Sites.{FieldName as Meaning};

    ghost Value = { Meaning };

    ghost view = { λ f. record { struct_number = f.struct_number; index = f.index } };

    ghost inverse = { λ f. record { struct_number = f.struct_number; index = f.index } };
}
