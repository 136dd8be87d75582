//! The interface.
use crate::action::{Annotation, CapSpec};
use crate::expr::{Expr, Ty};
use lx_words::{Items, Name, Names};

/// An item of an iterator.
pub struct Item {
    pub cond: Option<Expr>,
    pub cap: CapSpec,
}

impl Drop for Item {
    fn drop(self) {
        let Item { cond: _, cap: _ } = self;
    }
}

/// The items of an iterator.
pub type ItemList = Items<Item>;

/// An iterator: the capabilities that it names of its parameter, which is parameter 0 of type `ptr`.
pub struct CapIterator {
    pub name: Name,
    pub items: ItemList,
    pub line: u32,
}

impl Drop for CapIterator {
    fn drop(self) {
        let CapIterator {
            name: _,
            items: _,
            line: _,
        } = self;
    }
}

/// A parameter of a slot or an export.
pub struct Parameter {
    pub name: Name,
    pub ty: Ty,
}

impl Drop for Parameter {
    fn drop(self) {
        let Parameter { name: _, ty: _ } = self;
    }
}

/// The parameters of a slot or an export.
pub type Parameters = Items<Parameter>;

/// A slot type: the signature and the annotation that a function pointer in such a slot asks for.
pub struct Slot {
    pub name: Name,
    pub params: Parameters,
    pub ret: Ty,
    pub annotation: Annotation,
    pub line: u32,
}

impl Drop for Slot {
    fn drop(self) {
        let Slot {
            name: _,
            params: _,
            ret: _,
            annotation: _,
            line: _,
        } = self;
    }
}

/// A kernel function that modules may import.
pub struct Export {
    pub name: Name,
    pub params: Parameters,
    pub ret: Ty,
    pub annotation: Annotation,
    pub line: u32,
}

impl Drop for Export {
    fn drop(self) {
        let Export {
            name: _,
            params: _,
            ret: _,
            annotation: _,
            line: _,
        } = self;
    }
}

/// A field of a struct that holds functions of a slot type.
pub struct Field {
    pub name: Name,
    pub index: u32,
    pub slot: u32,
    pub line: u32,
}

impl Drop for Field {
    fn drop(self) {
        let Field {
            name: _,
            index: _,
            slot: _,
            line: _,
        } = self;
    }
}

/// An interface.
pub struct Interface {
    pub reftypes: Names,
    pub iterators: Items<CapIterator>,
    pub slots: Items<Slot>,
    pub fields: Items<Field>,
    pub exports: Items<Export>,
}

impl Drop for Interface {
    fn drop(self) {
        let Interface {
            reftypes: _,
            iterators: _,
            slots: _,
            fields: _,
            exports: _,
        } = self;
    }
}
