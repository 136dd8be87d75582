//! An interface as far as its statements are read.

ghost use Rattle.std.specs.Prelude.{◌≡◌, ◌<◌, ◌≤◌, false, length, IfOk, OnOk};
ghost use Rattle.std.specs.List.{list_any};
ghost use Rattle.lx_annot_expressions.specs.Reading.{Gives, GivesBy, Leaves};
ghost use Rattle.lx_annot_read.specs.Draft.{IsTabled};
ghost use Rattle.lx_annot_read.specs.Head.{may_lend};
ghost use Rattle.lx_annot_read.specs.Typed.{is_place};
ghost use Rattle.lx_annot_read.specs.Interfaces.{callable_at, empty, export_at, field_at, index_at, is_typed, iterator_at, iterator_body_at, reftype_at, slot_at, statement_at, struct_at};

use crate::head::Version;
use crate::said::struct_of;
use crate::typed::TypedFields;
use lx_annot::action::Annotation;
use lx_annot::expr::Ty;
use lx_annot::interface::{CapIterator, Export, Field, Interface, ItemList, Parameter, Slot};
use lx_annot_expressions::{FaultKind, NameTable, ReadError, Reader, Scope};
use lx_annot_terms::{Known, Signature, read_clauses, read_items, read_param_name, read_signature};
use lx_words::{Items, Memory, Name, Names, TokenKind};
use std::alloc::Global;
use std::marker::Model;

/// The greatest number of a field.
const GREATEST_INDEX: u64 = u32::MAX as u64;

/// What the statements so far say, with tables of the names that they declare and of the fields that they type, in a
/// text of this version.
#[derive(Drop)]
pub struct Draft<'a> {
    pub version: Version,
    pub interface: Interface,
    pub reftypes: NameTable<'a>,
    pub iterators: NameTable<'a>,
    pub slots: NameTable<'a>,
    pub exports: NameTable<'a>,
    pub typed: TypedFields<'a>,
}

/// What a slot or an export takes and gives, and its annotation.
#[derive(Drop)]
pub struct Callable {
    pub signature: Signature,
    pub annotation: Annotation,
}

/// The parameter of an iterator.
pub fn param_of_items(alloc: Global, name: &[u8]) -> Result<Parameter, Memory>
    ensures { IfOk result (λ p. p ≡ record { name = name.now; ty = Ty.Ptr }) }
{
    let name = Name::from_bytes(alloc, name)?;
    Ok(Parameter { name, ty: Ty::Ptr })
}

/// The items of an iterator behind its name.
#[tactic(auto, unfolding(crate::specs::Interfaces::iterator_body_at))]
pub fn read_iterator_body(
    alloc: Global,
    known: &Known<'_>,
    reader: &mut Reader<'_>,
) -> Result<ItemList, ReadError>
    ensures reads { Gives result reader.new (iterator_body_at known.now reader.old) }
    ensures shrinks { length reader.new ≤ length reader.old }
{
    reader.expect(b"(")?;
    let name = read_param_name(reader, &[])?;
    let params = [param_of_items(alloc, name)?];
    let scope = Scope::new(&params, None);
    reader.expect(b")")?;
    reader.expect(b"{")?;
    let items = read_items(alloc, reader, &scope, known)?;
    reader.expect(b"}")?;
    Ok(items)
}

/// A slot or an export behind its name.
#[tactic(auto, unfolding(crate::specs::Interfaces::callable_at))]
fn read_callable(
    alloc: Global,
    known: &Known<'_>,
    reader: &mut Reader<'_>,
) -> Result<Callable, ReadError>
    ensures reads { Gives result reader.new (callable_at known.now reader.old) }
    ensures shrinks { OnOk result (length reader.new ≤ length reader.old) }
{
    let signature = read_signature(alloc, reader)?;
    let annotation = read_clauses(alloc, reader, &signature, known)?;
    Ok(Callable {
        signature,
        annotation,
    })
}

/// The name of a struct.
fn struct_name<'a>(reader: &mut Reader<'a>) -> Result<&'a [u8], ReadError>
    ensures reads { GivesBy (λ w. w.now) result reader.new (struct_at reader.old) }
    ensures shrinks { length reader.new ≤ length reader.old }
{
    match reader.token() {
        Some((TokenKind::Local, bytes)) => {
            reader.skip();
            Ok(struct_of(bytes))
        }
        _ => Err(reader.fault(FaultKind::Statement)),
    }
}

/// What actions may use in a text of this version.
pub fn known<'k>(
    version: Version,
    reftypes: &'k NameTable<'_>,
    iterators: &'k NameTable<'_>,
) -> Known<'k>
    ensures { result ≡ record { reftypes = reftypes.now; iterators = iterators.now; lends = may_lend version } }
{
    Known {
        reftypes,
        iterators,
        lends: version.may_lend(),
    }
}

/// The interface that declares nothing.
pub fn empty_interface(alloc: Global) -> Interface
    ensures { result ≡ empty }
{
    Interface {
        reftypes: Names::new(alloc),
        iterators: Items::new(alloc),
        slots: Items::new(alloc),
        fields: Items::new(alloc),
        exports: Items::new(alloc),
    }
}

impl<'a> Draft<'a> {
    /// Nothing.
    pub fn new(alloc: Global, version: Version) -> Self
        ensures version { result.version ≡ version }
        ensures empty { result.interface ≡ empty }
        ensures tabled { IsTabled result }
    {
        Draft {
            version,
            interface: empty_interface(alloc),
            reftypes: NameTable::new(alloc),
            iterators: NameTable::new(alloc),
            slots: NameTable::new(alloc),
            exports: NameTable::new(alloc),
            typed: TypedFields::new(alloc),
        }
    }

    /// Adds a reference type.
    #[tactic(auto, unfolding(crate::specs::Interfaces::reftype_at))]
    fn add_reftype(&mut self, alloc: Global, reader: &mut Reader<'a>) -> Result<(), ReadError>
        requires { IsTabled self.old }
        ensures reads { Leaves self.new.interface result reader.new (reftype_at self.old.interface reader.old) }
        ensures shrinks { OnOk result (length reader.new ≤ length reader.old) }
        ensures version { OnOk result (self.new.version ≡ self.old.version) }
        ensures tabled { OnOk result (IsTabled self.new) }
    {
        let name = reader.fresh(&self.reftypes)?;
        let owned = Name::from_bytes(alloc, name)?;
        self.reftypes.add(name)?;
        self.interface.reftypes.push(owned)?;
        Ok(())
    }

    /// Adds an iterator, whose word stands in this line.
    #[tactic(auto, unfolding(crate::specs::Interfaces::iterator_at))]
    fn add_iterator(
        &mut self,
        alloc: Global,
        line: u32,
        reader: &mut Reader<'a>,
    ) -> Result<(), ReadError>
        requires { IsTabled self.old }
        ensures reads { Leaves self.new.interface result reader.new (iterator_at self.old.version line self.old.interface reader.old) }
        ensures shrinks { OnOk result (length reader.new ≤ length reader.old) }
        ensures version { OnOk result (self.new.version ≡ self.old.version) }
        ensures tabled { OnOk result (IsTabled self.new) }
    {
        let name = reader.fresh(&self.iterators)?;
        let known = known(self.version, &self.reftypes, &self.iterators);
        let items = read_iterator_body(alloc, &known, reader)?;
        let owned = Name::from_bytes(alloc, name)?;
        self.iterators.add(name)?;
        let iterator = CapIterator {
            name: owned,
            items,
            line,
        };
        self.interface.iterators.push(iterator)?;
        Ok(())
    }

    /// Adds a slot, whose word stands in this line.
    #[tactic(auto, unfolding(crate::specs::Interfaces::slot_at))]
    fn add_slot(
        &mut self,
        alloc: Global,
        line: u32,
        reader: &mut Reader<'a>,
    ) -> Result<(), ReadError>
        requires { IsTabled self.old }
        ensures reads { Leaves self.new.interface result reader.new (slot_at self.old.version line self.old.interface reader.old) }
        ensures shrinks { OnOk result (length reader.new ≤ length reader.old) }
        ensures version { OnOk result (self.new.version ≡ self.old.version) }
        ensures tabled { OnOk result (IsTabled self.new) }
    {
        let name = reader.fresh(&self.slots)?;
        let known = known(self.version, &self.reftypes, &self.iterators);
        let callable = read_callable(alloc, &known, reader)?;
        let owned = Name::from_bytes(alloc, name)?;
        self.slots.add(name)?;
        let slot = Slot {
            name: owned,
            params: callable.signature.params,
            ret: callable.signature.ret,
            annotation: callable.annotation,
            line,
        };
        self.interface.slots.push(slot)?;
        Ok(())
    }

    /// Adds an export, whose word stands in this line.
    #[tactic(auto, unfolding(crate::specs::Interfaces::export_at))]
    fn add_export(
        &mut self,
        alloc: Global,
        line: u32,
        reader: &mut Reader<'a>,
    ) -> Result<(), ReadError>
        requires { IsTabled self.old }
        ensures reads { Leaves self.new.interface result reader.new (export_at self.old.version line self.old.interface reader.old) }
        ensures shrinks { OnOk result (length reader.new ≤ length reader.old) }
        ensures version { OnOk result (self.new.version ≡ self.old.version) }
        ensures tabled { OnOk result (IsTabled self.new) }
    {
        let name = reader.fresh(&self.exports)?;
        let known = known(self.version, &self.reftypes, &self.iterators);
        let callable = read_callable(alloc, &known, reader)?;
        let owned = Name::from_bytes(alloc, name)?;
        self.exports.add(name)?;
        let export = Export {
            name: owned,
            params: callable.signature.params,
            ret: callable.signature.ret,
            annotation: callable.annotation,
            line,
        };
        self.interface.exports.push(export)?;
        Ok(())
    }

    /// Whether the field of this number of a struct has a slot type.
    #[tactic(auto, using(crate::proofs::Places::typed_in))]
    fn is_typed(&self, name: &'a [u8], index: u32) -> bool
        requires { IsTabled self.now }
        ensures typed { result ≡ is_typed self.now.interface name.now index }
        ensures among { result ≡ list_any (is_place name.now index) self.now.typed }
    {
        self.typed.has(name, index)
    }

    /// The number of a field of a struct, whose name stands where `place` is.
    fn index(
        &self,
        name: &'a [u8],
        place: &Reader<'_>,
        reader: &mut Reader<'_>,
    ) -> Result<u32, ReadError>
        requires { IsTabled self.now }
        ensures reads { Gives result reader.new (index_at self.now.interface place.now name.now reader.old) }
        ensures shrinks { length reader.new ≤ length reader.old }
        ensures fresh { IfOk result (λ n. list_any (is_place name.now n) self.now.typed ≡ false) }
    {
        let index = reader.number(GREATEST_INDEX)? as u32;
        if self.is_typed(name, index) {
            return Err(place.fault(FaultKind::Twice));
        }
        Ok(index)
    }

    /// Adds a field, whose word stands in this line.
    #[tactic(auto, unfolding(crate::specs::Interfaces::field_at))]
    fn add_field(
        &mut self,
        alloc: Global,
        line: u32,
        reader: &mut Reader<'a>,
    ) -> Result<(), ReadError>
        requires { IsTabled self.old }
        ensures reads { Leaves self.new.interface result reader.new (field_at line self.old.interface reader.old) }
        ensures shrinks { OnOk result (length reader.new ≤ length reader.old) }
        ensures version { OnOk result (self.new.version ≡ self.old.version) }
        ensures tabled { OnOk result (IsTabled self.new) }
    {
        let place = reader.here();
        let name = struct_name(reader)?;
        let index = self.index(name, &place, reader)?;
        reader.expect(b":")?;
        let slot = reader.known(&self.slots)?;
        let owned = Name::from_bytes(alloc, name)?;
        self.typed.add(name, index)?;
        let field = Field {
            name: owned,
            index,
            slot,
            line,
        };
        self.interface.fields.push(field)?;
        Ok(())
    }

    /// Adds what a statement says, whose word stands in this line.
    #[tactic(auto, unfolding(crate::specs::Interfaces::statement_at))]
    pub fn add(
        &mut self,
        alloc: Global,
        line: u32,
        reader: &mut Reader<'a>,
    ) -> Result<(), ReadError>
        requires { IsTabled self.old }
        ensures reads { Leaves self.new.interface result reader.new (statement_at self.old.version line self.old.interface reader.old) }
        ensures shrinks { OnOk result (length reader.new < length reader.old) }
        ensures version { OnOk result (self.new.version ≡ self.old.version) }
        ensures tabled { OnOk result (IsTabled self.new) }
    {
        if reader.takes(b"reftype") {
            self.add_reftype(alloc, reader)?;
        } else if reader.takes(b"iterator") {
            self.add_iterator(alloc, line, reader)?;
        } else if reader.takes(b"slot") {
            self.add_slot(alloc, line, reader)?;
        } else if reader.takes(b"field") {
            self.add_field(alloc, line, reader)?;
        } else if reader.takes(b"export") {
            self.add_export(alloc, line, reader)?;
        } else {
            return Err(reader.fault(FaultKind::Statement));
        }
        Ok(())
    }
}
