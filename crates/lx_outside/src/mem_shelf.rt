//! A shelf in memory.
ghost use Rattle.std.specs.Prelude.{◌≡◌, ◌==◌, ◌+◌, ◌-◌, ◌^◌, ◌<◌, ◌≢◌, ℕ, List, Some, IsTrue, OnOk, OnErr, option_copied, position};
ghost use Rattle.std.specs.Str.{bytes_eq};
ghost use Rattle.lx_outside.specs.Files.{file_at, names_differ};

use crate::calls::is_to_fail;
use crate::file_text::{FileText, Files};
use crate::lists::{Bytes, CallNumbers, Items, Name, Names};
use crate::shelf::{Shelf, ShelfFault};
use lx_words::Memory;
use std::alloc::Global;

/// A shelf in memory.
pub struct MemShelf {
    /// The files, each name once.
    pub files: Files,
    /// The numbers of the calls of `read` that are to fail, where the first call is 0.
    pub fails: CallNumbers,
    /// The calls of `read` so far; it stays at its greatest value.
    pub calls: u64,
    /// The names whose reads failed, the oldest first.
    pub faults: Names,
    ghost names_differ: { IsTrue (names_differ files) },
}

impl Drop for MemShelf {
    fn drop(self) {
        let MemShelf {
            files: _,
            fails: _,
            calls: _,
            faults: _,
        } = self;
    }
}

fn place_of(files: &[FileText], name: &str) -> Option<usize>
    ensures { result ≡ position (λ file. bytes_eq file.name name.now) files.now }
{
    files.iter().position(|file| file.name.as_str() == name)
}

fn find_file<'a>(files: &'a [FileText], name: &str) -> Option<&'a Bytes>
    ensures { option_copied result ≡ file_at files.now name.now }
{
    for file in files {
        if file.name.as_str() == name {
            return Some(&file.bytes);
        }
    }
    None
}

/// Puts a file in the place of the one of its name, or at the end.
fn put(files: &mut Files, file: FileText) -> Result<(), Memory>
    requires { IsTrue (names_differ files.old) }
    ensures put { OnOk result (file_at files.new file.name ≡ Some file.bytes) }
    ensures others { OnOk result ((other : List ℕ) → other ≢ file.name → file_at files.new other ≡ file_at files.old other) }
    ensures err { OnErr result (files.new ≡ files.old) }
    ensures names_differ { IsTrue (names_differ files.new) }
{
    match place_of(files.as_slice(), file.name.as_str()) {
        Some(place) => {
            files.replace(place, file);
        }
        None => files.push(file)?,
    }
    Ok(())
}

impl MemShelf {
    ghost use Rattle.std.specs.Prelude.{◌≡◌, ◌≢◌, [], List, ℕ, Some, OnOk, OnErr};
    ghost use Rattle.lx_outside.specs.Files.{file_at};

    /// A shelf without files, whose reads with these numbers are to fail. It takes no memory.
    pub fn new(alloc: Global, fails: Vec<u32>) -> Self
        ensures files { result.files ≡ [] }
        ensures fails { result.fails ≡ fails.items }
        ensures calls { result.calls ≡ 0 }
        ensures faults { result.faults ≡ [] }
    {
        MemShelf {
            files: Items::new(alloc),
            fails: Items::from_vec(fails),
            calls: 0,
            faults: Items::new(alloc),
        }
    }

    /// Puts a file on the shelf. Where one of that name is there, its bytes are replaced. After
    /// `Memory` the shelf is as before.
    pub fn put_file(&mut self, alloc: Global, name: &str, bytes: &[u8]) -> Result<(), Memory>
        ensures put { OnOk result (file_at self.new.files name.now ≡ Some bytes.now) }
        ensures others { OnOk result ((other : List ℕ) → other ≢ name.now → file_at self.new.files other ≡ file_at self.old.files other) }
        ensures err { OnErr result (self.new.files ≡ self.old.files) }
        ensures fails { self.new.fails ≡ self.old.fails }
        ensures calls { self.new.calls ≡ self.old.calls }
        ensures faults { self.new.faults ≡ self.old.faults }
    {
        let file = FileText {
            name: Name::new(alloc, name)?,
            bytes: Items::from_vec(bytes.to_vec(alloc)?),
        };
        put(&mut self.files, file)
    }
}

impl Shelf for MemShelf {
    ghost use Rattle.std.specs.Prelude.{◌≡◌, [], ◌∷◌, ◌++◌, List, Some, None, IfOk, OnOk, IsErrOf};
    ghost use Rattle.lx_outside.specs.declared.file_text.FileText.{FileText};
    ghost use Rattle.lx_outside.specs.Files.{file_at};
    ghost use Rattle.lx_outside.specs.Counts.{one_more};
    ghost use Rattle.lx_outside.specs.Reads.{bytes_to_give};

    ghost files = { λ shelf. Some shelf.files };

    ghost faults = { λ shelf. shelf.faults };

    fn read(&mut self, alloc: Global, name: &str) -> Result<Vec<u8>, ShelfFault>
        ensures files { self.new.files ≡ self.old.files }
        ensures told { IfOk result (λ bytes. file_at self.old.files name.now ≡ Some bytes.items) }
        ensures failed { IsErrOf result ShelfFault.Failed → self.new.faults ≡ self.old.faults ++ name.now ∷ [] }
        ensures ok { OnOk result (self.new.faults ≡ self.old.faults) }
        ensures memory { IsErrOf result ShelfFault.Memory → self.new.faults ≡ self.old.faults }

        // It fails exactly at the numbers that stand in `fails`, and at names that it lacks.
        ensures given { IfOk result (λ bytes. bytes_to_give self.old name.now ≡ Some bytes.items) }
        ensures fails_where { IsErrOf result ShelfFault.Failed → bytes_to_give self.old name.now ≡ None }
        ensures calls { self.new.calls ≡ one_more self.old.calls }
        ensures fails { self.new.fails ≡ self.old.fails }
    {
        let call = self.calls;
        self.calls = call.saturating_add(1);
        if !is_to_fail(self.fails.as_slice(), call) {
            if let Some(bytes) = find_file(self.files.as_slice(), name) {
                return Ok(bytes.as_slice().to_vec(alloc)?);
            }
        }
        self.faults.push(Name::new(alloc, name)?)?;
        Err(ShelfFault::Failed)
    }
}
