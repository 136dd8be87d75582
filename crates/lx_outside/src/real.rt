//! The files of the system and standard output. They tell no content: what they gave and took is
//! trusted.
ghost use Rattle.std.specs.Prelude.{◌≡◌, ◌+◌, [], None, take, IfOk, IfSome};
ghost use Rattle.lx_outside.specs.Reads.{most_bytes};

use crate::lists::Name;
use crate::shelf::{Shelf, ShelfFault};
use crate::sink::{Sink, SinkFault};
use std::alloc::Global;
use std::io::{ErrorKind, Read, Write};
use std::rt::Files;
use std::{fs, io};

/// The bytes that a file may have.
pub const MOST_BYTES: u64 = 1_048_576;

/// The bytes of a file that is within its limit, and of a longer one the first bytes, one more than
/// the limit: whoever gets them sees that it is too long, and no more of it is read.
fn read_front<F: Read + Drop>(alloc: Global, file: F) -> io::Result<Vec<u8>>
    ensures { IfOk result (λ bytes. IfSome (F.remaining file) (λ all. bytes.items ≡ take (most_bytes + 1) all)) }
{
    let mut bytes = Vec::new(alloc);
    let mut front = file.take(MOST_BYTES + 1);
    front.read_to_end(&mut bytes)?;
    Ok(bytes)
}

fn read_file<R: Files>(rt: &R, alloc: Global, name: &str) -> io::Result<Vec<u8>> {
    let file = fs::open(rt, name)?;
    read_front(alloc, file)
}

/// The files of the system, by their paths. Of a file that is longer than `MOST_BYTES` it gives the
/// first `MOST_BYTES + 1` bytes.
#[derive(Drop)]
pub struct FileShelf<'a, R: Files + AllocGlobal> {
    rt: &'a R,
    /// The names whose reads failed, the oldest first.
    pub faults: Vec<Name>,
}

impl<'a, R: Files + AllocGlobal> FileShelf<'a, R> {
    /// A shelf that has read nothing yet. It takes no memory.
    pub fn new(rt: &'a R, alloc: Global) -> Self
        ensures { result.faults.items ≡ [] }
    {
        FileShelf {
            rt,
            faults: Vec::new(alloc),
        }
    }
}

impl<R: Files + AllocGlobal> Shelf for FileShelf<'_, R> {
    ghost files = { λ _. None };

    ghost faults = { λ shelf. shelf.faults.items };

    /// The name and the room for it are there before the file is read, so that a read which
    /// fails is noted. Want of memory is no fault of the file.
    fn read(&mut self, alloc: Global, name: &str) -> Result<Vec<u8>, ShelfFault> {
        let kept = Name::new(alloc, name)?;
        self.faults.reserve(1)?;
        match read_file(self.rt, alloc, name) {
            Ok(bytes) => Ok(bytes),
            Err(error) if error.kind() == ErrorKind::OutOfMemory => Err(ShelfFault::Memory),
            Err(_) => {
                self.faults.push(kept).unwrap();
                Err(ShelfFault::Failed)
            }
        }
    }
}

/// Standard output.
#[derive(Drop)]
pub struct StdSink<'a, R: Print> {
    rt: &'a R,
    /// How often the sink has failed; it stays at its greatest value.
    pub faults: u64,
}

impl<'a, R: Print> StdSink<'a, R> {
    /// A sink that has not failed yet.
    pub fn new(rt: &'a R) -> Self
        ensures { result.faults ≡ 0 }
    {
        StdSink { rt, faults: 0 }
    }
}

impl<R: Print> Sink for StdSink<'_, R> {
    ghost bytes = { λ _. None };

    ghost faults = { λ sink. sink.faults };

    fn put(&mut self, piece: &[u8]) -> Result<usize, SinkFault> {
        match io::writer(self.rt).write(piece) {
            Ok(size) if size > 0 || piece.is_empty() => Ok(size),
            _ => {
                self.faults = self.faults.saturating_add(1);
                Err(SinkFault::Failed)
            }
        }
    }
}
