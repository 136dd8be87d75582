//! The words of the command line.

use lx_words::Memory;
use std::alloc::Global;
use std::env;
use std::io::ErrorKind;
use std::rt::Env;

/// The words behind the program's name. Where one of them is not UTF-8 there are none: such words
/// are no command, as none are.
pub fn command_words<R: Env + AllocGlobal>(rt: &R, alloc: Global) -> Result<Vec<String>, Memory> {
    let mut words = Vec::new(alloc);
    match env::args(rt) {
        Ok(all) => {
            for word in all.skip(1) {
                words.push(word)?;
            }
        }
        Err(error) if error.kind() == ErrorKind::OutOfMemory => return Err(Memory),
        Err(_) => {}
    }
    Ok(words)
}
