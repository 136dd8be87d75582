//! What takes memory, with ample memory.
use lx_image_steps::registers_of;
use lx_words::{Memory, Width, Word};
use std::alloc::Global;

/// The registers of a function with an argument, and with room for two more.
fn registers(alloc: Global) -> Result<Vec<Word>, Memory> {
    let argument = Word {
        width: Width::W8,
        bits: 7,
    };
    let arguments = vec![in alloc; argument]?;
    registers_of(arguments, 2)
}

/// Whether registers have these bits, one behind the other.
fn have_bits(registers: &[Word], wanted: &[u64]) -> bool {
    registers.len() == wanted.len()
        && registers
            .iter()
            .zip(wanted)
            .all(|(register, bits)| register.bits == *bits)
}

#[test]
fn registers_stand_behind_the_arguments(rt: HostRuntime) -> Result<(), Memory> {
    let registers = registers(rt.alloc())?;
    let so = have_bits(registers.as_slice(), &[7, 0, 0]);
    drop(registers);
    assert!(rt; so);
    Ok(())
}
