//! Each call once with ample memory. What a call answers is proved.
use lx_outside::{
    FileShelf, Gate, GatePlace, MemShelf, MemSink, OpenGate, Shelf, ShelfFault, SinkFault, StdSink,
    put_all,
};
use std::alloc::Global;
use std::fs;
use std::process::Abort;
use std::test::Fail;

/// Whether a shelf reads these bytes of a file. Any shelf will do.
fn reads<S: Shelf>(
    alloc: Global,
    shelf: &mut S,
    name: &str,
    wanted: &[u8],
) -> Result<bool, ShelfFault> {
    let bytes = shelf.read(alloc, name)?;
    Ok(bytes.as_slice() == wanted)
}

/// Whether a shelf cannot read a file.
fn cannot_read<S: Shelf>(alloc: Global, shelf: &mut S, name: &str) -> bool {
    match shelf.read(alloc, name) {
        Ok(_) => false,
        Err(fault) => matches!(fault, ShelfFault::Failed),
    }
}

fn put_old_and_new(alloc: Global, shelf: &mut MemShelf) -> Result<(), Fail> {
    shelf.put_file(alloc, "a", b"old")?;
    shelf.put_file(alloc, "a", b"new")?;
    Ok(())
}

/// Whether a shelf has noted one failed read, of this name.
fn has_noted(shelf: &MemShelf, name: &str) -> bool {
    match shelf.faults.as_slice() {
        [noted] => noted.as_str() == name,
        _ => false,
    }
}

fn assert_new(rt: &impl Abort, alloc: Global, shelf: &mut MemShelf) -> Result<(), Fail> {
    put_old_and_new(alloc, shelf)?;
    assert!(rt; reads(alloc, shelf, "a", b"new")?);
    assert!(rt; cannot_read(alloc, shelf, "a"));
    assert!(rt; has_noted(shelf, "a"));
    Ok(())
}

#[test]
fn a_shelf_gives_the_last_bytes_of_a_name(rt: HostRuntime) -> Result<(), Fail> {
    let alloc = rt.alloc();
    let mut shelf = MemShelf::new(alloc, [1].to_vec(alloc)?);
    let went = assert_new(&rt, alloc, &mut shelf);
    drop(shelf);
    went
}

#[test]
fn a_sink_takes_what_room_leaves(rt: HostRuntime) -> Result<(), Fail> {
    let alloc = rt.alloc();
    let mut sink = MemSink::new(alloc, Vec::new(alloc), 10)?;
    let failed = put_all(&mut sink, b"schedule 0*4\n").err();
    assert!(rt; matches!(failed, Some(SinkFault::Failed)));
    assert_eq!(rt; sink.bytes.as_slice(), b"schedule 0".as_slice());
    Ok(())
}

#[test]
fn a_file_of_the_system_is_read(rt: HostRuntime) -> Result<(), Fail> {
    let alloc = rt.alloc();
    fs::write(&rt, "lx_outside_shelf.txt", "kept\n")?;
    let mut shelf = FileShelf::new(&rt, alloc);
    let kept = reads(alloc, &mut shelf, "lx_outside_shelf.txt", b"kept\n");
    let removed = fs::remove_file(&rt, "lx_outside_shelf.txt");
    let failed = cannot_read(alloc, &mut shelf, "lx_outside_shelf.txt");
    drop(shelf);
    assert!(rt; kept?);
    removed?;
    assert!(rt; failed);
    Ok(())
}

/// How many bytes a shelf reads of a file. Any shelf will do.
fn count_of<S: Shelf>(alloc: Global, shelf: &mut S, name: &str) -> Result<usize, ShelfFault> {
    let bytes = shelf.read(alloc, name)?;
    let count = bytes.len();
    drop(bytes);
    Ok(count)
}

/// A byte past the limit is read, so that it is seen to be passed.
#[test]
fn a_file_without_an_end_is_read_past_the_limit(rt: HostRuntime) -> Result<(), Fail> {
    let mut shelf = FileShelf::new(&rt, rt.alloc());
    let count = count_of(rt.alloc(), &mut shelf, "/dev/zero");
    drop(shelf);
    assert!(rt; count? == 1_048_577);
    Ok(())
}

#[test]
fn standard_output_takes_bytes(rt: HostRuntime) -> Result<(), Fail> {
    let mut sink = StdSink::new(&rt);
    put_all(&mut sink, b"standard output\n")?;
    Ok(())
}

fn pass_both<G: Gate + Sync>(gate: &G) {
    gate.pass(0, GatePlace::Local);
    gate.pass(1, GatePlace::Event);
}

#[test]
fn an_open_gate_returns() {
    pass_both(&OpenGate);
}
