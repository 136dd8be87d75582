//! The offsets of a struct where fields begin or end, in order.
ghost use Rattle.std.specs.Prelude.{◌≡◌, None, IfOk, OnOk, nat_le};
ghost use Rattle.lx_slot_sums.specs.Sums.{no_sum};
ghost use Rattle.lx_slot_sums.specs.Rows.{AreRising, Counts, edge, edge_at, edges, moved, no_edges, put_in, whole};

use crate::sums::{SlotSum, no_sum};
use lx_words::Memory;
use std::alloc::Global;

/// An offset of a struct where fields begin or end.
#[derive(Clone, Copy)]
pub(crate) struct Edge {
    pub offset: u64,
    /// The sum of all fields that begin here.
    pub sum: SlotSum,
    /// The number of the spread of the field that lies between here and the next edge.
    pub inside: Option<u32>,
}

/// The edges of the fields of a struct so far. Further fields may begin at the last one.
#[derive(Drop)]
pub(crate) struct Row {
    pub done: Vec<Edge>,
    pub last: Edge,
}

/// An edge where nothing is known to begin yet.
fn bare_edge(offset: u64) -> Edge
    ensures { result ≡ edge offset no_sum None }
{
    Edge {
        offset,
        sum: no_sum(),
        inside: None,
    }
}

impl Row {
    /// No fields.
    pub fn new(alloc: Global) -> Row
        ensures { edges result.done.items result.last ≡ no_edges }
    {
        Row {
            done: Vec::new(alloc),
            last: bare_edge(0),
        }
    }

    /// Goes on to an offset.
    pub fn move_to(&mut self, offset: u64) -> Result<(), Memory>
        ensures { OnOk result (edges self.new.done.items self.new.last ≡ moved (edges self.old.done.items self.old.last) offset) }
    {
        if self.last.offset < offset {
            self.done.push(self.last)?;
            self.last = bare_edge(offset);
        }
        Ok(())
    }

    /// Puts a field with this spread at the last edge, which has this sum now. Where the field takes bytes, the edge where it ends
    /// follows.
    pub fn put(&mut self, sum: SlotSum, inside: Option<u32>, end: Edge) -> Result<(), Memory>
        ensures { OnOk result (edges self.new.done.items self.new.last ≡ put_in (edges self.old.done.items self.old.last) sum inside end) }
    {
        self.last.sum = sum;
        if self.last.offset < end.offset {
            self.last.inside = inside;
            self.done.push(self.last)?;
            self.last = end;
        }
        Ok(())
    }

    /// All edges.
    pub fn into_edges(self) -> Result<Vec<Edge>, Memory>
        ensures { IfOk result (λ all. all.items ≡ whole (edges self.done.items self.last)) }
    {
        let mut edges = self.done;
        edges.push(self.last)?;
        Ok(edges)
    }
}

/// How many edges are not past an offset.
fn count_upto(edges: &[Edge], offset: u64) -> usize
    requires { AreRising edges.now }
    ensures { Counts offset edges.now result }
{
    edges.partition_point(
        |edge: &Edge| -> bool
            ensures { result ≡ nat_le edge.now.offset offset }
        { edge.offset <= offset },
    )
}

/// The last edge that isn't past an offset.
pub(crate) fn edge_at(edges: &[Edge], offset: u64) -> Option<Edge>
    requires { AreRising edges.now }
    ensures { result ≡ edge_at edges.now offset }
{
    let count = count_upto(edges, offset);
    if count == 0 {
        return None;
    }
    let last = count - 1;
    Some(edges[last])
}
