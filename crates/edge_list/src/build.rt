// The edges of a loop, in the order of their numbers.
ghost use Rattle.std.specs.Prelude.{◌≡◌, ◌+◌, ◌<◌, ◌≤◌, [], length, slice_index_or, IfOk};
ghost use Rattle.model.specs.Edges.{edges};
ghost use Rattle.model.specs.Soundness.{hardware};
ghost use Rattle.texts.specs.Records.{machine_seen};
ghost use Rattle.dependence.specs.Operations.{operations_seen};
ghost use Rattle.dependence.specs.Loops.{loop_seen};
ghost use Rattle.edge_list.specs.Appended.{Appended, RoomFor};
ghost use Rattle.edge_list.specs.Lists.{operand_part, row_in, memory_in};

use crate::list::Edges;
use crate::push::{push_between, push_operands};
use dependence::loops::Loop;
use dependence::operation::Operation;
use model::Edge;
use std::alloc::{AllocError, Global};
use texts::machine::Machine;

// Two operands for each of 32 operations, and an edge each way between any two of 16 loads and stores.
const MOST_EDGES: usize = 304;

fn push_operand_edges(list: &mut Vec<Edge>, machine: &Machine, l: &Loop)
    requires { RoomFor (operand_part machine.now l.now) list.old }
    ensures { Appended list.old list.new (operand_part machine.now l.now) }
{
    for (q, operation) in l.operations().iter().enumerate() {
        push_operands(list, machine, l, q, operation);
    }
}

// The memory edges between the operation on line p and the later ones.
fn push_row(list: &mut Vec<Edge>, operations: &[Operation], p: usize, first: &Operation)
    requires inside { p < length operations.now }
    requires first { first.now ≡ slice_index_or operations.now p first.now }
    requires room { RoomFor (row_in (operations_seen operations.now) p) list.old }
    ensures { Appended list.old list.new (row_in (operations_seen operations.now) p) }
{
    let next = p + 1;
    for (past, second) in operations[next..].iter().enumerate() {
        push_between(list, p, first, next + past, second);
    }
}

fn push_memory_edges(list: &mut Vec<Edge>, operations: &[Operation])
    requires { RoomFor (memory_in (operations_seen operations.now)) list.old }
    ensures { Appended list.old list.new (memory_in (operations_seen operations.now)) }
{
    for (p, first) in operations.iter().enumerate() {
        push_row(list, operations, p, first);
    }
}

impl Edges {
    // No edge yet. Only this can fail for want of memory.
    pub fn new(heap: Global) -> Result<Edges, AllocError>
        ensures { IfOk result (λ e. e.list.items ≡ []) }
    {
        let list = Vec::with_capacity(heap, MOST_EDGES)?;
        Ok(Edges { list })
    }

    // The edges of this loop on this machine, in place of those that were there.
    pub fn build(&mut self, machine: &Machine, l: &Loop)
        ensures { self.new.list.items ≡ edges (loop_seen l.now) (hardware (machine_seen machine.now) (loop_seen l.now)) }
    {
        self.list.clear();
        push_operand_edges(&mut self.list, machine, l);
        push_memory_edges(&mut self.list, l.operations());
    }

    pub fn as_slice(&self) -> &[Edge]
        ensures { result.now ≡ self.now.list.items }
    {
        self.list.as_slice()
    }
}
