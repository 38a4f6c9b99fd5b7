// What one operand, one operation and two lines add to the list.
ghost use Rattle.std.specs.Prelude.{◌≡◌, ◌+◌, ◌≤◌, [], ◌∷◌, length};
ghost use Rattle.model.specs.Loop.{operands};
ghost use Rattle.model.specs.Edges.{operand_edge, operand_edges};
ghost use Rattle.edge_laws.specs.Meeting.{edge_at, by_distance};
ghost use Rattle.dependence.specs.Operations.{operand_seen, operation_seen};
ghost use Rattle.edge_list.specs.Appended.{Appended, RoomFor};
ghost use Rattle.edge_list.specs.Lists.{hardware_of, pair};

use crate::memory::{delay_from, operations_meet};
use dependence::hardware::timing_of;
use dependence::loops::Loop;
use dependence::operation::{Operand, Operation};
use model::Edge;
use texts::machine::Machine;

// 0 where there is no such operation.
fn latency_of(machine: &Machine, l: &Loop, definer: usize) -> usize
    ensures { result ≡ (hardware_of machine.now l.now).latency definer }
{
    match l.operations().get(definer) {
        Some(operation) => timing_of(machine, operation.code()).latency,
        None => 0,
    }
}

fn push_operand(list: &mut Vec<Edge>, machine: &Machine, l: &Loop, reader: usize, operand: Operand)
    requires { RoomFor (operand_edge (hardware_of machine.now l.now) reader (operand_seen operand)) list.old }
    ensures { Appended list.old list.new (operand_edge (hardware_of machine.now l.now) reader (operand_seen operand)) }
{
    match operand {
        Operand::Literal(_) => {}
        Operand::Variable { definer, distance } => list.push_reserved(Edge {
            from: definer,
            to: reader,
            delay: latency_of(machine, l, definer),
            distance,
        }),
    }
}

pub(crate) fn push_operands(
    list: &mut Vec<Edge>,
    machine: &Machine,
    l: &Loop,
    reader: usize,
    operation: &Operation,
)
    requires { RoomFor (operand_edges (hardware_of machine.now l.now) reader (operands (operation_seen operation.now))) list.old }
    ensures { Appended list.old list.new (operand_edges (hardware_of machine.now l.now) reader (operands (operation_seen operation.now))) }
{
    match operation {
        Operation::Load(_) => {}
        Operation::Store(value, _) | Operation::Move(value) => {
            push_operand(list, machine, l, reader, *value)
        }
        Operation::Binary(_, left, right) => {
            push_operand(list, machine, l, reader, *left);
            push_operand(list, machine, l, reader, *right);
        }
    }
}

fn edge_at(from: usize, to: usize, delay: usize, distance: Option<usize>) -> Option<Edge>
    ensures { result ≡ edge_at from to delay distance }
{
    distance.map(|distance| Edge {
        from,
        to,
        delay,
        distance,
    })
}

fn push_both(list: &mut Vec<Edge>, near: Edge, far: Edge)
    requires { RoomFor (near ∷ far ∷ []) list.old }
    ensures { Appended list.old list.new (near ∷ far ∷ []) }
{
    list.push_reserved(near);
    list.push_reserved(far);
}

fn push_by_distance(list: &mut Vec<Edge>, ahead: Option<Edge>, back: Option<Edge>)
    requires { RoomFor (by_distance ahead back) list.old }
    ensures { Appended list.old list.new (by_distance ahead back) }
{
    match (ahead, back) {
        (None, None) => {}
        (Some(edge), None) | (None, Some(edge)) => list.push_reserved(edge),
        (Some(a), Some(b)) if a.distance <= b.distance => push_both(list, a, b),
        (Some(a), Some(b)) => push_both(list, b, a),
    }
}

// The memory edges between two operations, on line p and on the later line q.
pub(crate) fn push_between(
    list: &mut Vec<Edge>,
    p: usize,
    first: &Operation,
    q: usize,
    second: &Operation,
)
    requires { RoomFor (pair p q (operation_seen first.now) (operation_seen second.now)) list.old }
    ensures { Appended list.old list.new (pair p q (operation_seen first.now) (operation_seen second.now)) }
{
    let meeting = operations_meet(first, second);
    let ahead = edge_at(p, q, delay_from(first), meeting.ahead);
    let back = edge_at(q, p, delay_from(second), meeting.back);
    push_by_distance(list, ahead, back);
}
