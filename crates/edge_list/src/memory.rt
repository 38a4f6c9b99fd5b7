// At which distances two operations on different lines touch one cell. The memory rule stands in `cells_meet`, and nowhere else.
ghost use Rattle.std.specs.Prelude.{◌≡◌, ◌<◌};
ghost use Rattle.model.specs.Edges.{memory_delay};
ghost use Rattle.edge_laws.specs.Meeting.{whole_strides, to_later, to_earlier, distance_on, distance_back};
ghost use Rattle.dependence.specs.Operations.{operation_seen};

use dependence::operation::Operation;
use operations::Cell;

// From this distance on a schedule's stages keep the order by themselves.
const TOO_FAR: usize = 8;

// The distance of the edge to the later line, and of the one back to the earlier.
#[derive(Clone, Copy)]
pub struct Meeting {
    pub ahead: Option<usize>,
    pub back: Option<usize>,
}

const APART: Meeting = Meeting {
    ahead: None,
    back: None,
};

const EACH_WAY: Meeting = Meeting {
    ahead: Some(0),
    back: Some(1),
};

// A gap of a few whole strides.
fn whole_strides(gap: usize, stride: usize) -> Option<usize>
    requires { 0 < stride }
    ensures { result ≡ whole_strides stride gap }
{
    if gap % stride == 0 && gap / stride < TOO_FAR {
        Some(gap / stride)
    } else {
        None
    }
}

// `a` is of the operation on the earlier line.
fn cells_meet(a: Cell, b: Cell) -> Meeting
    ensures later { result.ahead ≡ to_later a.stride a.offset b.stride b.offset }
    ensures earlier { result.back ≡ to_earlier a.stride a.offset b.stride b.offset }
{
    if a.stride != b.stride {
        return EACH_WAY;
    }
    if a.stride == 0 {
        return if a.offset == b.offset {
            EACH_WAY
        } else {
            APART
        };
    }
    if b.offset <= a.offset {
        return Meeting {
            ahead: whole_strides(a.offset - b.offset, a.stride),
            back: None,
        };
    }
    Meeting {
        ahead: None,
        back: whole_strides(b.offset - a.offset, a.stride),
    }
}

// A load comes before a store within a cycle, and nothing comes behind a store.
pub(crate) fn delay_from(operation: &Operation) -> usize
    ensures { result ≡ memory_delay (operation_seen operation.now) }
{
    usize::from(!operation.makes())
}

// `first` is on the earlier line.
pub(crate) fn operations_meet(first: &Operation, second: &Operation) -> Meeting
    ensures later { result.ahead ≡ distance_on (operation_seen first.now) (operation_seen second.now) }
    ensures earlier { result.back ≡ distance_back (operation_seen first.now) (operation_seen second.now) }
{
    if first.makes() && second.makes() {
        return APART;
    }
    match (first.cell(), second.cell()) {
        (Some(a), Some(b)) => cells_meet(a, b),
        _ => APART,
    }
}
