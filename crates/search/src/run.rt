// The search at an interval.
ghost use Rattle.std.specs.Prelude.{◌≡◌, ℕ, ◌<◌, ◌≤◌, length, Decides};
ghost use Rattle.model.specs.Limits.{hardware, MachineFits};
ghost use Rattle.model.specs.Search.{search};
ghost use Rattle.search_laws.specs.Bounded.{Roomy};
ghost use Rattle.reservation.specs.Views.{count};
ghost use Rattle.search.specs.Tables.{hw_of, AloneFits};
ghost use Rattle.search.specs.Weighed.{Weighed};
ghost use Rattle.search.specs.Boards.{height};
ghost use Rattle.search.specs.Answers.{outcome, SearchOf};

use crate::board::Board;
use crate::outcome::{NoSearch, Outcome};
use crate::state::Progress;
use crate::task::Task;
use crate::weight_table::Weights;
use bounds::{heights, machine_fits};
use model::{Edge, Timing};
use reservation::{ReservationTable, TimeTable};

// The search from a fresh table: at most six steps for each operation.
fn run(task: &Task, table: ReservationTable) -> Outcome
    requires alone { AloneFits task.now.timings.now table }
    requires weighed { Weighed task.now.edges.now (length task.now.timings.now) table.interval task.now.weights.now }
    requires empty { (u r : ℕ) → u < 8 → r < 256 → count table u r ≡ 0 }
    ensures { outcome result ≡ search task.now.edges.now (hw_of task.now.timings.now table) (length task.now.timings.now) (height task.now) table.interval }
{
    let mut progress = Progress {
        board: Board {
            task,
            time: TimeTable::empty(),
            table,
        },
        last: TimeTable::empty(),
        taken: 0,
    };
    let budget = 6 * task.timings.len();
    for _ in 0..budget {
        progress.step();
        if progress.is_complete() {
            return Outcome {
                times: Some(progress.board.time),
                steps: progress.taken,
            };
        }
    }
    Outcome {
        times: None,
        steps: budget,
    }
}

// Each operation alone has no more uses in a row than its class has units.
fn alone_fit(timings: &[Timing], units: &[usize], interval: usize) -> bool
    requires fits { MachineFits timings.now units.now }
    requires interval { interval ≤ 256 }
    ensures { Decides result (Roomy (hardware timings.now units.now) (length timings.now) interval) }
{
    timings
        .iter()
        .all(|timing| timing.busy <= interval * units[timing.class])
}

// The search at an interval, of operations with these timings and edges, on classes with so many units.
pub fn search(
    edges: &[Edge],
    timings: &[Timing],
    units: &[usize],
    interval: usize,
) -> Result<Outcome, NoSearch>
    ensures { SearchOf edges.now timings.now units.now interval result }
{
    if !machine_fits(timings, units) {
        return Err(NoSearch::Outside);
    }
    let table = ReservationTable::new(units, interval).ok_or(NoSearch::Outside)?;
    let heights = heights(edges, timings.len(), interval)?;
    if !alone_fit(timings, units, interval) {
        return Err(NoSearch::Narrow);
    }
    let weights = Weights::new(edges, interval);
    let task = Task {
        edges,
        timings,
        heights,
        weights: &weights,
    };
    Ok(run(&task, table))
}
