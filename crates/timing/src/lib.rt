// Schedules, and the stage and the row of an operation from its time.
#![tactic(auto)]

mod schedule;

ghost use Rattle.std.specs.Prelude.{◌≡◌, ◌/◌, ◌%◌, ◌<◌};

pub use schedule::Schedule;

// At interval 0, which no schedule has, there is one stage.
pub fn stage_and_row(time: usize, interval: usize) -> (usize, usize)
    ensures stage { result.0 ≡ time / interval }
    ensures row { result.1 ≡ time % interval }
    ensures below { 0 < interval → result.1 < interval }
{
    if interval == 0 {
        return (0, time);
    }
    (time / interval, time % interval)
}
