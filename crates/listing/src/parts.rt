// The passes of the parts.
ghost use Rattle.std.specs.Prelude.{◌≡◌, ℕ, ◌+◌, ◌-◌, ◌*◌, ◌<◌, ◌≤◌, if◌then◌else◌, nat_eq, nat_le};
ghost use Rattle.model.specs.Listing.{all_front as all_front_passes, with_kernel, passes_run, passes_written, written_pass as written_for};

use model::Parts;

// All passes are front.
pub(crate) fn all_front(front: usize) -> Parts
    ensures { result ≡ all_front_passes front }
{
    Parts {
        front,
        kernel: 0,
        repeats: 0,
        rest: 0,
    }
}

// For so many stages, a head, turns and trips: at most `head` trips are all front, and of the others each repeat of the kernel takes `turns`.
pub(crate) fn split(head: usize, stages: usize, turns: usize, trips: usize) -> Parts
    requires shallow { (1 ≤ stages) × (stages ≤ 8) }
    requires turning { 1 ≤ turns }
    requires few { trips ≤ 4096 }
    ensures { result ≡ (if nat_le trips head then all_front_passes (if nat_eq trips 0 then 0 else trips + stages - 1) else with_kernel head stages turns (trips - head)) }
{
    if trips <= head {
        return all_front(if trips == 0 { 0 } else { trips + stages - 1 });
    }
    let more = trips - head;
    let repeats = more / turns;
    let kernel = if repeats > 0 { turns } else { 0 };
    Parts {
        front: head,
        kernel,
        repeats,
        rest: more % turns + (stages - 1),
    }
}

// Which written pass, counted through front, kernel and rest, stands for a pass of the run.
#[tactic(auto, unfolding(model::specs::Listing::written_pass))]
pub(crate) fn written_pass(parts: Parts, pass: usize) -> usize
    requires runs { pass < passes_run parts }
    requires few { passes_run parts ≤ 65535 }
    requires short { passes_written parts ≤ 36 }
    ensures value { result ≡ written_for parts pass }
    ensures bound { result < passes_written parts }
{
    if pass < parts.front {
        return pass;
    }
    let repeated = parts.repeats * parts.kernel;
    if pass < parts.front + repeated {
        return parts.front + (pass - parts.front) % parts.kernel;
    }
    pass - repeated + parts.kernel
}
