// Due writes land.
ghost use Rattle.std.specs.Prelude.{◌≡◌, ℕ, ◌%◌, ◌<◌, ◌≤◌, ◌≢◌, [], length};
ghost use Rattle.std.specs.List.{All};
ghost use Rattle.engine_laws.specs.Dues.{Registers};
ghost use Rattle.engine_writes.specs.Files.{LandsOne, LandsListed, LandsBelow, LandsAll};
ghost use Rattle.engine_writes.specs.Lists.{lists_of};

use crate::dues::Dues;
use crate::waiting::Waiting;
use engine_slots::statuses::Statuses;

// Lands the write to a register, if it is due.
fn land_one<V: Copy + Drop>(
    cycle: usize,
    r: usize,
    waiting: &[Waiting<V>],
    statuses: &mut Statuses,
    values: &mut [V],
)
    requires { (r < 256) × ((r < length waiting.now) × (r < length values.old)) }
    ensures { LandsOne cycle waiting.now statuses.old.status values.old r statuses.new.status values.new }
{
    if statuses.does_await(r) {
        let entry = waiting[r];
        if entry.due == cycle {
            values[r] = entry.value;
            statuses.land(r);
        }
    }
}

// Lands the due writes to the registers of a list.
fn land_listed<V: Copy + Drop>(
    cycle: usize,
    list: &[usize],
    waiting: &[Waiting<V>],
    statuses: &mut Statuses,
    values: &mut [V],
)
    requires { All (λ r. (r < 256) × ((r < length waiting.now) × (r < length values.old))) list.now }
    ensures { LandsListed cycle waiting.now statuses.old.status values.old list.now statuses.new.status values.new }
{
    for r in list {
        land_one(cycle, *r, waiting, statuses, values);
    }
}

// Lands the due writes to all registers of the file.
fn land_each<V: Copy + Drop>(
    cycle: usize,
    file: usize,
    waiting: &[Waiting<V>],
    statuses: &mut Statuses,
    values: &mut [V],
)
    requires { (file ≤ 256) × ((file ≤ length waiting.now) × (file ≤ length values.old)) }
    ensures { LandsBelow cycle waiting.now statuses.old.status values.old file statuses.new.status values.new }
{
    for r in 0..file {
        land_one(cycle, r, waiting, statuses, values);
    }
}

// Lands all writes that are due in this cycle.
pub fn land<V: Copy + Drop>(
    cycle: usize,
    file: usize,
    dues: &mut Dues,
    waiting: &[Waiting<V>],
    statuses: &mut Statuses,
    values: &mut [V],
)
    requires fits { (file ≤ 256) × ((file ≤ length waiting.now) × (file ≤ length values.old)) }
    requires kept { Registers (lists_of dues.old) file }
    ensures lands { LandsAll cycle waiting.now statuses.old.status values.old file (lists_of dues.old) statuses.new.status values.new (lists_of dues.new) }
    ensures kept { Registers (lists_of dues.new) file }
    ensures cleared { lists_of dues.new (cycle % 8) ≡ [] }
    ensures others { (x : ℕ) → (x ≢ cycle % 8) → lists_of dues.new x ≡ lists_of dues.old x }
    ensures places { dues.new.places ≡ dues.old.places }
{
    match dues.listed(cycle) {
        Some(list) => land_listed(cycle, list, waiting, statuses, values),
        None => land_each(cycle, file, waiting, statuses, values),
    }
    dues.clear(cycle);
}
