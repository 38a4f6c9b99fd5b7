// The times of a schedule.
ghost use Rattle.std.specs.Prelude.{◌≡◌, ℕ, Some, None};
ghost use Rattle.reservation.specs.Times.{times_of, Replaced};

use crate::time_table::TimeTable;

impl TimeTable {
    // No operation has a time.
    pub fn empty() -> TimeTable
        ensures { (q : ℕ) → times_of result q ≡ None }
    {
        TimeTable { times: [None; 32] }
    }

    pub fn at(&self, operation: usize) -> Option<u16>
        ensures { result ≡ times_of self.now operation }
    {
        self.times.get(operation).copied().flatten()
    }

    pub fn put(&mut self, operation: usize, time: u16)
        ensures { Replaced operation (Some time) self.old self.new }
    {
        self.replace(operation, Some(time));
    }

    pub fn remove(&mut self, operation: usize)
        ensures { Replaced operation None self.old self.new }
    {
        self.replace(operation, None);
    }

    // There is no place for an operation beyond the last.
    fn replace(&mut self, operation: usize, time: Option<u16>)
        ensures { Replaced operation time self.old self.new }
    {
        if operation < self.times.len() {
            self.times[operation] = time;
        }
    }
}
