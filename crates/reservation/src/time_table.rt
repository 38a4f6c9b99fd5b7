// A time table.
ghost use Rattle.std.specs.Prelude.{◌≡◌, length};

// The times of at most 32 operations, copied whole for every search.
#[derive(Clone, Copy)]
pub struct TimeTable {
    pub(crate) times: [Option<u16>; 32],
    ghost whole: { length times ≡ 32 },
}
