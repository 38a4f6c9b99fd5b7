// The expanded scheme: `turns` registers for each of `count` variables.
ghost use Rattle.std.specs.Prelude.{◌*◌, ◌≤◌};

#[derive(Clone, Copy)]
pub struct Expanded {
    pub(crate) count: usize,
    pub(crate) turns: usize,
    ghost some: { 1 ≤ turns },
    ghost few: { turns ≤ 8 },
    ghost fits: { turns * count ≤ 64 },
}
