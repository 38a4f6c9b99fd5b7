// Eight registers for each of at most 32 variables.
ghost use Rattle.std.specs.Prelude.{◌≤◌};

#[derive(Clone, Copy)]
pub struct Lanes {
    pub(crate) variables: usize,
    ghost few: { variables ≤ 32 },
}
