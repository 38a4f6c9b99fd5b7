// Generic code: it uses the trait alone.
ghost use Rattle.std.specs.Prelude.{◌≡◌, ℕ, ◌-◌, ◌<◌, ◌≤◌, true, IfSome};
ghost use Rattle.model.specs.Lives.{Alive};
ghost use Rattle.registers.specs.Views.{table};

use registers::lives::Lives;
use registers::scheme::Scheme;

// The register that a name written for a variable and `back` passes back leads to in a pass; `turns` is what fit answered.
pub fn register<S: Scheme>(
    scheme: &S,
    turns: usize,
    variable: usize,
    pass: usize,
    back: usize,
) -> usize
    ensures { turns ≡ (S.meaning scheme.now).turns → variable < (S.meaning scheme.now).variables → back ≤ 14 → back ≤ pass →
        result ≡ S.place scheme.now variable (pass - back) }
{
    match pass.checked_rem(turns) {
        Some(copy) => scheme.resolve(scheme.name(variable, copy, back), pass),
        None => 0,
    }
}

// The value of a variable in an iteration.
#[derive(Clone, Copy)]
pub struct Instance {
    pub variable: usize,
    pub iteration: usize,
}

// Takes a table, offers a second one, and tells whether two instances of the first then lie in different registers. There is no answer where the first
// is refused or the second accepted.
pub fn still_apart<S: Scheme>(
    scheme: &mut S,
    taken: &Lives,
    offered: &Lives,
    a: Instance,
    b: Instance,
) -> Option<bool>
    ensures { IfSome result (λ differ. (c : ℕ) → Alive (table taken.now) a.variable a.iteration c →
        Alive (table taken.now) b.variable b.iteration c → ((a.variable ≡ b.variable) × (a.iteration ≡ b.iteration) → ⊥) → differ ≡ true) }
{
    let turns = scheme.fit(taken)?;
    let None = scheme.fit(offered) else {
        return None;
    };
    let place = |at: Instance| register(scheme, turns, at.variable, at.iteration, 0);
    Some(place(a) != place(b))
}
