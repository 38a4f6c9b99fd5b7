// How the expanded scheme gives registers: each variable has one for each turn.
ghost use Rattle.std.specs.Prelude.{◌≡◌, ◌*◌, ◌≤◌, true, is_some, if◌then◌else◌, nat_lt};
ghost use Rattle.model.specs.Lives.{LifeWithin};
ghost use Rattle.model.specs.Schemes.{want as want_of, expanded_turns, expanded_need, expanded, no_lives};
ghost use Rattle.registers.specs.Views.{table};
ghost use Rattle.registers.specs.Fits.{Fitted};
ghost use Rattle.registers.specs.Meanings.{expanded_meaning};
ghost use Rattle.register_laws.proofs.Expanded.{expanded_lawful};
ghost use Rattle.std.proofs.Common.{refl};

use crate::expanded::Expanded;
use crate::lives::Lives;
use crate::scheme::{BACK, FILE, Scheme, TURNS};
use model::Life;

// A need that is beyond every file.
const TOO_MUCH: usize = 257;

// The turns that a life wants: the most instances of its variable that are alive in a cycle.
fn want(interval: usize, life: &Life) -> usize
    requires { LifeWithin interval life.now }
    ensures { result ≡ want_of interval life.now }
{
    (life.end - life.start) / interval + 1
}

// The turns that a table wants: the most that a life wants, 1 without variables.
fn turns_for(lives: &Lives) -> usize
    ensures { result ≡ expanded_turns (table lives.now) }
{
    let interval = lives.interval;
    lives
        .as_slice()
        .iter()
        .map(|life| want(interval, life))
        .fold(1, usize::max)
}

// The registers that a table needs with so many turns for each variable, unless there are too many turns.
fn need_with(turns: usize, variables: usize) -> Option<usize>
    requires { variables ≤ 32 }
    ensures { result ≡ (if nat_lt 8 turns then None else Some (turns * variables)) }
{
    (turns <= TURNS).then(|| turns * variables)
}

impl Expanded {
    // A fresh scheme, without variables.
    pub fn new() -> Expanded
        ensures { expanded_meaning result ≡ expanded no_lives }
    {
        Expanded { count: 0, turns: 1 }
    }

    // The registers that a table needs.
    pub fn need(lives: &Lives) -> usize
        ensures { result ≡ expanded_need (table lives.now) }
    {
        need_with(turns_for(lives), lives.as_slice().len()).unwrap_or(TOO_MUCH)
    }
}

impl Scheme for Expanded {
    ghost meaning = { expanded_meaning };

    ghost place = { λ s. (expanded_meaning s).place };

    ghost placed = { λ _. refl };

    ghost lawful = { λ s. expanded_lawful s.count s.turns s.some s.few s.fits };

    fn file(&self) -> usize {
        FILE
    }

    fn fit(&mut self, lives: &Lives) -> Option<usize>
        ensures fitted { Fitted expanded_meaning (λ s. (expanded_meaning s).place) self.old self.new (table lives.now) result }
        ensures formula { is_some result ≡ true → expanded_meaning self.new ≡ expanded (table lives.now) }
    {
        let turns = turns_for(lives);
        let count = lives.as_slice().len();
        need_with(turns, count).filter(|need| *need <= FILE)?;
        *self = Expanded { count, turns };
        Some(turns)
    }

    fn name(&self, variable: usize, copy: usize, back: usize) -> usize {
        if variable < self.count && copy < self.turns && back <= BACK {
            self.turns * variable + (copy + (self.turns - 1) * back) % self.turns
        } else {
            0
        }
    }

    fn resolve(&self, name: usize, _pass: usize) -> usize {
        if name < FILE { name } else { 0 }
    }
}
