// What a register scheme is.
ghost use Rattle.std.specs.Prelude.{◌≡◌, ℕ};
ghost use Rattle.model.specs.Schemes.{Meaning, Lawful};
ghost use Rattle.registers.specs.Views.{table};
ghost use Rattle.registers.specs.Fits.{Fitted};

use crate::lives::Lives;

// The most turns, and the most passes back for which there is a name.
pub const TURNS: usize = 8;

pub const BACK: usize = 14;

// The registers of the file that the rotating and the expanded scheme share.
pub(crate) const FILE: usize = 64;

pub trait Scheme {
    ghost meaning: { Self → Meaning };

    // The register of a variable in an iteration.
    ghost place: { Self → ℕ → ℕ → ℕ };

    // The number of registers.
    fn file(&self) -> usize
        ensures { result ≡ (meaning self.now).file };

    // Takes a table of lives and answers the turns, or refuses it and stays as it was.
    fn fit(&mut self, lives: &Lives) -> Option<usize>
        ensures { Fitted meaning place self.old self.new (table lives.now) result };

    // The name for a variable, a copy and a number of passes back.
    fn name(&self, variable: usize, copy: usize, back: usize) -> usize
        ensures { result ≡ (meaning self.now).name variable copy back };

    // The register of a name in a pass.
    fn resolve(&self, name: usize, pass: usize) -> usize
        ensures { result ≡ (meaning self.now).resolve name pass };

    ghost placed: { (s : Self) → (meaning s).place ≡ place s };

    ghost lawful: { (s : Self) → Lawful (meaning s) };
}
