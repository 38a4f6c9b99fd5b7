// What a code form is.
ghost use Rattle.std.specs.Prelude.{◌≡◌, ℕ, ◌-◌, Option};
ghost use Rattle.model.specs.Codes.{CodeSlot, CodeRows, gathered};
ghost use Rattle.code.specs.Seen.{fetched};

use crate::issue::Issue;

// The issues of a row are kept, in their order, at places from one number up to another. At some of the places nothing may issue in this pass.
pub trait Code {
    // What issues in each row of each pass.
    ghost form: { Self → CodeRows };

    // What issues in a pass from a place.
    ghost issued: { Self → ℕ → ℕ → Option CodeSlot };

    // The places of a row of a pass: the first, and the one behind the last.
    fn row(&self, pass: usize, row: usize) -> (usize, usize)
        ensures { form self.now pass row ≡ gathered (issued self.now pass) result.0 (result.1 - result.0) };

    // What issues in a pass from a place.
    fn issue(&self, pass: usize, place: usize) -> Option<Issue>
        ensures { fetched result ≡ issued self.now pass place };
}
