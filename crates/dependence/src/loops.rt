// A loop whose text was accepted: its operations in text order.
ghost use Rattle.std.specs.Prelude.{◌≡◌, true};
ghost use Rattle.few.specs.Held.{held};
ghost use Rattle.model.specs.Soundness.{sound_loop};
ghost use Rattle.dependence.specs.Operations.{operations_seen};

use crate::operation::Operation;
use few::Few;

#[derive(Clone, Copy)]
pub struct Loop {
    pub body: Few<Operation, 32>,
    ghost sound: { sound_loop (operations_seen (held body)) ≡ true },
}
