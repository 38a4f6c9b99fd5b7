// What a loop text has said so far, and how many of its statements are loads and stores.
ghost use Rattle.std.specs.Prelude.{◌≡◌, ◌≤◌};
ghost use Rattle.few.specs.Held.{held};
ghost use Rattle.model.specs.LoopText.{memory_operations};
ghost use Rattle.statements.specs.Statements.{all_seen};

use crate::statement::Statement;
use few::Few;

// At most 16 of them are loads and stores.
#[derive(Clone, Copy)]
pub struct Statements {
    pub items: Few<Statement, 32>,
    pub in_memory: usize,
    ghost light: { memory_operations (all_seen (held items)) ≤ 16 },
    ghost counted: { in_memory ≡ memory_operations (all_seen (held items)) },
}
