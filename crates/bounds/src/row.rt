// What one round leaves.
ghost use Rattle.std.specs.Prelude.{◌≡◌, length};

use crate::marking::Marks;

// The values, and for each operation the number of the edge that raised it, if one did.
#[derive(Clone, Copy)]
pub struct Row {
    pub values: [usize; 32],
    pub marks: Marks,
    ghost whole: { length marks ≡ 32 },
}
