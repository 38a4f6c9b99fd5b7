// Hardware that the tables of the machine can follow.
ghost use Rattle.engine_slots.specs.Slots.{TimingsHeld};

use crate::slot::Hardware;

#[derive(Drop)]
pub struct Held<'a> {
    pub hardware: &'a Hardware,
    ghost held: { TimingsHeld hardware.now.timings },
}
