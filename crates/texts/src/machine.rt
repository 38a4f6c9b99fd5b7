// A machine whose text was accepted.
ghost use Rattle.std.specs.Prelude.{◌≡◌, true};
ghost use Rattle.model.specs.Soundness.{sound_machine};
ghost use Rattle.texts.specs.Seen.{entries_seen};

use crate::entries::Entries;

#[derive(Clone, Copy)]
pub struct Machine {
    pub entries: Entries,
    ghost sound: { sound_machine (entries_seen entries) ≡ true },
}
