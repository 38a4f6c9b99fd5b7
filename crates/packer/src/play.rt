// Lists of calls.
ghost use Rattle.std.specs.Prelude.{◌≡◌};
ghost use Rattle.packer_laws.specs.States.{Whole, state};
ghost use Rattle.packer.specs.Plays.{MadeOne, PlayedOne, Plays};

use crate::packer::Packer;
use crate::request::{Buffers, Call, Entry, Outcome};
use registers::scheme::Scheme;
use std::mem;
use values::domain::Domain;

impl<S: Scheme, D: Domain> Packer<S, D> {
    // Makes a call, and hands it back with what came of it.
    pub fn make(&mut self, call: Call<D::Value>) -> Entry<D::Value>
        ensures keeps { MadeOne S.meaning S.place D.operations self.old.scheme self.old.desk call result self.new.scheme self.new.desk }
        ensures domain { self.new.domain ≡ self.old.domain }
    {
        match call {
            Call::Machine(text) => {
                let answer = self.machine(text.as_slice());
                let outcome = answer.map_or_else(Outcome::Refused, |()| Outcome::Accepted);
                Entry::Answered(Call::Machine(text), outcome)
            }
            Call::Loop(text) => {
                let answer = self.read_loop(text.as_slice());
                let outcome = answer.map_or_else(Outcome::Refused, |()| Outcome::Accepted);
                Entry::Answered(Call::Loop(text), outcome)
            }
            Call::Plan => {
                let outcome = self.plan().map_or_else(Outcome::Refused, Outcome::Planned);
                Entry::Answered(Call::Plan, outcome)
            }
            Call::Expand(trips) => {
                let answer = self.expand(trips);
                let outcome = answer.map_or_else(Outcome::Refused, Outcome::Expanded);
                Entry::Answered(Call::Expand(trips), outcome)
            }
            Call::Run(buffers) => {
                let Buffers {
                    mut memory,
                    mut values,
                    mut waiting,
                } = buffers;
                let answer = self.run(
                    memory.as_mut_slice(),
                    values.as_mut_slice(),
                    waiting.as_mut_slice(),
                );
                let left = Buffers {
                    memory,
                    values,
                    waiting,
                };
                let outcome = answer.map_or_else(Outcome::Refused, Outcome::Ran);
                Entry::Answered(Call::Run(left), outcome)
            }
        }
    }

    // A call that was made before stays as it is.
    fn exchange(&mut self, entry: Entry<D::Value>) -> Entry<D::Value>
        ensures keeps { Whole S.meaning S.place D.operations self.old.scheme self.old.desk →
            PlayedOne S.meaning S.place D.operations (state self.old.scheme self.old.desk) entry result (state self.new.scheme self.new.desk) ×
            Whole S.meaning S.place D.operations self.new.scheme self.new.desk }
        ensures domain { self.new.domain ≡ self.old.domain }
    {
        match entry {
            Entry::Asked(call) => self.make(call),
            Entry::Answered(call, outcome) => Entry::Answered(call, outcome),
        }
    }

    // Makes each call of a list in its place, in order, and leaves in its place what came of it.
    pub fn play(&mut self, entries: &mut [Entry<D::Value>])
        ensures keeps { Whole S.meaning S.place D.operations self.old.scheme self.old.desk →
            Plays S.meaning S.place D.operations self.old.scheme self.old.desk entries.old entries.new self.new.scheme self.new.desk }
        ensures domain { self.new.domain ≡ self.old.domain }
    {
        for entry in entries.iter_mut() {
            let asked = mem::replace(entry, Entry::Asked(Call::Plan));
            let answered = self.exchange(asked);
            drop(mem::replace(entry, answered));
        }
    }
}
