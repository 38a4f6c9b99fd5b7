// A packer over a register scheme and a value domain.
ghost use Rattle.std.specs.Prelude.{◌≡◌, IfOk};
ghost use Rattle.guarantee.specs.Calls.{nothing};
ghost use Rattle.standing.specs.Seen.{standing_seen};
ghost use Rattle.packer_laws.specs.States.{Whole};

use registers::scheme::Scheme;
use standing::Desk;
use std::alloc::{AllocError, Global};
use values::domain::Domain;

#[derive(Drop)]
pub struct Packer<S: Scheme, D: Domain> {
    pub(crate) scheme: S,
    pub(crate) domain: D,
    pub(crate) desk: Desk,
}

impl<S: Scheme + Drop, D: Domain + Drop> Packer<S, D> {
    // A packer in which nothing stands. Only this can fail for want of memory.
    pub fn new(heap: Global, scheme: S, domain: D) -> Result<Packer<S, D>, AllocError>
        ensures whole { IfOk result (λ p. Whole S.meaning S.place D.operations p.scheme p.desk) }
        ensures nothing { IfOk result (λ p. standing_seen p.desk.standing ≡ nothing) }
        ensures scheme { IfOk result (λ p. p.scheme ≡ scheme) }
        ensures domain { IfOk result (λ p. p.domain ≡ domain) }
    {
        let desk = Desk::new(heap)?;
        Ok(Packer {
            scheme,
            domain,
            desk,
        })
    }
}
