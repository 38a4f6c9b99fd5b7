// Names become registers.
ghost use Rattle.std.specs.Prelude.{◌≡◌, ◌<◌};
ghost use Rattle.model.specs.Loop.{on_operands};
ghost use Rattle.model.specs.Codes.{source_in, target_in};
ghost use Rattle.code.specs.Seen.{source_seen, code_operation_seen};
ghost use Rattle.engine_slots.specs.Slots.{source_of, operation_of, SourceWithin, OperationWithin};

use crate::slot::Resolved;
use code::issue::Source;
use operations::Operation;
use registers::scheme::Scheme;

// The names of a scheme in a pass.
#[derive(Drop)]
pub(crate) struct Names<'a, S> {
    pub(crate) scheme: &'a S,
    pub(crate) pass: usize,
}

impl<S: Scheme> Names<'_, S> {
    fn register(&self, name: usize) -> usize
        ensures is { result ≡ (S.meaning self.now.scheme.now).resolve name self.now.pass }
        ensures within { result < (S.meaning self.now.scheme.now).file }
    {
        self.scheme.resolve(name, self.pass)
    }

    fn source(&self, source: Source) -> Resolved
        ensures is { source_of result ≡ source_in (S.meaning self.now.scheme.now).resolve self.now.pass (source_seen source) }
        ensures within { SourceWithin (S.meaning self.now.scheme.now).file result }
    {
        match source {
            Source::Literal(z) => Resolved::Literal(z),
            Source::Register(name) => Resolved::Register(self.register(name)),
        }
    }

    pub(crate) fn operation(&self, operation: &Operation<Source>) -> Operation<Resolved>
        ensures is { operation_of result ≡ on_operands (source_in (S.meaning self.now.scheme.now).resolve self.now.pass) (code_operation_seen operation.now) }
        ensures within { OperationWithin (S.meaning self.now.scheme.now).file result }
    {
        operation.map(|source| self.source(source))
    }

    // A store has no target: that of register 0 stands for it.
    pub(crate) fn target(&self, name: Option<usize>) -> usize
        ensures is { result ≡ target_in (S.meaning self.now.scheme.now).resolve self.now.pass name }
        ensures within { result < (S.meaning self.now.scheme.now).file }
    {
        match name {
            Some(name) => self.register(name),
            None => 0,
        }
    }
}
