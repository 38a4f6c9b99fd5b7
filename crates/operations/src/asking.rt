// What is asked of an operation.
ghost use Rattle.std.specs.Prelude.{◌≡◌, is_some, IfSome, option_map};
ghost use Rattle.model.specs.Loop.{makes, in_memory, stride_of, offset_of, on_operands};
ghost use Rattle.model.specs.Soundness.{code_of};
ghost use Rattle.model.specs.Listing.{left_of, right_of};
ghost use Rattle.operations.specs.Seen.{seen, cell_in, EachOwn, Turned};

use crate::operation::{Cell, Operand, Operation};
use model::{Code, Operator};

impl<A: Operand> Operation<A> {
    pub fn code(&self) -> Code
        ensures { result ≡ code_of (seen A.shown self.now) }
    {
        match self {
            Operation::Load(_) => Code::Load,
            Operation::Store(..) => Code::Store,
            Operation::Binary(Operator::Plus, ..) => Code::Add,
            Operation::Binary(Operator::Minus, ..) => Code::Sub,
            Operation::Binary(Operator::Times, ..) => Code::Mul,
            Operation::Move(_) => Code::Move,
        }
    }

    // All but stores make a value.
    pub fn makes(&self) -> bool
        ensures { result ≡ makes (seen A.shown self.now) }
    {
        !matches!(self, Operation::Store(..))
    }

    // The cell of a load or a store.
    pub fn cell(&self) -> Option<Cell>
        ensures is { result ≡ cell_in self.now }
        ensures touches { is_some result ≡ in_memory (seen A.shown self.now) }
        ensures stride { IfSome result (λ c. stride_of (seen A.shown self.now) ≡ c.stride) }
        ensures offset { IfSome result (λ c. offset_of (seen A.shown self.now) ≡ c.offset) }
    {
        match self {
            Operation::Load(cell) => Some(*cell),
            Operation::Store(_, cell) => Some(*cell),
            Operation::Binary(..) | Operation::Move(_) => None,
        }
    }

    // The left and the right operand; the one operand of a store and of a move is the left one.
    pub fn operands(&self) -> (Option<A>, Option<A>)
        ensures left { result.0 ≡ left_of (seen (λ a. a) self.now) }
        ensures right { result.1 ≡ right_of (seen (λ a. a) self.now) }
        ensures left_shown { option_map A.shown result.0 ≡ left_of (seen A.shown self.now) }
        ensures right_shown { option_map A.shown result.1 ≡ right_of (seen A.shown self.now) }
    {
        match self {
            Operation::Load(_) => (None, None),
            Operation::Store(a, _) | Operation::Move(a) => (Some(*a), None),
            Operation::Binary(_, a, b) => (Some(*a), Some(*b)),
        }
    }

    // The same operation over other operands.
    pub fn map<B: Operand, F: Fn(A) -> B>(&self, f: F) -> Operation<B>
        requires { EachOwn (F.pre f) self.now }
        ensures turned { Turned (F.post f) self.now result }
        ensures shown { (g : A.Shown → B.Shown) → EachOwn (λ a. (b : B) → F.post f a b → B.shown b ≡ g (A.shown a)) self.now →
            seen B.shown result ≡ on_operands g (seen A.shown self.now) }
    {
        match self {
            Operation::Load(cell) => Operation::Load(*cell),
            Operation::Store(a, cell) => Operation::Store(f(*a), *cell),
            Operation::Binary(operator, a, b) => Operation::Binary(*operator, f(*a), f(*b)),
            Operation::Move(a) => Operation::Move(f(*a)),
        }
    }
}
