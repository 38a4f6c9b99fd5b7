// What a value domain is.
ghost use Rattle.std.specs.Prelude.{◌≡◌};
ghost use Rattle.model.specs.declared.Operator.TheVariants.{Plus, Minus, Times};
ghost use Rattle.model.specs.Domains.{Domain as Operations};

use model::Operator;

// Every answer depends on the arguments alone: it is the one that the domain's operations fix.
pub trait Domain {
    type Value: Copy + Drop;

    ghost operations: { Operations Self.Value };

    fn add(&self, a: Self::Value, b: Self::Value) -> Self::Value
        ensures { result ≡ operations.apply Plus a b };

    fn sub(&self, a: Self::Value, b: Self::Value) -> Self::Value
        ensures { result ≡ operations.apply Minus a b };

    fn mul(&self, a: Self::Value, b: Self::Value) -> Self::Value
        ensures { result ≡ operations.apply Times a b };

    fn apply(&self, operator: Operator, a: Self::Value, b: Self::Value) -> Self::Value
        ensures { result ≡ operations.apply operator a b }
    {
        match operator {
            Operator::Plus => self.add(a, b),
            Operator::Minus => self.sub(a, b),
            Operator::Times => self.mul(a, b),
        }
    }

    // The value of a literal; those of a loop are from -32,768 to 32,767.
    fn literal(&self, n: i32) -> Self::Value
        ensures { result ≡ operations.of_literal n };
}
