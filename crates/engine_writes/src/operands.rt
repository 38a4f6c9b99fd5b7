// What operands are worth: values of a domain, and those that registers hold.
use values::domain::Domain;

#[derive(Drop)]
pub struct Operands<'a, D: Domain> {
    pub domain: &'a D,
    pub values: &'a [D::Value],
}
