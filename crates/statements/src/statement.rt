// The lines of a loop text, their names not yet looked up.
use operations::Operation;
use texts::name::Name;

// An operand as it is written: a literal, or a name for the value of so many iterations earlier.
#[derive(Clone, Copy)]
pub enum Written {
    Numeral(i32),
    Named(Name, usize),
}

// An operand where it stands.
#[derive(Clone, Copy)]
pub struct Use {
    pub operand: Written,
    pub line: usize,
    pub column: usize,
}

// What a line does, over operands as they are written.
pub type Action = Operation<Use>;

// An operation, with the name that its line defines; a store defines none.
#[derive(Clone, Copy)]
pub struct Statement {
    pub line: usize,
    pub defines: Option<Name>,
    pub action: Action,
}
