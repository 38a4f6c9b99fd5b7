// Why a text is refused. Each fault has the number of the question that was answered no, and tells a line; line 0 stands for the whole text.
ghost use Rattle.std.specs.Prelude.{◌≡◌};
ghost use Rattle.texts.specs.Faults.{refusal};
ghost use Rattle.texts.specs.declared.fault.TextFault.TheVariants.{OutOfRange, WrongName};

use reader::token::Part;

#[derive(Clone, Copy, PartialEq, Eq, Debug)]
pub enum TextFault {
    // 1: more than 4,096 bytes
    TooLong,
    // 1: a byte of the line is not 32 to 126
    Unprintable { line: usize },
    // 2: the line has none of the forms
    NoForm { line: usize },
    // 3: a number is out of range
    OutOfRange { line: usize, column: usize },
    // 4: a name or a code is taken or reserved, or a class is unknown
    WrongName { line: usize, column: usize },
    // 5: a ninth class
    ManyClasses { line: usize },
    // 5: a code is on no class
    CodeMissing,
    // 6: a 33rd operation, or a 17th load or store
    ManyOperations { line: usize },
    // 6: no operation at all
    NoOperation,
}

impl TextFault {
    // A number out of range.
    pub fn out_of_range(part: Part<'_>) -> TextFault
        ensures { result ≡ OutOfRange part.entry.line part.entry.column }
    {
        let Part { line, column, .. } = part;
        TextFault::OutOfRange { line, column }
    }

    // A name or a code that may not stand here.
    pub fn wrong_name(part: Part<'_>) -> TextFault
        ensures { result ≡ WrongName part.entry.line part.entry.column }
    {
        let Part { line, column, .. } = part;
        TextFault::WrongName { line, column }
    }

    pub fn number(&self) -> usize
        ensures { result ≡ (refusal self.now).number }
    {
        match self {
            TextFault::TooLong | TextFault::Unprintable { .. } => 1,
            TextFault::NoForm { .. } => 2,
            TextFault::OutOfRange { .. } => 3,
            TextFault::WrongName { .. } => 4,
            TextFault::ManyClasses { .. } | TextFault::CodeMissing => 5,
            TextFault::ManyOperations { .. } | TextFault::NoOperation => 6,
        }
    }

    pub fn line(&self) -> usize
        ensures { result ≡ (refusal self.now).line }
    {
        match self {
            TextFault::TooLong | TextFault::CodeMissing | TextFault::NoOperation => 0,
            TextFault::Unprintable { line }
            | TextFault::NoForm { line }
            | TextFault::OutOfRange { line, .. }
            | TextFault::WrongName { line, .. }
            | TextFault::ManyClasses { line }
            | TextFault::ManyOperations { line } => *line,
        }
    }

    // The column of the token at fault, if the fault tells one.
    pub fn column(&self) -> Option<usize>
        ensures { result ≡ (refusal self.now).column }
    {
        match self {
            TextFault::OutOfRange { column, .. } | TextFault::WrongName { column, .. } => Some(
                *column,
            ),
            _ => None,
        }
    }
}
