// Why a loop text is refused: by the text layer, or since a name that is read is not known.
ghost use Rattle.std.specs.Prelude.{◌≡◌};
ghost use Rattle.dependence.specs.declared.fault.GraphFault.TheVariants.{Text as InText};
ghost use Rattle.dependence.specs.Faults.{fault};

use model::Layer;
use texts::fault::TextFault;

#[derive(Clone, Copy, PartialEq, Eq, Debug)]
pub enum GraphFault {
    Text(TextFault),
    // 7: the variable is defined nowhere, or not above
    UnknownName { line: usize, column: usize },
}

impl From<TextFault> for GraphFault {
    ghost from_gives = { λ e r. r ≡ InText e };

    fn from(e: TextFault) -> GraphFault {
        GraphFault::Text(e)
    }
}

impl GraphFault {
    pub fn number(&self) -> usize
        ensures { result ≡ (fault self.now).number }
    {
        match self {
            GraphFault::Text(f) => f.number(),
            GraphFault::UnknownName { .. } => 7,
        }
    }

    pub fn layer(&self) -> Layer
        ensures { result ≡ (fault self.now).layer }
    {
        match self {
            GraphFault::Text(_) => Layer::Text,
            GraphFault::UnknownName { .. } => Layer::Graph,
        }
    }

    // The line at fault; 0 for a whole text.
    pub fn line(&self) -> Option<usize>
        ensures { result ≡ (fault self.now).line }
    {
        match self {
            GraphFault::Text(f) => Some(f.line()),
            GraphFault::UnknownName { line, .. } => Some(*line),
        }
    }

    pub fn column(&self) -> Option<usize>
        ensures { result ≡ (fault self.now).column }
    {
        match self {
            GraphFault::Text(f) => f.column(),
            GraphFault::UnknownName { column, .. } => Some(*column),
        }
    }
}
