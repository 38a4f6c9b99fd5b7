// Why a call is refused.
ghost use Rattle.std.specs.Prelude.{◌≡◌};
ghost use Rattle.dependence.specs.declared.fault.GraphFault.TheVariants.{Text as InText};
ghost use Rattle.standing.specs.declared.fault.PackFault.TheVariants.{Graph as InGraph};
ghost use Rattle.standing.specs.Faults.{fault};

use dependence::fault::GraphFault;
use model::Layer;
use texts::fault::TextFault;

#[derive(Clone, Copy, PartialEq, Eq, Debug)]
pub enum PackFault {
    // 1 to 7: a text is refused
    Graph(GraphFault),
    // 10: what the call needs does not stand
    NotStanding,
    // 8: the register scheme took no schedule
    NoSchedule,
    // 3: more than 4,096 trips
    ManyTrips,
    // 11: a file is shorter than the register scheme's
    ShortFiles,
    // 12: a cell of the loop is not in memory
    OutsideMemory,
}

impl From<GraphFault> for PackFault {
    ghost from_gives = { λ e r. r ≡ InGraph e };

    fn from(e: GraphFault) -> PackFault {
        PackFault::Graph(e)
    }
}

impl From<TextFault> for PackFault {
    ghost from_gives = { λ e r. r ≡ InGraph (InText e) };

    fn from(e: TextFault) -> PackFault {
        PackFault::Graph(GraphFault::Text(e))
    }
}

impl PackFault {
    pub fn number(&self) -> usize
        ensures { result ≡ (fault self.now).number }
    {
        match self {
            PackFault::Graph(f) => f.number(),
            PackFault::NotStanding => 10,
            PackFault::NoSchedule => 8,
            PackFault::ManyTrips => 3,
            PackFault::ShortFiles => 11,
            PackFault::OutsideMemory => 12,
        }
    }

    pub fn layer(&self) -> Layer
        ensures { result ≡ (fault self.now).layer }
    {
        match self {
            PackFault::Graph(f) => f.layer(),
            PackFault::NoSchedule => Layer::Plan,
            PackFault::NotStanding
            | PackFault::ManyTrips
            | PackFault::ShortFiles
            | PackFault::OutsideMemory => Layer::Code,
        }
    }

    // The line of a text at fault; 0 for the whole text.
    pub fn line(&self) -> Option<usize>
        ensures { result ≡ (fault self.now).line }
    {
        match self {
            PackFault::Graph(f) => f.line(),
            _ => None,
        }
    }

    // The column of the token at fault, if the fault tells one.
    pub fn column(&self) -> Option<usize>
        ensures { result ≡ (fault self.now).column }
    {
        match self {
            PackFault::Graph(f) => f.column(),
            _ => None,
        }
    }
}
