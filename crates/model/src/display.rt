// The words for codes and layers, as texts and answers write them.
ghost use Rattle.std.specs.Prelude.{Some};
ghost use Rattle.std.specs.Fmt.{padded};
ghost use Rattle.model.specs.Printed.{code_word, layer_word};

use crate::{Code, Layer};
use std::fmt;

impl fmt::Display for Code {
    ghost output = { λ code. Some (code_word code) };

    ghost styled_output = { λ code spec. Some (padded spec (code_word code)) };

    fn fmt<W: fmt::Write>(&self, f: &mut fmt::Formatter<W>) -> fmt::Result {
        f.pad(match self {
            Code::Load => "load",
            Code::Store => "store",
            Code::Add => "add",
            Code::Sub => "sub",
            Code::Mul => "mul",
            Code::Move => "move",
        })
    }
}

impl fmt::Display for Layer {
    ghost output = { λ layer. Some (layer_word layer) };

    ghost styled_output = { λ layer spec. Some (padded spec (layer_word layer)) };

    fn fmt<W: fmt::Write>(&self, f: &mut fmt::Formatter<W>) -> fmt::Result {
        f.pad(match self {
            Layer::Text => "text",
            Layer::Graph => "graph",
            Layer::Plan => "plan",
            Layer::Code => "code",
        })
    }
}
