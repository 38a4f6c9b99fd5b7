// Work over a lent memory of values, for every domain, and at words and floats.
ghost use Rattle.std.specs.Prelude.{◌≡◌, map, ◌*◌, ◌%◌, ◌^◌};
ghost use Rattle.std.specs.Float.Ieee.{mul};
ghost use Rattle.std.specs.Float.{binary64};
ghost use Rattle.model.specs.declared.Operator.TheVariants.{Times};

use crate::domain::Domain;
use crate::floats::Floats;
use crate::words::Words;

// Multiplies each cell.
pub fn scale<D: Domain>(domain: &D, factor: D::Value, cells: &mut [D::Value])
    ensures { cells.new ≡ map (λ x. D.operations.apply Times x factor) cells.old }
{
    for x in cells.iter_mut() {
        *x = domain.mul(*x, factor);
    }
}

pub fn scale_words(factor: u32, cells: &mut [u32])
    ensures { cells.new ≡ map (λ x. x * factor % 2 ^ 32) cells.old }
{
    scale(&Words, factor, cells);
}

pub fn scale_floats(factor: f64, cells: &mut [f64])
    ensures { cells.new ≡ map (λ x. mul binary64 x factor) cells.old }
{
    scale(&Floats, factor, cells);
}
