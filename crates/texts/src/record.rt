// A text read line by line into a record.
ghost use Rattle.std.specs.Prelude.{◌≡◌, Ok};
ghost use Rattle.model.specs.Questions.{Rules, reading, first_no, unless};
ghost use Rattle.texts.specs.Seen.{told, answered, line_step};

use crate::fault::TextFault;
use reader::lines::Lines;

// The most bytes of a text.
const MOST_BYTES: usize = 4096;

// What a text has said so far.
pub trait Record: Copy {
    ghost Seen: { Type 0 };

    ghost seen: { Self → Seen };

    ghost rules: { Rules Seen };

    // Nothing is said yet.
    fn new() -> Self
        ensures { seen result ≡ rules.start };

    // One line more, unless a question is answered no.
    fn add_line(&mut self, line: &[u8], number: usize) -> Result<(), TextFault>
        ensures { told result (seen self.new) ≡ line_step rules (seen self.old) (record { number = number; bytes = line.now }) };

    // The questions at the end.
    fn finish(&self) -> Result<(), TextFault>
        ensures { told result (seen self.now) ≡ unless (first_no (rules.ends (seen self.now))) (Ok (seen self.now)) };
}

// The record of a text, or the first question that it answers no.
pub fn read_text<R: Record>(text: &[u8]) -> Result<R, TextFault>
    ensures { answered R.seen result ≡ reading R.rules text.now }
{
    if text.len() > MOST_BYTES {
        return Err(TextFault::TooLong);
    }
    let mut said = R::new();
    for (number, line) in Lines::new(text) {
        said.add_line(line, number)?;
    }
    said.finish()?;
    Ok(said)
}
