// The reading of the loop text, but for the question whether each name that is read is known.
ghost use Rattle.std.specs.Prelude.{◌≡◌, List, [], ◌∷◌, Some, None, Ok};
ghost use Rattle.few.specs.Held.{held};
ghost use Rattle.model.specs.Questions.{unless, no_or};
ghost use Rattle.model.specs.LoopText.{Statement as StatementSaid, checks_by, operation_by, operand_check, use_of, is_defined, same_name, statement_rules, memory_operations, defined_by, name_in, named_by};
ghost use Rattle.model.specs.Loop.{binary, move};
ghost use Rattle.reader.specs.Seen.{operand_seen};
ghost use Rattle.texts.specs.Seen.{told, answered};
ghost use Rattle.statements.specs.Records.{statements_seen};
ghost use Rattle.statements.specs.Statements.{action_seen, in_range_or, statement_seen, all_seen, defined_seen, push_step, form_step};
ghost use Rattle.statements.specs.Forms.{code_in, tokens_in, word_lexemes};

use crate::forms::Form;
use crate::loop_form::find_loop_form;
use crate::operands::{cell_of, use_of};
use crate::statement::{Action, Statement, Use, Written};
use crate::statements::Statements;
use few::Few;
use model::Operator;
use reader::row::row_of;
use reader::shapes::all_between;
use reader::token::{Operand, Word};
use reader::words::is_reserved;
use texts::fault::TextFault;
use texts::name::Name;
use texts::record::Record;

// The most loads and stores of a loop.
const MOST_IN_MEMORY: usize = 16;

// A sum, a difference or a product.
fn binary_of(operator: Operator, left: Operand<'_>, right: Operand<'_>) -> Result<Action, TextFault>
    ensures { answered action_seen result ≡ in_range_or (operand_check (operand_seen left.entry) ∷ operand_check (operand_seen right.entry) ∷ []) (Ok (binary operator (use_of (operand_seen left.entry)) (use_of (operand_seen right.entry)))) }
{
    Ok(Action::Binary(operator, use_of(left)?, use_of(right)?))
}

fn move_of(value: Operand<'_>) -> Result<Action, TextFault>
    ensures { answered action_seen result ≡ in_range_or (operand_check (operand_seen value.entry) ∷ []) (Ok (move (use_of (operand_seen value.entry)))) }
{
    Ok(Action::Move(use_of(value)?))
}

// What a line does, unless a number is out of range.
fn action_of(form: Form<'_>) -> Result<Action, TextFault>
    ensures { answered action_seen result ≡ in_range_or (checks_by (code_in form.entry) (tokens_in form.entry)) (Ok (operation_by (code_in form.entry) (tokens_in form.entry))) }
{
    match form {
        Form::Load(_, place) => Ok(Action::Load(cell_of(place)?)),
        Form::Store(value, place) => Ok(Action::Store(use_of(value)?, cell_of(place)?)),
        Form::Binary(_, operator, left, right) => binary_of(operator, left, right),
        Form::Move(_, value) => move_of(value),
    }
}

pub fn defines(s: &Statement, word: &[u8]) -> bool
    ensures { result ≡ same_name word.now (statement_seen s.now).defines }
{
    s.defines.is_some_and(|name| word == name.text())
}

// Whether a statement defines this name.
pub fn is_defined(statements: &[Statement], word: &[u8]) -> bool
    ensures { result ≡ is_defined (all_seen statements.now) word.now }
{
    statements.iter().any(|s| defines(s, word))
}

// The word that a line defines; a store defines none.
fn defined_word<'a>(form: Form<'a>) -> Option<Word<'a>>
    ensures { word_lexemes result ≡ defined_by (code_in form.entry) (tokens_in form.entry) }
{
    match form {
        Form::Load(word, _) | Form::Binary(word, ..) | Form::Move(word, _) => Some(word),
        Form::Store(..) => None,
    }
}

// The name that a line defines, unless it is reserved or taken.
fn name_for(form: Form<'_>, statements: &[Statement]) -> Result<Option<Name>, TextFault>
    ensures { answered defined_seen result ≡ unless (no_or 4 (named_by (all_seen statements.now) (Some (code_in form.entry)) (tokens_in form.entry)) None) (Ok (name_in (defined_by (code_in form.entry) (tokens_in form.entry)))) }
{
    let Some(word) = defined_word(form) else {
        return Ok(None);
    };
    let text = word.part.text;
    if is_reserved(text) || is_defined(statements, text) {
        return Err(TextFault::wrong_name(word.part));
    }
    Ok(Some(Name::from(word)))
}

// One statement more, unless there is no room for it.
fn push(m: &mut Statements, s: Statement) -> Result<(), TextFault>
    ensures { told result (all_seen (held m.new.items)) ≡ push_step (all_seen (held m.old.items)) (statement_seen s) }
{
    let fault = TextFault::ManyOperations { line: s.line };
    let touches = m.in_memory + usize::from(s.action.cell().is_some());
    if touches > MOST_IN_MEMORY {
        return Err(fault);
    }
    m.items.push(s).map_err(|_| fault)?;
    m.in_memory = touches;
    Ok(())
}

// A line that has a form.
fn form_line(m: &mut Statements, line: usize, form: Form<'_>) -> Result<(), TextFault>
    ensures { told result (all_seen (held m.new.items)) ≡ form_step (all_seen (held m.old.items)) line (code_in form.entry) (tokens_in form.entry) }
{
    let action = action_of(form)?;
    let defines = name_for(form, m.items.as_slice())?;
    push(
        m,
        Statement {
            line,
            defines,
            action,
        },
    )
}

impl Record for Statements {
    ghost Seen = { List StatementSaid };

    ghost seen = { statements_seen };

    ghost rules = { statement_rules };

    // Written out where it is called, as the list is.
    #[inline(always)]
    fn new() -> Statements {
        let unsaid = Statement {
            line: 0,
            defines: None,
            action: Action::Move(Use {
                operand: Written::Numeral(0),
                line: 0,
                column: 0,
            }),
        };
        Statements {
            items: Few::new(unsaid),
            in_memory: 0,
        }
    }

    fn add_line(&mut self, line: &[u8], number: usize) -> Result<(), TextFault> {
        if !all_between(line, 32, 126) {
            return Err(TextFault::Unprintable { line: number });
        }
        let row = &row_of(line, number);
        let row = row.as_slice();
        if row.is_empty() {
            return Ok(());
        }
        if let Some(form) = find_loop_form(row) {
            return form_line(self, number, form);
        }
        Err(TextFault::NoForm { line: number })
    }

    // Whether there is an operation.
    fn finish(&self) -> Result<(), TextFault> {
        if self.items.as_slice().is_empty() {
            return Err(TextFault::NoOperation);
        }
        Ok(())
    }
}
