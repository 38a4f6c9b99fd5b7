// The reading of a loop: its text, whether each name that is read is known, and its operations with their definers.
ghost use Rattle.std.specs.Prelude.{◌≡◌, ℕ, ◌+◌, ◌<◌, ◌≤◌, Bool, true, false, ◌&&◌, [], ◌∷◌, map, length, take, None, nat_lt};
ghost use Rattle.few.specs.Held.{held};
ghost use Rattle.model.specs.Shapes.{some};
ghost use Rattle.model.specs.Questions.{no_or};
ghost use Rattle.model.specs.Loop.{operands, on_operands};
ghost use Rattle.model.specs.LoopText.{known, same_name, definer as definer_of, resolved, uses_of, loop_of, read_loop};
ghost use Rattle.model.specs.Faults.{on_err, text_fault};
ghost use Rattle.texts.specs.Seen.{name_seen};
ghost use Rattle.statements.specs.Records.{statements_seen};
ghost use Rattle.statements.specs.Statements.{written_seen, use_seen, action_seen, statement_seen, all_seen};
ghost use Rattle.dependence.specs.Operations.{operand_seen, operation_seen, operations_seen};
ghost use Rattle.dependence.specs.Loops.{loop_answered, loop_seen};
ghost use Rattle.dependence.specs.Known.{uses_known, told};

use crate::fault::GraphFault;
use crate::loops::Loop;
use crate::operation::{Operand, Operation};
use few::Few;
use statements::loop_text::{defines, is_defined};
use statements::statement::{Action, Statement, Use, Written};
use statements::statements::Statements;

fn defines_above(s: &Statement, word: &[u8], line: usize) -> bool
    ensures { result ≡ (same_name word.now (statement_seen s.now).defines && nat_lt (statement_seen s.now).line line) }
{
    defines(s, word) && s.line < line
}

// Whether a line above this one defines the name.
fn is_defined_above(statements: &[Statement], word: &[u8], line: usize) -> bool
    ensures { result ≡ some (λ s. same_name word.now s.defines && nat_lt s.line line) (all_seen statements.now) }
{
    statements.iter().any(|s| defines_above(s, word, line))
}

// Whether what an operand names is known.
fn is_known(statements: &[Statement], line: usize, operand: Written) -> bool
    ensures { result ≡ known (all_seen statements.now) line (written_seen operand) }
{
    match operand {
        Written::Numeral(_) => true,
        Written::Named(name, back) => {
            if back == 0 {
                return is_defined_above(statements, name.text(), line);
            }
            is_defined(statements, name.text())
        }
    }
}

fn check_use(statements: &[Statement], u: Use) -> Result<(), GraphFault>
    ensures { told result ≡ no_or 7 (uses_known (all_seen statements.now) (use_seen u ∷ [])) None }
{
    if is_known(statements, u.line, u.operand) {
        return Ok(());
    }
    Err(GraphFault::UnknownName {
        line: u.line,
        column: u.column,
    })
}

fn check_both(statements: &[Statement], left: Use, right: Use) -> Result<(), GraphFault>
    ensures { told result ≡ no_or 7 (uses_known (all_seen statements.now) (use_seen left ∷ use_seen right ∷ [])) None }
{
    check_use(statements, left)?;
    check_use(statements, right)
}

// Whether each operand of an operation is known.
fn check_action(statements: &[Statement], action: Action) -> Result<(), GraphFault>
    ensures { told result ≡ no_or 7 (uses_known (all_seen statements.now) (operands (action_seen action))) None }
{
    match action {
        Action::Load(_) => Ok(()),
        Action::Store(value, _) => check_use(statements, value),
        Action::Binary(_, left, right) => check_both(statements, left, right),
        Action::Move(value) => check_use(statements, value),
    }
}

// The first operand, in text order, whose variable is not known.
fn check_uses(statements: &[Statement]) -> Result<(), GraphFault>
    ensures { told result ≡ no_or 7 (uses_known (all_seen statements.now) (uses_of (all_seen statements.now))) None }
{
    for s in statements {
        check_action(statements, s.action)?;
    }
    Ok(())
}

// The number of the operation that defines a name; their number if none does.
fn definer_of(statements: &[Statement], word: &[u8]) -> usize
    ensures { result ≡ definer_of (all_seen statements.now) word.now }
{
    statements
        .iter()
        .position(|s| defines(s, word))
        .unwrap_or(statements.len())
}

fn resolve_use(statements: &[Statement], u: Use) -> Operand
    ensures { operand_seen result ≡ resolved (all_seen statements.now) (use_seen u).operand }
{
    match u.operand {
        Written::Numeral(z) => Operand::Literal(z),
        Written::Named(name, distance) => Operand::Variable {
            definer: definer_of(statements, name.text()),
            distance,
        },
    }
}

fn resolve_action(statements: &[Statement], action: Action) -> Operation
    ensures { operation_seen result ≡ on_operands (λ u. resolved (all_seen statements.now) u.operand) (action_seen action) }
{
    action.map(|u| resolve_use(statements, u))
}

// The operations of all statements, each name by its definer.
fn resolve_all(statements: &Statements) -> Few<Operation, 32>
    ensures { operations_seen (held result) ≡ loop_of (statements_seen statements.now) }
{
    let said = statements.items.as_slice();
    let nothing = Operation::Move(Operand::Literal(0));
    statements
        .items
        .map(nothing, |s| resolve_action(said, s.action))
}

impl Loop {
    // The loop of a text, or the first question that it answers no.
    pub fn read(text: &[u8]) -> Result<Loop, GraphFault>
        ensures { loop_answered result ≡ on_err text_fault (read_loop text.now) }
    {
        let statements = Statements::read(text)?;
        check_uses(statements.items.as_slice())?;
        Ok(Loop {
            body: resolve_all(&statements),
        })
    }

    // The operations, in text order.
    pub fn operations(&self) -> &[Operation]
        ensures operations { operations_seen result.now ≡ loop_seen self.now }
        ensures few { length result.now ≤ 32 }
    {
        self.body.as_slice()
    }
}
