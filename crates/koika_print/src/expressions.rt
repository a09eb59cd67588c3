//! Trees: expressions, blocks and statements as text.

ghost use Rattle.std.specs.Prelude.{ℕ, OnOk, ◌++◌, map};
ghost use Rattle.koika_syntax.specs.Grammar.{block_leaves, call_leaves, last_leaves, struct_leaves};
ghost use Rattle.koika_syntax.specs.inner.Grammar.{arm_leaves, expression_leaves, field_value_leaves, operand_leaves, statement_leaves};
ghost use Rattle.koika_syntax.specs.Tree.{all_of, commas, in_parentheses, with_between, name_leaves, sign, word};
ghost use Rattle.koika_syntax.specs.declared.symbol.Symbol.TheVariants as symbols;
ghost use Rattle.koika_syntax.specs.declared.keyword.Keyword.TheVariants as keywords;
ghost use Rattle.koika_print.specs.inner.Printed.{Prints};

use crate::leaves::{comma_behind, else_behind, literal, name, sign, word};
use crate::primaries::{extend, pack, prefixed, read, replaced, suffixed, unpack, write};
use koika_syntax::{Arm, Block, Expression, FieldValue, Keyword, Name, Operand, Statement, Symbol};
use kw_bits::{Boxed, NoMemory, Text};

/// Writes an expression.
#[cycle(expression)]
#[tactic(auto, using(crate::proofs::Printing::printing_expressions), unfolding(koika_syntax::specs::inner::Grammar::expression_leaves))]
pub(crate) fn expression(out: &mut Text, value: &Expression) -> Result<(), NoMemory>
    ensures { OnOk result (Prints out.old out.new (expression_leaves value.now)) }
{
    match value {
        Expression::If { arms, otherwise } => {
            arm_run(out, arms.as_slice())?;
            last_arm(out, otherwise)
        }
        Expression::Chain { first, rest } => {
            expression(out, first.get())?;
            operand_run(out, rest.as_slice())
        }
        Expression::Unary { prefixes, operand } => prefixed(out, prefixes, operand.get()),
        Expression::Postfix { primary, suffixes } => suffixed(out, primary.get(), suffixes),
        Expression::Literal(bits) => literal(out, *bits),
        Expression::Name(local) => name(out, local),
        Expression::Call { called, arguments } => call(out, called, arguments.as_slice()),
        Expression::Member { of, member } => member_of(out, of, member),
        Expression::Struct {
            of,
            fields,
            close: _,
        } => struct_of(out, of, fields.as_slice()),
        Expression::Array { place: _, elements } => array(out, elements.as_slice()),
        Expression::Parentheses { place: _, inside } => parentheses(out, inside.get()),
        Expression::Block(inside) => block(out, inside),
        Expression::Read {
            place: _,
            port,
            register,
        } => read(out, *port, register),
        Expression::Write {
            place: _,
            port,
            register,
            value,
        } => write(out, *port, register, value.get()),
        Expression::Abort { place: _ } => word(out, Keyword::Abort),
        Expression::Pack { place: _, value } => pack(out, value.get()),
        Expression::Unpack {
            place: _,
            to,
            value,
        } => unpack(out, value.get(), to),
        Expression::Extend {
            place: _,
            extension,
            value,
            width,
        } => extend(out, *extension, value.get(), *width),
        Expression::Compare {
            place: _,
            comparison,
            left,
            right,
        } => {
            first_argument(out, comparison.word(), left)?;
            last_argument(out, right)
        }
        Expression::Update {
            place: _,
            whole,
            part,
            value,
        } => {
            first_argument(out, Keyword::Update, whole)?;
            replaced(out, part)?;
            last_argument(out, value)
        }
    }
}

#[cycle(expression)]
#[tactic(auto, unfolding(koika_syntax::specs::Tree::with_between))]
fn arm_run(out: &mut Text, arms: &[Arm]) -> Result<(), NoMemory>
    ensures { OnOk result (Prints out.old out.new (with_between (word keywords.Else) (map arm_leaves arms.now))) }
{
    for number in 0..arms.len() {
        else_behind(out, number)?;
        arm(out, &arms[number])?;
    }
    Ok(())
}

#[cycle(expression)]
fn last_arm(out: &mut Text, otherwise: &Option<Block>) -> Result<(), NoMemory>
    ensures { OnOk result (Prints out.old out.new (last_leaves otherwise.now (λ block. word keywords.Else ++ block_leaves block))) }
{
    match otherwise {
        None => Ok(()),
        Some(last) => {
            word(out, Keyword::Else)?;
            block(out, last)
        }
    }
}

#[cycle(expression)]
#[tactic(auto, using(crate::proofs::Printing::printing_expressions))]
fn arm(out: &mut Text, of: &Arm) -> Result<(), NoMemory>
    ensures { OnOk result (Prints out.old out.new (arm_leaves of.now)) }
{
    word(out, Keyword::If)?;
    expression(out, &of.condition)?;
    block(out, &of.body)
}

#[cycle(expression)]
fn operand_run(out: &mut Text, operands: &[Operand]) -> Result<(), NoMemory>
    ensures { OnOk result (Prints out.old out.new (all_of (map operand_leaves operands.now))) }
{
    for one in operands {
        operand(out, one)?;
    }
    Ok(())
}

#[cycle(expression)]
#[tactic(auto, using(crate::proofs::Printing::printing_expressions))]
fn operand(out: &mut Text, of: &Operand) -> Result<(), NoMemory>
    ensures { OnOk result (Prints out.old out.new (operand_leaves of.now)) }
{
    sign(out, of.operator.symbol())?;
    expression(out, &of.operand)
}

#[cycle(expression)]
fn call(out: &mut Text, called: &Name, arguments: &[Expression]) -> Result<(), NoMemory>
    ensures { OnOk result (Prints out.old out.new (call_leaves (name_leaves called.now) (map expression_leaves arguments.now))) }
{
    name(out, called)?;
    sign(out, Symbol::LeftParenthesis)?;
    values(out, arguments)?;
    sign(out, Symbol::RightParenthesis)
}

#[cycle(expression)]
#[tactic(auto, unfolding(koika_syntax::specs::Tree::with_between))]
fn values(out: &mut Text, values: &[Expression]) -> Result<(), NoMemory>
    ensures { OnOk result (Prints out.old out.new (commas (map expression_leaves values.now))) }
{
    for number in 0..values.len() {
        comma_behind(out, number)?;
        expression(out, &values[number])?;
    }
    Ok(())
}

fn member_of(out: &mut Text, of: &Name, member: &Name) -> Result<(), NoMemory>
    ensures { OnOk result (Prints out.old out.new (name_leaves of.now ++ sign symbols.ColonColon ++ name_leaves member.now)) }
{
    name(out, of)?;
    sign(out, Symbol::ColonColon)?;
    name(out, member)
}

#[cycle(expression)]
fn struct_of(out: &mut Text, of: &Name, fields: &[FieldValue]) -> Result<(), NoMemory>
    ensures { OnOk result ((close : ℕ) → Prints out.old out.new (struct_leaves of.now (map field_value_leaves fields.now) close)) }
{
    name(out, of)?;
    sign(out, Symbol::ColonColon)?;
    sign(out, Symbol::LeftBrace)?;
    field_values(out, fields)?;
    sign(out, Symbol::RightBrace)
}

#[cycle(expression)]
#[tactic(auto, unfolding(koika_syntax::specs::Tree::with_between))]
fn field_values(out: &mut Text, fields: &[FieldValue]) -> Result<(), NoMemory>
    ensures { OnOk result (Prints out.old out.new (commas (map field_value_leaves fields.now))) }
{
    for number in 0..fields.len() {
        comma_behind(out, number)?;
        field_value(out, &fields[number])?;
    }
    Ok(())
}

#[cycle(expression)]
#[tactic(auto, using(crate::proofs::Printing::printing_expressions))]
fn field_value(out: &mut Text, field: &FieldValue) -> Result<(), NoMemory>
    ensures { OnOk result (Prints out.old out.new (field_value_leaves field.now)) }
{
    name(out, &field.name)?;
    sign(out, Symbol::Colon)?;
    expression(out, &field.value)
}

#[cycle(expression)]
fn array(out: &mut Text, elements: &[Expression]) -> Result<(), NoMemory>
    ensures { OnOk result (Prints out.old out.new
        (sign symbols.LeftBracket ++ commas (map expression_leaves elements.now) ++ sign symbols.RightBracket)) }
{
    sign(out, Symbol::LeftBracket)?;
    values(out, elements)?;
    sign(out, Symbol::RightBracket)
}

// Writes a word, and its first argument with the comma after it.
#[cycle(expression)]
fn first_argument(
    out: &mut Text,
    called: Keyword,
    value: &Boxed<Expression>,
) -> Result<(), NoMemory>
    ensures { OnOk result (Prints out.old out.new
        (word called ++ sign symbols.LeftParenthesis ++ expression_leaves value.now ++ sign symbols.Comma)) }
{
    word(out, called)?;
    sign(out, Symbol::LeftParenthesis)?;
    expression(out, value.get())?;
    sign(out, Symbol::Comma)
}

#[cycle(expression)]
fn last_argument(out: &mut Text, value: &Boxed<Expression>) -> Result<(), NoMemory>
    ensures { OnOk result (Prints out.old out.new (expression_leaves value.now ++ sign symbols.RightParenthesis)) }
{
    expression(out, value.get())?;
    sign(out, Symbol::RightParenthesis)
}

#[cycle(expression)]
fn parentheses(out: &mut Text, inside: &Expression) -> Result<(), NoMemory>
    ensures { OnOk result (Prints out.old out.new (in_parentheses (expression_leaves inside.now))) }
{
    sign(out, Symbol::LeftParenthesis)?;
    expression(out, inside)?;
    sign(out, Symbol::RightParenthesis)
}

/// Writes a block.
#[cycle(expression)]
#[tactic(auto, using(crate::proofs::Printing::printing_expressions))]
pub(crate) fn block(out: &mut Text, of: &Block) -> Result<(), NoMemory>
    ensures { OnOk result (Prints out.old out.new (block_leaves of.now)) }
{
    sign(out, Symbol::LeftBrace)?;
    statement_run(out, of.statements.as_slice())?;
    last(out, &of.value)?;
    sign(out, Symbol::RightBrace)
}

#[cycle(expression)]
fn last(out: &mut Text, value: &Option<Boxed<Expression>>) -> Result<(), NoMemory>
    ensures { OnOk result (Prints out.old out.new (last_leaves value.now expression_leaves)) }
{
    match value {
        None => Ok(()),
        Some(last) => expression(out, last.get()),
    }
}

#[cycle(expression)]
fn statement_run(out: &mut Text, statements: &[Statement]) -> Result<(), NoMemory>
    ensures { OnOk result (Prints out.old out.new (all_of (map statement_leaves statements.now))) }
{
    for one in statements {
        statement(out, one)?;
    }
    Ok(())
}

#[cycle(expression)]
#[tactic(auto, using(crate::proofs::Printing::printing_expressions), unfolding(koika_syntax::specs::inner::Grammar::statement_leaves, koika_syntax::specs::inner::Grammar::expression_leaves))]
fn statement(out: &mut Text, of: &Statement) -> Result<(), NoMemory>
    ensures { OnOk result (Prints out.old out.new (statement_leaves of.now)) }
{
    match of {
        Statement::Let { name: bound, value } => binding(out, bound, value),
        Statement::Do(value) => {
            expression(out, value)?;
            sign(out, Symbol::Semicolon)
        }
    }
}

#[cycle(expression)]
fn binding(out: &mut Text, bound: &Name, value: &Expression) -> Result<(), NoMemory>
    ensures { OnOk result (Prints out.old out.new
        (word keywords.Let ++ name_leaves bound.now ++ sign symbols.Equals ++ expression_leaves value.now ++ sign symbols.Semicolon)) }
{
    word(out, Keyword::Let)?;
    name(out, bound)?;
    sign(out, Symbol::Equals)?;
    expression(out, value)?;
    sign(out, Symbol::Semicolon)
}
