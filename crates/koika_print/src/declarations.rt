//! Trees: declarations as text.

ghost use Rattle.std.specs.Prelude.{OnOk, ◌++◌, map};
ghost use Rattle.koika_syntax.specs.Grammar.{block_leaves, constant_leaves, declaration_leaves, field_leaves, map_leaves, member_leaves, result_leaves, type_leaves};
ghost use Rattle.koika_syntax.specs.Tree.{commas, in_braces, in_parentheses, literal_leaves, name_leaves, sign, width_leaves, word};
ghost use Rattle.koika_syntax.specs.declared.keyword.Keyword.TheVariants as keywords;
ghost use Rattle.koika_syntax.specs.declared.symbol.Symbol.TheVariants as symbols;
ghost use Rattle.koika_print.specs.inner.Printed.{Prints};

use crate::constants::constant;
use crate::expressions::block;
use crate::leaves::{comma_behind, literal, name, sign, width, word};
use crate::types::type_expression;
use koika_syntax::{
    Block, Constant, Declaration, EnumMember, Field, Keyword, Literal, Name, Symbol,
    TypeExpression, Width,
};
use kw_bits::{NoMemory, Text};

/// Writes a declaration.
pub(crate) fn declaration(out: &mut Text, of: &Declaration) -> Result<(), NoMemory>
    ensures { OnOk result (Prints out.old out.new (declaration_leaves of.now)) }
{
    match of {
        Declaration::Enum {
            name,
            width,
            members,
        } => enumeration(out, name, *width, members.as_slice()),
        Declaration::Struct { name, fields } => structure(out, name, fields.as_slice()),
        Declaration::Register { name, of, first } => register(out, name, of, first),
        Declaration::Input { name, of } => input(out, name, of),
        Declaration::Table {
            name,
            input,
            output,
            entries,
        } => table(out, name, *input, *output, entries.as_slice()),
        Declaration::Host {
            name,
            input,
            output,
        } => host(out, name, *input, *output),
        Declaration::Function {
            name,
            parameters,
            result,
            body,
        } => function(out, name, parameters.as_slice(), result, body),
        Declaration::Rule { name, body } => rule(out, name, body),
        Declaration::Assert(rule) => assertion(out, rule),
    }
}

fn enumeration(
    out: &mut Text,
    declared: &Name,
    bits: Width,
    all: &[EnumMember],
) -> Result<(), NoMemory>
    ensures { OnOk result (Prints out.old out.new
        (word keywords.Enum ++ name_leaves declared.now ++ sign symbols.Colon ++ width_leaves bits ++ in_braces (commas (map member_leaves all.now)))) }
{
    begin(out, Keyword::Enum, declared)?;
    sign(out, Symbol::Colon)?;
    width(out, bits)?;
    sign(out, Symbol::LeftBrace)?;
    members(out, all)?;
    sign(out, Symbol::RightBrace)
}

fn structure(out: &mut Text, declared: &Name, all: &[Field]) -> Result<(), NoMemory>
    ensures { OnOk result (Prints out.old out.new
        (word keywords.Struct ++ name_leaves declared.now ++ in_braces (commas (map field_leaves all.now)))) }
{
    begin(out, Keyword::Struct, declared)?;
    sign(out, Symbol::LeftBrace)?;
    fields(out, all)?;
    sign(out, Symbol::RightBrace)
}

fn register(
    out: &mut Text,
    declared: &Name,
    of: &TypeExpression,
    first: &Constant,
) -> Result<(), NoMemory>
    ensures { OnOk result (Prints out.old out.new
        (word keywords.Reg ++ name_leaves declared.now ++ sign symbols.Colon ++ type_leaves of.now ++ sign symbols.Equals ++ constant_leaves first.now ++ sign symbols.Semicolon)) }
{
    begin(out, Keyword::Reg, declared)?;
    sign(out, Symbol::Colon)?;
    type_expression(out, of)?;
    sign(out, Symbol::Equals)?;
    constant(out, first)?;
    sign(out, Symbol::Semicolon)
}

fn input(out: &mut Text, declared: &Name, of: &TypeExpression) -> Result<(), NoMemory>
    ensures { OnOk result (Prints out.old out.new
        (word keywords.Input ++ name_leaves declared.now ++ sign symbols.Colon ++ type_leaves of.now ++ sign symbols.Semicolon)) }
{
    begin(out, Keyword::Input, declared)?;
    sign(out, Symbol::Colon)?;
    type_expression(out, of)?;
    sign(out, Symbol::Semicolon)
}

fn table(
    out: &mut Text,
    declared: &Name,
    input: Width,
    output: Width,
    entries: &[Literal],
) -> Result<(), NoMemory>
    ensures { OnOk result (Prints out.old out.new
        (word keywords.Table ++ name_leaves declared.now ++ map_leaves input output ++ in_braces (commas (map literal_leaves entries.now)))) }
{
    begin(out, Keyword::Table, declared)?;
    from_to(out, input, output)?;
    sign(out, Symbol::LeftBrace)?;
    literals(out, entries)?;
    sign(out, Symbol::RightBrace)
}

fn host(out: &mut Text, declared: &Name, input: Width, output: Width) -> Result<(), NoMemory>
    ensures { OnOk result (Prints out.old out.new
        (word keywords.Host ++ name_leaves declared.now ++ map_leaves input output ++ sign symbols.Semicolon)) }
{
    begin(out, Keyword::Host, declared)?;
    from_to(out, input, output)?;
    sign(out, Symbol::Semicolon)
}

fn function(
    out: &mut Text,
    declared: &Name,
    parameters: &[Field],
    result_of: &Option<TypeExpression>,
    body: &Block,
) -> Result<(), NoMemory>
    ensures { OnOk result (Prints out.old out.new
        (word keywords.Fun ++ name_leaves declared.now ++ in_parentheses (commas (map field_leaves parameters.now)) ++ sign symbols.Colon ++ result_leaves result_of.now ++ block_leaves body.now)) }
{
    begin(out, Keyword::Fun, declared)?;
    in_parentheses(out, parameters)?;
    sign(out, Symbol::Colon)?;
    type_or_unit(out, result_of)?;
    block(out, body)
}

fn in_parentheses(out: &mut Text, parameters: &[Field]) -> Result<(), NoMemory>
    ensures { OnOk result (Prints out.old out.new (in_parentheses (commas (map field_leaves parameters.now)))) }
{
    sign(out, Symbol::LeftParenthesis)?;
    fields(out, parameters)?;
    sign(out, Symbol::RightParenthesis)
}

fn rule(out: &mut Text, declared: &Name, body: &Block) -> Result<(), NoMemory>
    ensures { OnOk result (Prints out.old out.new (word keywords.Rule ++ name_leaves declared.now ++ block_leaves body.now)) }
{
    begin(out, Keyword::Rule, declared)?;
    block(out, body)
}

fn assertion(out: &mut Text, rule: &Name) -> Result<(), NoMemory>
    ensures { OnOk result (Prints out.old out.new (word keywords.Assert ++ name_leaves rule.now ++ sign symbols.Semicolon)) }
{
    begin(out, Keyword::Assert, rule)?;
    sign(out, Symbol::Semicolon)
}

// The word of a declaration and the name after it.
fn begin(out: &mut Text, keyword: Keyword, declared: &Name) -> Result<(), NoMemory>
    ensures { OnOk result (Prints out.old out.new (word keyword ++ name_leaves declared.now)) }
{
    word(out, keyword)?;
    name(out, declared)
}

// The widths of a table or a host function.
fn from_to(out: &mut Text, input: Width, output: Width) -> Result<(), NoMemory>
    ensures { OnOk result (Prints out.old out.new (map_leaves input output)) }
{
    sign(out, Symbol::Colon)?;
    width(out, input)?;
    sign(out, Symbol::Arrow)?;
    width(out, output)
}

fn type_or_unit(out: &mut Text, of: &Option<TypeExpression>) -> Result<(), NoMemory>
    ensures { OnOk result (Prints out.old out.new (result_leaves of.now)) }
{
    match of {
        None => word(out, Keyword::Unit),
        Some(of) => type_expression(out, of),
    }
}

#[tactic(auto, unfolding(koika_syntax::specs::Tree::with_between))]
fn members(out: &mut Text, members: &[EnumMember]) -> Result<(), NoMemory>
    ensures { OnOk result (Prints out.old out.new (commas (map member_leaves members.now))) }
{
    for number in 0..members.len() {
        comma_behind(out, number)?;
        member(out, &members[number])?;
    }
    Ok(())
}

fn member(out: &mut Text, of: &EnumMember) -> Result<(), NoMemory>
    ensures { OnOk result (Prints out.old out.new (member_leaves of.now)) }
{
    name(out, &of.name)?;
    sign(out, Symbol::Equals)?;
    literal(out, of.value)
}

#[tactic(auto, unfolding(koika_syntax::specs::Tree::with_between))]
fn fields(out: &mut Text, fields: &[Field]) -> Result<(), NoMemory>
    ensures { OnOk result (Prints out.old out.new (commas (map field_leaves fields.now))) }
{
    for number in 0..fields.len() {
        comma_behind(out, number)?;
        field(out, &fields[number])?;
    }
    Ok(())
}

fn field(out: &mut Text, of: &Field) -> Result<(), NoMemory>
    ensures { OnOk result (Prints out.old out.new (field_leaves of.now)) }
{
    name(out, &of.name)?;
    sign(out, Symbol::Colon)?;
    type_expression(out, &of.of)
}

#[tactic(auto, unfolding(koika_syntax::specs::Tree::with_between))]
fn literals(out: &mut Text, literals: &[Literal]) -> Result<(), NoMemory>
    ensures { OnOk result (Prints out.old out.new (commas (map literal_leaves literals.now))) }
{
    for number in 0..literals.len() {
        comma_behind(out, number)?;
        literal(out, literals[number])?;
    }
    Ok(())
}
