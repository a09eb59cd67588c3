//! Trees: the reader of constants.

ghost use Rattle.std.specs.Prelude.{All, IfOk, map};
ghost use Rattle.koika_syntax.specs.Grammar.{IsConstant, LiteralFits, IsNonempty, constant_leaves};
ghost use Rattle.koika_syntax.specs.inner.Grammar.{constant_field_leaves};
ghost use Rattle.koika_syntax.specs.Tree.{commas, literal_leaves, sign};
ghost use Rattle.koika_syntax.specs.declared.symbol.Symbol.TheVariants as symbols;
ghost use Rattle.koika_parse.specs.inner.Expected.{Any, Commas, NoComma, Part, Takes};
ghost use Rattle.koika_parse.specs.inner.Reading.{Reads};
ghost use Rattle.koika_parse.specs.inner.Parts.{IsConstantField};
ghost use Rattle.koika_parse.specs.inner.Words.{ConstantArrayWord, NamedConstantWord};

use crate::cursor::Cursor;
use crate::source::Source;
use crate::stop::Stop;
use koika_syntax::{Constant, ConstantField, Symbol};
use kw_bits::Sequence;

impl<'a> Source<'a> {
    /// Reads a constant.
    #[cycle(constant)]
    pub(crate) fn constant(&self, cursor: &mut Cursor) -> Result<Constant, Stop>
        ensures read { IfOk result (λ found. Reads self.now cursor.old cursor.new (constant_leaves found)) }
        ensures is { IfOk result IsConstant }
        ensures takes { Takes self.now cursor.old cursor.new (Part IsConstant constant_leaves) Any result }
    {
        if self.is_at_name(cursor) {
            return self.named_constant(cursor);
        }
        if self.is_at_sign(cursor, Symbol::LeftBracket) {
            return self.constant_array(cursor);
        }
        self.literal_constant(cursor)
    }

    fn literal_constant(&self, cursor: &mut Cursor) -> Result<Constant, Stop>
        ensures read { IfOk result (λ found. Reads self.now cursor.old cursor.new (constant_leaves found)) }
        ensures is { IfOk result IsConstant }
        ensures takes { Takes self.now cursor.old cursor.new (Part LiteralFits literal_leaves) Any result }
    {
        let literal = self.literal(cursor)?;
        Ok(Constant::Literal(literal))
    }

    // Reads `E::M` or `S::{..}`.
    #[cycle(constant)]
    fn named_constant(&self, cursor: &mut Cursor) -> Result<Constant, Stop>
        ensures read { IfOk result (λ found. Reads self.now cursor.old cursor.new (constant_leaves found)) }
        ensures is { IfOk result IsConstant }
        ensures takes { Takes self.now cursor.old cursor.new NamedConstantWord Any result }
    {
        let of = self.name(cursor)?;
        self.sign(cursor, Symbol::ColonColon)?;
        if self.is_at_name(cursor) {
            let member = self.name(cursor)?;
            return Ok(Constant::Member { of, member });
        }
        self.sign(cursor, Symbol::LeftBrace)?;
        let fields = self.constant_fields(cursor)?;
        let close = self.sign_at(cursor, Symbol::RightBrace)?;
        Ok(Constant::Struct { of, fields, close })
    }

    // Reads fields with commas between them.
    #[cycle(constant)]
    fn constant_fields(&self, cursor: &mut Cursor) -> Result<Sequence<ConstantField>, Stop>
        ensures read { IfOk result (λ found. Reads self.now cursor.old cursor.new (commas (map constant_field_leaves found))) }
        ensures is { IfOk result (λ found. All IsConstantField found) }
        ensures some { IfOk result (λ found. IsNonempty found) }
        ensures takes { Takes self.now cursor.old cursor.new (Commas IsConstantField constant_field_leaves) (NoComma Any) result }
    {
        let mut all = Sequence::new(self.alloc);
        let first = self.constant_field(cursor)?;
        all.push(first)?;
        'more: while self.is_at_sign(cursor, Symbol::Comma) {
            self.sign(cursor, Symbol::Comma)?;
            let next = self.constant_field(cursor)?;
            all.push(next)?;
        }
        Ok(all)
    }

    #[cycle(constant)]
    fn constant_field(&self, cursor: &mut Cursor) -> Result<ConstantField, Stop>
        ensures read { IfOk result (λ found. Reads self.now cursor.old cursor.new (constant_field_leaves found)) }
        ensures is { IfOk result IsConstantField }
        ensures takes { Takes self.now cursor.old cursor.new (Part IsConstantField constant_field_leaves) Any result }
    {
        let name = self.name(cursor)?;
        self.sign(cursor, Symbol::Colon)?;
        let value = self.constant(cursor)?;
        Ok(ConstantField { name, value })
    }

    #[cycle(constant)]
    fn constant_array(&self, cursor: &mut Cursor) -> Result<Constant, Stop>
        ensures read { IfOk result (λ found. Reads self.now cursor.old cursor.new (constant_leaves found)) }
        ensures is { IfOk result IsConstant }
        ensures takes { Takes self.now cursor.old cursor.new ConstantArrayWord Any result }
    {
        let place = self.sign_at(cursor, Symbol::LeftBracket)?;
        let elements = self.constants(cursor)?;
        self.sign(cursor, Symbol::RightBracket)?;
        Ok(Constant::Array { place, elements })
    }

    // Reads constants with commas between them.
    #[cycle(constant)]
    fn constants(&self, cursor: &mut Cursor) -> Result<Sequence<Constant>, Stop>
        ensures read { IfOk result (λ found. Reads self.now cursor.old cursor.new (commas (map constant_leaves found))) }
        ensures is { IfOk result (λ found. All IsConstant found) }
        ensures some { IfOk result (λ found. IsNonempty found) }
        ensures takes { Takes self.now cursor.old cursor.new (Commas IsConstant constant_leaves) (NoComma Any) result }
    {
        let mut all = Sequence::new(self.alloc);
        let first = self.constant(cursor)?;
        all.push(first)?;
        'more: while self.is_at_sign(cursor, Symbol::Comma) {
            self.sign(cursor, Symbol::Comma)?;
            let next = self.constant(cursor)?;
            all.push(next)?;
        }
        Ok(all)
    }
}
