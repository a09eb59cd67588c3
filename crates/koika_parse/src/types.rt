//! Trees: the reader of types.

ghost use Rattle.std.specs.Prelude.{IfOk};
ghost use Rattle.koika_syntax.specs.Grammar.{IsName, IsType, IsWidth, type_leaves};
ghost use Rattle.koika_syntax.specs.Tree.{name_leaves, width_leaves};
ghost use Rattle.koika_parse.specs.inner.Expected.{Any, Part, Takes};
ghost use Rattle.koika_parse.specs.inner.Reading.{Reads};
ghost use Rattle.koika_parse.specs.inner.Words.{ArrayTypeWord};

use crate::cursor::Cursor;
use crate::source::Source;
use crate::stop::Stop;
use koika_syntax::{Keyword, Symbol, TypeExpression};
use kw_bits::Boxed;

impl<'a> Source<'a> {
    /// Reads a type.
    #[cycle(types)]
    pub(crate) fn type_expression(&self, cursor: &mut Cursor) -> Result<TypeExpression, Stop>
        ensures read { IfOk result (λ of. Reads self.now cursor.old cursor.new (type_leaves of)) }
        ensures is { IfOk result IsType }
        ensures takes { Takes self.now cursor.old cursor.new (Part IsType type_leaves) Any result }
    {
        if self.is_at_word(cursor, Keyword::Bits) {
            return self.width_type(cursor);
        }
        if self.is_at_name(cursor) {
            return self.named_type(cursor);
        }
        self.array_type(cursor)
    }

    fn width_type(&self, cursor: &mut Cursor) -> Result<TypeExpression, Stop>
        ensures read { IfOk result (λ of. Reads self.now cursor.old cursor.new (type_leaves of)) }
        ensures is { IfOk result IsType }
        ensures takes { Takes self.now cursor.old cursor.new (Part IsWidth width_leaves) Any result }
    {
        let width = self.width(cursor)?;
        Ok(TypeExpression::Bits(width))
    }

    fn named_type(&self, cursor: &mut Cursor) -> Result<TypeExpression, Stop>
        ensures read { IfOk result (λ of. Reads self.now cursor.old cursor.new (type_leaves of)) }
        ensures is { IfOk result IsType }
        ensures takes { Takes self.now cursor.old cursor.new (Part IsName name_leaves) Any result }
    {
        let name = self.name(cursor)?;
        Ok(TypeExpression::Named(name))
    }

    // Reads `[T; N]`.
    #[cycle(types)]
    fn array_type(&self, cursor: &mut Cursor) -> Result<TypeExpression, Stop>
        ensures read { IfOk result (λ of. Reads self.now cursor.old cursor.new (type_leaves of)) }
        ensures is { IfOk result IsType }
        ensures takes { Takes self.now cursor.old cursor.new ArrayTypeWord Any result }
    {
        let place = self.sign_at(cursor, Symbol::LeftBracket)?;
        let inside = self.type_expression(cursor)?;
        let element = Boxed::new(self.alloc, inside)?;
        self.sign(cursor, Symbol::Semicolon)?;
        let length = self.number(cursor)?;
        self.sign(cursor, Symbol::RightBracket)?;
        Ok(TypeExpression::Array {
            place,
            element,
            length,
        })
    }
}
