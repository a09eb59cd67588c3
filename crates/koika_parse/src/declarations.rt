//! Trees: the reader of declarations.

ghost use Rattle.std.specs.Prelude.{◌≡◌, ◌<◌, ◌++◌, All, IfOk, OnOk, IfSome, Some, map};
ghost use Rattle.koika_syntax.specs.Grammar.{IsDeclaration, IsField, LiteralFits, IsMember, IsName, IsNonempty, IsType, declaration_leaves, field_leaves, member_leaves, result_leaves};
ghost use Rattle.koika_syntax.specs.Tree.{commas, keyword, literal_leaves, name_leaves, word};
ghost use Rattle.koika_parse.specs.inner.Expected.{Any, Commas, NoComma, One, Part, Takes, Then};
ghost use Rattle.koika_parse.specs.inner.ExpressionWords.{parenthesis_follows};
ghost use Rattle.koika_parse.specs.inner.Reading.{Reads, next, tokens_left};
ghost use Rattle.koika_parse.specs.inner.Words.{AssertWord, EnumWord, FunctionWord, HostWord, InputWord, ParametersWord, RegisterWord, ResultWord, RuleWord, StructWord, TableWord};

use crate::cursor::Cursor;
use crate::source::Source;
use crate::stop::{Stop, Unread};
use koika_syntax::{
    Declaration, EnumMember, Field, Keyword, Literal, Name, Symbol, TypeExpression, Width,
};
use kw_bits::{Failure, Sequence};

impl<'a> Source<'a> {
    /// Reads a declaration.
    pub(crate) fn declaration(&self, cursor: &mut Cursor) -> Result<Declaration, Stop>
        ensures read { IfOk result (λ found. Reads self.now cursor.old cursor.new (declaration_leaves found)) }
        ensures is { IfOk result IsDeclaration }
        ensures some { OnOk result (tokens_left self.now cursor.new < tokens_left self.now cursor.old) }
        ensures takes { Takes self.now cursor.old cursor.new (Part IsDeclaration declaration_leaves) Any result }
    {
        match self.keyword_at(cursor) {
            Some(begin) => self.begun_declaration(cursor, begin),
            None => Err(Failure::Why(Unread::Unexpected)),
        }
    }

    // Reads a declaration that begins with this keyword.
    fn begun_declaration(&self, cursor: &mut Cursor, begin: Keyword) -> Result<Declaration, Stop>
        requires { next self.now cursor.old ≡ Some (keyword begin) }
        ensures read { IfOk result (λ found. Reads self.now cursor.old cursor.new (declaration_leaves found)) }
        ensures is { IfOk result IsDeclaration }
        ensures some { OnOk result (tokens_left self.now cursor.new < tokens_left self.now cursor.old) }
        ensures takes { Takes self.now cursor.old cursor.new (Part IsDeclaration declaration_leaves) Any result }
    {
        match begin {
            Keyword::Enum => self.enum_declaration(cursor),
            Keyword::Struct => self.struct_declaration(cursor),
            Keyword::Reg => self.register_declaration(cursor),
            Keyword::Input => self.input_declaration(cursor),
            Keyword::Table => self.table_declaration(cursor),
            Keyword::Host => self.host_declaration(cursor),
            Keyword::Fun => self.function_declaration(cursor),
            Keyword::Rule => self.rule_declaration(cursor),
            Keyword::Assert => self.assert_declaration(cursor),
            _ => Err(Failure::Why(Unread::Unexpected)),
        }
    }

    // Reads the word of a declaration and the name after it.
    fn declared(&self, cursor: &mut Cursor, begin: Keyword) -> Result<Name, Stop>
        ensures read { IfOk result (λ found. Reads self.now cursor.old cursor.new (word begin ++ name_leaves found)) }
        ensures is { IfOk result IsName }
        ensures takes { Takes self.now cursor.old cursor.new (Then (One (keyword begin)) (Part IsName name_leaves)) Any result }
    {
        self.word(cursor, begin)?;
        let name = self.name(cursor)?;
        Ok(name)
    }

    fn enum_declaration(&self, cursor: &mut Cursor) -> Result<Declaration, Stop>
        ensures read { IfOk result (λ found. Reads self.now cursor.old cursor.new (declaration_leaves found)) }
        ensures is { IfOk result IsDeclaration }
        ensures some { OnOk result (tokens_left self.now cursor.new < tokens_left self.now cursor.old) }
        ensures takes { Takes self.now cursor.old cursor.new EnumWord Any result }
    {
        let name = self.declared(cursor, Keyword::Enum)?;
        self.sign(cursor, Symbol::Colon)?;
        let width = self.width(cursor)?;
        self.sign(cursor, Symbol::LeftBrace)?;
        let members = self.members(cursor)?;
        self.sign(cursor, Symbol::RightBrace)?;
        Ok(Declaration::Enum {
            name,
            width,
            members,
        })
    }

    fn members(&self, cursor: &mut Cursor) -> Result<Sequence<EnumMember>, Stop>
        ensures read { IfOk result (λ found. Reads self.now cursor.old cursor.new (commas (map member_leaves found))) }
        ensures is { IfOk result (λ found. All IsMember found) }
        ensures some { IfOk result (λ found. IsNonempty found) }
        ensures takes { Takes self.now cursor.old cursor.new (Commas IsMember member_leaves) (NoComma Any) result }
    {
        let mut all = Sequence::new(self.alloc);
        let first = self.member(cursor)?;
        all.push(first)?;
        'more: while self.is_at_sign(cursor, Symbol::Comma) {
            self.sign(cursor, Symbol::Comma)?;
            let next = self.member(cursor)?;
            all.push(next)?;
        }
        Ok(all)
    }

    fn member(&self, cursor: &mut Cursor) -> Result<EnumMember, Stop>
        ensures read { IfOk result (λ found. Reads self.now cursor.old cursor.new (member_leaves found)) }
        ensures is { IfOk result IsMember }
        ensures takes { Takes self.now cursor.old cursor.new (Part IsMember member_leaves) Any result }
    {
        let name = self.name(cursor)?;
        self.sign(cursor, Symbol::Equals)?;
        let value = self.literal(cursor)?;
        Ok(EnumMember { name, value })
    }

    fn struct_declaration(&self, cursor: &mut Cursor) -> Result<Declaration, Stop>
        ensures read { IfOk result (λ found. Reads self.now cursor.old cursor.new (declaration_leaves found)) }
        ensures is { IfOk result IsDeclaration }
        ensures some { OnOk result (tokens_left self.now cursor.new < tokens_left self.now cursor.old) }
        ensures takes { Takes self.now cursor.old cursor.new StructWord Any result }
    {
        let name = self.declared(cursor, Keyword::Struct)?;
        self.sign(cursor, Symbol::LeftBrace)?;
        let fields = self.fields(cursor)?;
        self.sign(cursor, Symbol::RightBrace)?;
        Ok(Declaration::Struct { name, fields })
    }

    fn fields(&self, cursor: &mut Cursor) -> Result<Sequence<Field>, Stop>
        ensures read { IfOk result (λ found. Reads self.now cursor.old cursor.new (commas (map field_leaves found))) }
        ensures is { IfOk result (λ found. All IsField found) }
        ensures some { IfOk result (λ found. IsNonempty found) }
        ensures takes { Takes self.now cursor.old cursor.new (Commas IsField field_leaves) (NoComma Any) result }
    {
        let mut all = Sequence::new(self.alloc);
        let first = self.field(cursor)?;
        all.push(first)?;
        'more: while self.is_at_sign(cursor, Symbol::Comma) {
            self.sign(cursor, Symbol::Comma)?;
            let next = self.field(cursor)?;
            all.push(next)?;
        }
        Ok(all)
    }

    fn field(&self, cursor: &mut Cursor) -> Result<Field, Stop>
        ensures read { IfOk result (λ found. Reads self.now cursor.old cursor.new (field_leaves found)) }
        ensures is { IfOk result IsField }
        ensures takes { Takes self.now cursor.old cursor.new (Part IsField field_leaves) Any result }
    {
        let name = self.name(cursor)?;
        self.sign(cursor, Symbol::Colon)?;
        let of = self.type_expression(cursor)?;
        Ok(Field { name, of })
    }

    fn register_declaration(&self, cursor: &mut Cursor) -> Result<Declaration, Stop>
        ensures read { IfOk result (λ found. Reads self.now cursor.old cursor.new (declaration_leaves found)) }
        ensures is { IfOk result IsDeclaration }
        ensures some { OnOk result (tokens_left self.now cursor.new < tokens_left self.now cursor.old) }
        ensures takes { Takes self.now cursor.old cursor.new RegisterWord Any result }
    {
        let name = self.declared(cursor, Keyword::Reg)?;
        self.sign(cursor, Symbol::Colon)?;
        let of = self.type_expression(cursor)?;
        self.sign(cursor, Symbol::Equals)?;
        let first = self.constant(cursor)?;
        self.sign(cursor, Symbol::Semicolon)?;
        Ok(Declaration::Register { name, of, first })
    }

    fn input_declaration(&self, cursor: &mut Cursor) -> Result<Declaration, Stop>
        ensures read { IfOk result (λ found. Reads self.now cursor.old cursor.new (declaration_leaves found)) }
        ensures is { IfOk result IsDeclaration }
        ensures some { OnOk result (tokens_left self.now cursor.new < tokens_left self.now cursor.old) }
        ensures takes { Takes self.now cursor.old cursor.new InputWord Any result }
    {
        let name = self.declared(cursor, Keyword::Input)?;
        self.sign(cursor, Symbol::Colon)?;
        let of = self.type_expression(cursor)?;
        self.sign(cursor, Symbol::Semicolon)?;
        Ok(Declaration::Input { name, of })
    }

    fn table_declaration(&self, cursor: &mut Cursor) -> Result<Declaration, Stop>
        ensures read { IfOk result (λ found. Reads self.now cursor.old cursor.new (declaration_leaves found)) }
        ensures is { IfOk result IsDeclaration }
        ensures some { OnOk result (tokens_left self.now cursor.new < tokens_left self.now cursor.old) }
        ensures takes { Takes self.now cursor.old cursor.new TableWord Any result }
    {
        let name = self.declared(cursor, Keyword::Table)?;
        self.sign(cursor, Symbol::Colon)?;
        let input = self.width(cursor)?;
        self.sign(cursor, Symbol::Arrow)?;
        let output = self.width(cursor)?;
        self.sign(cursor, Symbol::LeftBrace)?;
        let entries = self.literals(cursor)?;
        self.sign(cursor, Symbol::RightBrace)?;
        Ok(Declaration::Table {
            name,
            input,
            output,
            entries,
        })
    }

    fn literals(&self, cursor: &mut Cursor) -> Result<Sequence<Literal>, Stop>
        ensures read { IfOk result (λ found. Reads self.now cursor.old cursor.new (commas (map literal_leaves found))) }
        ensures is { IfOk result (λ found. All LiteralFits found) }
        ensures some { IfOk result (λ found. IsNonempty found) }
        ensures takes { Takes self.now cursor.old cursor.new (Commas LiteralFits literal_leaves) (NoComma Any) result }
    {
        let mut all = Sequence::new(self.alloc);
        let first = self.literal(cursor)?;
        all.push(first)?;
        'more: while self.is_at_sign(cursor, Symbol::Comma) {
            self.sign(cursor, Symbol::Comma)?;
            let next = self.literal(cursor)?;
            all.push(next)?;
        }
        Ok(all)
    }

    fn host_declaration(&self, cursor: &mut Cursor) -> Result<Declaration, Stop>
        ensures read { IfOk result (λ found. Reads self.now cursor.old cursor.new (declaration_leaves found)) }
        ensures is { IfOk result IsDeclaration }
        ensures some { OnOk result (tokens_left self.now cursor.new < tokens_left self.now cursor.old) }
        ensures takes { Takes self.now cursor.old cursor.new HostWord Any result }
    {
        let name = self.declared(cursor, Keyword::Host)?;
        self.sign(cursor, Symbol::Colon)?;
        let input = self.width(cursor)?;
        self.sign(cursor, Symbol::Arrow)?;
        let output = self.width(cursor)?;
        self.sign(cursor, Symbol::Semicolon)?;
        Ok(Declaration::Host {
            name,
            input,
            output,
        })
    }

    fn function_declaration(&self, cursor: &mut Cursor) -> Result<Declaration, Stop>
        ensures read { IfOk result (λ found. Reads self.now cursor.old cursor.new (declaration_leaves found)) }
        ensures is { IfOk result IsDeclaration }
        ensures some { OnOk result (tokens_left self.now cursor.new < tokens_left self.now cursor.old) }
        ensures takes { Takes self.now cursor.old cursor.new FunctionWord Any result }
    {
        let name = self.declared(cursor, Keyword::Fun)?;
        self.sign(cursor, Symbol::LeftParenthesis)?;
        let parameters = self.parameters(cursor)?;
        self.sign(cursor, Symbol::RightParenthesis)?;
        self.sign(cursor, Symbol::Colon)?;
        let result = self.result(cursor)?;
        let body = self.block(cursor)?;
        Ok(Declaration::Function {
            name,
            parameters,
            result,
            body,
        })
    }

    fn parameters(&self, cursor: &mut Cursor) -> Result<Sequence<Field>, Stop>
        ensures read { IfOk result (λ found. Reads self.now cursor.old cursor.new (commas (map field_leaves found))) }
        ensures is { IfOk result (λ found. All IsField found) }
        ensures takes { Takes self.now cursor.old cursor.new ParametersWord parenthesis_follows result }
    {
        if !self.is_at_name(cursor) {
            let none = Sequence::new(self.alloc);
            return Ok(none);
        }
        self.fields(cursor)
    }

    // Reads a type or `unit`.
    fn result(&self, cursor: &mut Cursor) -> Result<Option<TypeExpression>, Stop>
        ensures read { IfOk result (λ found. Reads self.now cursor.old cursor.new (result_leaves found)) }
        ensures is { IfOk result (λ found. IfSome found IsType) }
        ensures takes { Takes self.now cursor.old cursor.new ResultWord Any result }
    {
        if self.is_at_word(cursor, Keyword::Unit) {
            self.word(cursor, Keyword::Unit)?;
            return Ok(None);
        }
        Ok(Some(self.type_expression(cursor)?))
    }

    fn rule_declaration(&self, cursor: &mut Cursor) -> Result<Declaration, Stop>
        ensures read { IfOk result (λ found. Reads self.now cursor.old cursor.new (declaration_leaves found)) }
        ensures is { IfOk result IsDeclaration }
        ensures some { OnOk result (tokens_left self.now cursor.new < tokens_left self.now cursor.old) }
        ensures takes { Takes self.now cursor.old cursor.new RuleWord Any result }
    {
        let name = self.declared(cursor, Keyword::Rule)?;
        let body = self.block(cursor)?;
        Ok(Declaration::Rule { name, body })
    }

    fn assert_declaration(&self, cursor: &mut Cursor) -> Result<Declaration, Stop>
        ensures read { IfOk result (λ found. Reads self.now cursor.old cursor.new (declaration_leaves found)) }
        ensures is { IfOk result IsDeclaration }
        ensures some { OnOk result (tokens_left self.now cursor.new < tokens_left self.now cursor.old) }
        ensures takes { Takes self.now cursor.old cursor.new AssertWord Any result }
    {
        let name = self.declared(cursor, Keyword::Assert)?;
        self.sign(cursor, Symbol::Semicolon)?;
        Ok(Declaration::Assert(name))
    }
}
