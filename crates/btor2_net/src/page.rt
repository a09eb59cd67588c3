//! Circuits: the lines of a circuit, as far as they are made.

ghost use Rattle.std.specs.Prelude.{◌≡◌, ◌∷◌, ◌++◌, ◌<◌, ◌^◌, [], IfOk, OnOk, None, length, map};
ghost use Rattle.btor2_text.specs.declared.line.Argument.TheVariants as arguments;
ghost use Rattle.btor2_net.specs.inner.PageFields.{page_of};
ghost use Rattle.btor2_net.specs.Pages as pages;

use btor2_model::Table;
use btor2_text::{Argument, Keyword, Line, Lines};
use itoa::Buffer;
use kw_bits::{Bits, NoMemory, Sequence, Text};
use std::alloc::Global;

/// The lines of a circuit so far.
#[derive(Drop)]
pub(crate) struct Page {
    pub(crate) lines: Lines,
    /// The ids of sorts, by their widths.
    sorts: Table<u64>,
}

impl Page {
    /// No lines.
    pub(crate) fn new(alloc: Global) -> Result<Page, NoMemory>
        ensures { IfOk result (λ page. page_of page ≡ pages.blank) }
    {
        Ok(Page {
            lines: Lines::new(alloc),
            sorts: Table::new(alloc, Bits::MAX_WIDTH as usize + 1)?,
        })
    }

    /// The lines, which are fewer than a number of their type can say.
    pub(crate) fn into_lines(self) -> Lines
        ensures lines { result ≡ (page_of self).lines }
        ensures few { length result < 2 ^ 64 }
    {
        let lines = self.lines;
        let _count = lines.len();
        lines
    }

    /// Adds a line, whose id it gives.
    pub(crate) fn put(
        &mut self,
        keyword: Keyword,
        given: Sequence<Argument>,
        symbol: Option<Text>,
    ) -> Result<u64, NoMemory>
        ensures page { OnOk result (page_of self.new ≡ pages.put (page_of self.old) keyword given symbol) }
        ensures id { IfOk result (λ id. id ≡ pages.next_id (page_of self.old)) }
    {
        let id = self.lines.as_slice().len() as u64 + 1;
        self.lines.push(Line {
            id,
            keyword,
            arguments: given,
            symbol,
            number: id.min(u64::from(u32::MAX)) as u32,
        })?;
        Ok(id)
    }

    /// The id of the sort of a width, which is added unless it stands already.
    fn sort(&mut self, alloc: Global, width: u32) -> Result<u64, NoMemory>
        ensures page { OnOk result (page_of self.new ≡ pages.with_sort (page_of self.old) width) }
        ensures id { IfOk result (λ id. id ≡ pages.sort_id (page_of self.new) width) }
    {
        match self.sorts.get(u64::from(width)) {
            Some(id) => Ok(id),
            None => self.add_sort(alloc, width),
        }
    }

    // Adds the sort of a width.
    fn add_sort(&mut self, alloc: Global, width: u32) -> Result<u64, NoMemory>
        ensures page { OnOk result (page_of self.new ≡ pages.with_sort_by (page_of self.old) width None) }
        ensures id { IfOk result (λ id. id ≡ pages.sort_id (page_of self.new) width) }
    {
        let mut given = Sequence::new(alloc);
        given.push(Argument::Bitvec)?;
        given.push(Argument::Number(width))?;
        let id = self.put(Keyword::Sort, given, None)?;
        self.sorts.insert(u64::from(width), id)?;
        Ok(id)
    }

    /// Adds a line of a width with these ids and numbers after its sort.
    pub(crate) fn add(
        &mut self,
        alloc: Global,
        width: u32,
        keyword: Keyword,
        ids: &[u64],
        numbers: &[u32],
        symbol: Option<Text>,
    ) -> Result<u64, NoMemory>
        ensures page { OnOk result (page_of self.new ≡ pages.with_line (page_of self.old) width keyword ids.now numbers.now symbol) }
        ensures id { IfOk result (λ id. id ≡ pages.id_of_line (page_of self.old) width) }
    {
        let sort = self.sort(alloc, width)?;
        let given = arguments_of(alloc, sort, ids, numbers)?;
        self.put(keyword, given, symbol)
    }

    /// Adds a constant.
    pub(crate) fn add_constant(&mut self, alloc: Global, value: Bits) -> Result<u64, NoMemory>
        ensures page { OnOk result (page_of self.new ≡ pages.with_constant (page_of self.old) value) }
        ensures id { IfOk result (λ id. id ≡ pages.id_of_line (page_of self.old) value.width) }
    {
        let sort = self.sort(alloc, value.width())?;
        let mut buffer = Buffer::new();
        let digits = Text::from_slice(alloc, buffer.format(value.number()).as_bytes())?;
        let mut given = Sequence::new(alloc);
        given.push(Argument::Id(sort))?;
        given.push(Argument::Numeral(digits))?;
        self.put(Keyword::Constd, given, None)
    }
}

// A sort, ids and numbers as arguments.
fn arguments_of(
    alloc: Global,
    sort: u64,
    ids: &[u64],
    numbers: &[u32],
) -> Result<Sequence<Argument>, NoMemory>
    ensures { IfOk result (λ given. given ≡ pages.arguments_of sort ids.now numbers.now) }
{
    let mut given = Sequence::new(alloc);
    given.push(Argument::Id(sort))?;
    push_ids(&mut given, ids)?;
    push_numbers(&mut given, numbers)?;
    Ok(given)
}

fn push_ids(given: &mut Sequence<Argument>, ids: &[u64]) -> Result<(), NoMemory>
    ensures { OnOk result (given.new ≡ given.old ++ map arguments.Id ids.now) }
{
    for id in ids {
        given.push(Argument::Id(*id))?;
    }
    Ok(())
}

fn push_numbers(given: &mut Sequence<Argument>, numbers: &[u32]) -> Result<(), NoMemory>
    ensures { OnOk result (given.new ≡ given.old ++ map arguments.Number numbers.now) }
{
    for number in numbers {
        given.push(Argument::Number(*number))?;
    }
    Ok(())
}
