// Accept, first, next and check over plain slices.
#![tactic(auto)]

ghost use Rattle.std.specs.Prelude.{◌≡◌, [], ◌+◌, ◌*◌, ◌≤◌, ltb, length, IfOk, IfErr};
ghost use Rattle.std.proofs.Math.Option.{some};
ghost use Rattle.rules.specs.Limits.{name_limit, row_size, area_for, wiped};
ghost use Rattle.rules.specs.Grounds.{first_of};
ghost use Rattle.mapping.specs.Entries.{entry_size, given};
ghost use Rattle.language.specs.Reading.{Pattern};
ghost use Rattle.language.specs.Search.{accepts, is_reading};
ghost use Rattle.sheet.specs.Stands.{stands_for};
ghost use Rattle.rows.specs.Rows.{row_at};
ghost use Rattle.reader.specs.Refusals.{name_grounds, call_grounds, mapping_grounds};
ghost use Rattle.reader.specs.Outcome.{cleared, AcceptCall, FirstCall, NextCall, CheckCall};
ghost use Rattle.reader.specs.Answer.{refusal_number, number_of, end_of};
ghost use Rattle.reader.specs.Made.{lacks, reason_of, FirstMade, NextMade, kept_by, left_by};

use automaton::Tables;
use mapping::{Place, Position};
use rows::Rows;
use rules::{NAME_LIMIT, ROW_SIZE};
use sheet::{Sheet, SheetFault};

// Why a name call is refused; specs/Answer.antt gives the numbers.
#[derive(Clone, Copy, Debug, PartialEq, Eq)]
pub enum NameFault {
    Sheet(SheetFault),
    NameLong,
    MappingShort,
    WorkShort,
    NoReading,
}

impl From<SheetFault> for NameFault {
    ghost use Rattle.reader.specs.declared.NameFault.TheVariants.{Sheet};

    ghost from_gives = { λ f e. e ≡ Sheet f };

    fn from(fault: SheetFault) -> NameFault {
        NameFault::Sheet(fault)
    }
}

impl NameFault {
    pub fn number(self) -> u64
        ensures { result ≡ refusal_number self }
    {
        match self {
            NameFault::Sheet(f) => f.number(),
            NameFault::NameLong => rules::NAME_LONG,
            NameFault::MappingShort => rules::MAPPING_SHORT,
            NameFault::WorkShort => rules::WORK_SHORT,
            NameFault::NoReading => rules::NO_READING,
        }
    }
}

// The number for what a name call answers: accepted, found or yes; not so; or why it is refused.
pub fn number(answer: Result<bool, NameFault>) -> u64
    ensures { result ≡ number_of answer }
{
    match answer {
        Ok(true) => rules::DONE,
        Ok(false) => rules::NO,
        Err(f) => f.number(),
    }
}

// Whether a mapping of so many bytes is lent, and has no room for n entries.
fn lacks_entries(lent: Option<usize>, n: usize) -> bool
    requires { n ≤ name_limit }
    ensures { result ≡ lacks lent n }
{
    lent.is_some_and(|size| !mapping::holds(size, n))
}

// Whether the work area has no room for the rows of a name of n bytes.
fn lacks_rows(work: &[u8], n: usize) -> bool
    requires { n ≤ name_limit }
    ensures { result ≡ ltb (length work.now) (row_size * (n + 1)) }
{
    work.len() < ROW_SIZE * (n + 1)
}

// 30, 31 where a mapping is lent, and 32.
fn name_test(name: &[u8], lent: Option<usize>, work: &[u8]) -> Result<(), NameFault>
    ensures { reason_of result ≡ first_of (name_grounds name.now lent work.now) }
{
    if NAME_LIMIT < name.len() {
        return Err(NameFault::NameLong);
    }
    if lacks_entries(lent, name.len()) {
        return Err(NameFault::MappingShort);
    }
    if lacks_rows(work, name.len()) {
        return Err(NameFault::WorkShort);
    }
    Ok(())
}

// How many of n entries stay in the mapping after an answer: all if a reading was found.
fn kept_by(answer: Result<bool, NameFault>, n: usize) -> usize
    ensures { (result ≡ kept_by answer n) × (result ≤ n) }
{
    if answer == Ok(true) { n } else { 0 }
}

// What a call asks about once it has passed its tests: a tested sheet, and a name within the limit.
#[derive(Clone, Copy)]
struct Question<'a> {
    sheet: Sheet<'a>,
    name: &'a [u8],
    ghost short: { length name.now ≤ name_limit },
}

impl<'a> Question<'a> {
    // 20 to 27, then 30, 31 where a mapping is lent, and 32.
    fn tested(
        sheet: &'a [u8],
        name: &'a [u8],
        lent: Option<usize>,
        work: &[u8],
    ) -> Result<Question<'a>, NameFault>
        ensures reason { reason_of result ≡ first_of (call_grounds sheet.now name.now lent work.now) }
        ensures same { IfOk result (λ q. (q.sheet.bytes.now ≡ sheet.now) × (q.name.now ≡ name.now)) }
    {
        let sheet = sheet::test(sheet)?;
        name_test(name, lent, work)?;
        Ok(Question { sheet, name })
    }

    // The tests of a call that searches for a reading: where it is refused, all of the mapping is wiped.
    fn to_search(
        sheet: &'a [u8],
        name: &'a [u8],
        mapping: &mut [u8],
        work: &[u8],
    ) -> Result<Question<'a>, NameFault>
        ensures reason { reason_of result ≡ first_of (mapping_grounds sheet.now name.now mapping.old work.now) }
        ensures same { IfOk result (λ q. (q.sheet.bytes.now ≡ sheet.now) × (q.name.now ≡ name.now) × (mapping.new ≡ mapping.old)) }
        ensures refused { IfErr result (λ f. mapping.new ≡ wiped mapping.old) }
    {
        let tested = Question::tested(sheet, name, Some(mapping.len()), work);
        if tested.is_err() {
            buffers::wipe_all(mapping);
        }
        tested
    }

    // Makes the rows of all places zero.
    fn wipe_rows(self, work: &mut [u8])
        requires { area_for self.name.now ≤ length work.old }
        ensures { work.new ≡ cleared self.entry.name.now work.old }
    {
        buffers::wipe(work, ROW_SIZE * (self.name.len() + 1));
    }

    // Whether the name is in the language of the sheet.
    fn in_language(self, work: &mut [u8]) -> bool
        requires { area_for self.name.now ≤ length work.old }
        ensures value { (P : Pattern) → stands_for self.entry.sheet.bytes.now ≡ some P → result ≡ accepts P self.entry.name.now }
        ensures rest_unchanged { row_at work.new (length self.entry.name.now) ≡ row_at work.old (length self.entry.name.now) }
    {
        let mut tables = Tables::new();
        tables.read(self.sheet);
        rows::fill(work, self.name, &tables);
        let rows = Rows {
            name: self.name,
            work,
            tables: &tables,
        };
        rows.begins()
    }

    // Writes the first reading of the name, if it has one.
    fn first_reading(self, mapping: &mut [u8], work: &mut [u8]) -> bool
        requires { (entry_size * length self.name.now ≤ length mapping.old) × (area_for self.name.now ≤ length work.old) }
        ensures first_made { (P : Pattern) → stands_for self.entry.sheet.bytes.now ≡ some P → FirstMade P self.entry.name.now mapping.new result }
        ensures rest_unchanged { row_at work.new (length self.entry.name.now) ≡ row_at work.old (length self.entry.name.now) }
    {
        let mut tables = Tables::new();
        tables.read(self.sheet);
        rows::fill(work, self.name, &tables);
        let rows = Rows {
            name: self.name,
            work,
            tables: &tables,
        };
        if rows.begins() {
            choices::choose(&rows, mapping, Place(0), Position(0));
            return true;
        }
        false
    }

    // Makes of the given reading the next one, if it is a reading and there is one.
    fn next_reading(self, mapping: &mut [u8], work: &mut [u8]) -> Result<bool, NameFault>
        requires { (entry_size * length self.name.now ≤ length mapping.old) × (area_for self.name.now ≤ length work.old) }
        ensures next_made { (P : Pattern) → stands_for self.entry.sheet.bytes.now ≡ some P → NextMade P self.entry.name.now mapping.old mapping.new result }
        ensures rest_unchanged { row_at work.new (length self.entry.name.now) ≡ row_at work.old (length self.entry.name.now) }
    {
        let mut tables = Tables::new();
        tables.read(self.sheet);
        if !choices::is_reading(self.name, mapping, &tables) {
            return Err(NameFault::NoReading);
        }
        rows::fill(work, self.name, &tables);
        let rows = Rows {
            name: self.name,
            work,
            tables: &tables,
        };
        let moved = choices::advance(&rows, mapping);
        Ok(moved)
    }

    // Whether the given sequence is a reading of the name.
    fn given_reading(self, mapping: &[u8]) -> bool
        requires { entry_size * length self.name.now ≤ length mapping.now }
        ensures { (P : Pattern) → stands_for self.entry.sheet.bytes.now ≡ some P
            → result ≡ is_reading P self.entry.name.now (given self.entry.name.now mapping.now) }
    {
        let mut tables = Tables::new();
        tables.read(self.sheet);
        choices::is_reading(self.name, mapping, &tables)
    }

    // After a search: what was found stays in the mapping, with zeros after it, and the rows are wiped.
    fn keep(self, found: Result<bool, NameFault>, mapping: &mut [u8], work: &mut [u8])
        requires { (entry_size * length self.name.now ≤ length mapping.old) × (area_for self.name.now ≤ length work.old) }
        ensures { (mapping.new ≡ left_by found (length self.entry.name.now) mapping.old) × (work.new ≡ cleared self.entry.name.now work.old) }
    {
        self.wipe_rows(work);
        let kept = kept_by(found, self.name.len());
        mapping::wipe_from(mapping, kept);
    }
}

// Whether the name is in the language. There is no mapping, so no 31.
pub fn accept(sheet: &[u8], name: &[u8], work: &mut [u8]) -> Result<bool, NameFault>
    ensures { AcceptCall sheet.now name.now work.old (end_of result [] work.new) }
{
    let question = Question::tested(sheet, name, None, work)?;
    let inside = question.in_language(work);
    question.wipe_rows(work);
    Ok(inside)
}

// The first reading of the name.
pub fn first(
    sheet: &[u8],
    name: &[u8],
    mapping: &mut [u8],
    work: &mut [u8],
) -> Result<bool, NameFault>
    ensures { FirstCall sheet.now name.now mapping.old work.old (end_of result mapping.new work.new) }
{
    let question = Question::to_search(sheet, name, mapping, work)?;
    let found = Ok(question.first_reading(mapping, work));
    question.keep(found, mapping, work);
    found
}

// The reading after the given one.
pub fn next(
    sheet: &[u8],
    name: &[u8],
    mapping: &mut [u8],
    work: &mut [u8],
) -> Result<bool, NameFault>
    ensures { NextCall sheet.now name.now mapping.old work.old (end_of result mapping.new work.new) }
{
    let asked = Question::to_search(sheet, name, mapping, work)?;
    let found = asked.next_reading(mapping, work);
    asked.keep(found, mapping, work);
    found
}

// Whether the given sequence is a reading of the name.
pub fn check(sheet: &[u8], name: &[u8], mapping: &[u8], work: &mut [u8]) -> Result<bool, NameFault>
    ensures { CheckCall sheet.now name.now mapping.now work.old (end_of result mapping.now work.new) }
{
    let question = Question::tested(sheet, name, Some(mapping.len()), work)?;
    let reads = question.given_reading(mapping);
    question.wipe_rows(work);
    Ok(reads)
}
