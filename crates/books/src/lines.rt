// The lines of a book: for each supplier, what was last admitted, and the count of receipts.
ghost use Rattle.std.specs.Prelude.{◌≡◌, ◌+◌, ◌≤◌, take, None, position, ◌==◌};
ghost use Rattle.std.specs.List.{find};
ghost use Rattle.std.specs.Result.{result_err};
ghost use Rattle.books.specs.Lines.{SingleLines, follows, follows_line, judged_line, line_after, line_fault, noted};
ghost use Rattle.std.proofs.lemmas.Map.Keys.{IsDistinct-prop};

use crate::fault::LineFault;
use deliveries::head::Head;
use fields::date::Date;

pub const MOST_LINES: usize = 16;

pub const MOST_RECEIPTS: u32 = 999_999;

// A supplier, with the first day and the version of its delivery that was admitted last.
#[derive(Clone, Copy)]
pub struct Line {
    pub supplier: u32,
    pub first_day: Date,
    pub version: u32,
}

// The first lines are used, one for each supplier. They stand in an array with a count, which the book's state reads; a vector
// of fixed capacity would want the public `Line` and `Date` to have a `Default`.
#[derive(Clone, Copy)]
pub struct Lines {
    lines: [Line; 16],
    used: usize,
    receipts: u32,
    ghost few: { used ≤ 16 },
    ghost single: { SingleLines (take used lines) } by { IsDistinct-prop _ _ },
}

// Whether a delivery comes right after the one of the line: a later day with version 01, or the same day with the next
// version.
fn comes_after(line: &Line, head: &Head) -> bool
    ensures { result ≡ follows_line line.now head.now }
{
    if line.first_day < head.first_day {
        return head.version == 1;
    }
    line.first_day == head.first_day && u64::from(head.version) == u64::from(line.version) + 1
}

// The place of a supplier's line.
fn place_of(lines: &[Line], supplier: u32) -> Option<usize>
    ensures { result ≡ position (λ l. l.supplier == supplier) lines.now }
{
    lines.iter().position(|line| line.supplier == supplier)
}

fn line_of(lines: &[Line], supplier: u32) -> Option<Line>
    ensures { result ≡ find (λ l. l.supplier == supplier) lines.now }
{
    lines.iter().find(|line| line.supplier == supplier).copied()
}

// Whether a delivery follows a line, or may be a supplier's first.
fn may_follow(line: &Option<Line>, head: &Head) -> bool
    ensures { result ≡ follows line.now head.now }
{
    match line {
        Some(line) => comes_after(line, head),
        None => head.version == 1,
    }
}

// 11, 12, 13, by the supplier's line, whether all lines are in use, and the receipts given.
fn judge(line: &Option<Line>, full: bool, given: u32, head: &Head) -> Result<(), LineFault>
    ensures { result_err result ≡ judged_line line.now full given head.now }
{
    if line.is_none() && full {
        return Err(LineFault::TooManySuppliers);
    }
    if !may_follow(line, head) {
        return Err(LineFault::DoesNotFollow);
    }
    if given >= MOST_RECEIPTS {
        return Err(LineFault::NoReceiptLeft);
    }
    Ok(())
}

impl Lines {
    pub(crate) fn open() -> Lines
        ensures { (result.used ≡ 0) × (result.receipts ≡ 0) }
    {
        let none = Line {
            supplier: 0,
            first_day: Date::new(2000, 1, 1).unwrap(),
            version: 0,
        };
        Lines {
            lines: [none; 16],
            used: 0,
            receipts: 0,
        }
    }

    // Whether a delivery may be the next of its supplier: 11, 12, 13.
    pub(crate) fn check(&self, head: &Head) -> Result<(), LineFault>
        ensures { result_err result ≡ line_fault (take self.now.used self.now.lines) self.now.receipts head.now }
    {
        let line = line_of(&self.lines[0..self.used], head.supplier);
        judge(&line, self.used >= MOST_LINES, self.receipts, head)
    }

    // Sets the line of a delivery that may be the next of its supplier, and answers the next receipt.
    pub(crate) fn note(&mut self, head: &Head) -> u32
        requires { line_fault (take self.old.used self.old.lines) self.old.receipts head.now ≡ None }
        ensures receipt { (result ≡ self.old.receipts + 1) × (self.new.receipts ≡ result) }
        ensures lines { take self.new.used self.new.lines ≡ noted (take self.old.used self.old.lines) (line_after head.now) }
    {
        let used = self.used;
        let at = place_of(&self.lines[0..used], head.supplier).unwrap_or(used);
        self.lines[at] = Line {
            supplier: head.supplier,
            first_day: head.first_day,
            version: head.version,
        };
        self.used = used.max(at + 1);
        self.receipts += 1;
        self.receipts
    }
}
