// How amendment flags cover the told fields of a row, and the comparison of a row with its older record.
ghost use Rattle.kinds.specs.Cover.{compared, differs_under, is_at_fault, is_changed, is_untrue};
ghost use Rattle.std.specs.Prelude.{◌≡◌};

use fields::flags::KeyFlag;

// What a line of a kind's cover table is.
#[derive(Clone, Copy, PartialEq, Eq)]
pub enum Cover {
    // a field that the flag with this number covers
    By(u8),
    // a field that no flag covers, and that never changes
    Steady,
    // an amendment flag
    Flag,
}

#[derive(Clone, Copy)]
pub struct Line {
    pub number: u8,
    pub cover: Cover,
}

fn is_changed(line: &Line, mark: bool) -> bool
    ensures { result ≡ is_changed line.now mark }
{
    match line.cover {
        Cover::By(_) | Cover::Steady => mark,
        Cover::Flag => false,
    }
}

// A cover table, and beside each line its mark.
#[derive(Clone, Copy)]
struct Marked<'a> {
    lines: &'a [Line],
    marks: &'a [bool],
}

impl Marked<'_> {
    // Whether a field that the flag covers differs.
    fn differs_under(&self, flag: u8) -> bool
        ensures { result ≡ differs_under flag self.now.lines.now self.now.marks.now }
    {
        self.lines
            .iter()
            .zip(self.marks)
            .any(|(line, mark)| line.cover == Cover::By(flag) && *mark)
    }

    fn is_untrue(&self, line: &Line, mark: bool) -> bool
        ensures { result ≡ is_untrue self.now.lines.now self.now.marks.now line.now mark }
    {
        match line.cover {
            Cover::By(_) => false,
            Cover::Steady => mark,
            Cover::Flag => mark != self.differs_under(line.number),
        }
    }

    fn is_at_fault(&self, key_flag: KeyFlag, line: &Line, mark: bool) -> bool
        ensures { result ≡ is_at_fault key_flag self.now.lines.now self.now.marks.now line.now mark }
    {
        match key_flag {
            KeyFlag::NoAmendment => self.is_untrue(line, mark),
            KeyFlag::New => false,
            KeyFlag::Deletion => is_changed(line, mark),
        }
    }
}

// The first line at fault: at key flag 0 an untrue flag or a changed steady field, at key flag 2 a changed told field.
pub fn first_fault(key_flag: KeyFlag, lines: &[Line], marks: &[bool]) -> Option<u8>
    ensures { result ≡ compared key_flag lines.now marks.now }
{
    let marked = Marked { lines, marks };
    lines
        .iter()
        .zip(marks)
        .find(|(line, mark)| marked.is_at_fault(key_flag, line, **mark))
        .map(|(line, _)| line.number)
}
