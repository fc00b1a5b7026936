// The commands of a script, one a line.
use registers::entry::Id;
use std::str::{FromStr, SplitWhitespace};

// How many entries each run of the book has room for.
#[derive(Clone, Copy)]
pub struct Rooms {
    pub stations: usize,
    pub series: usize,
    pub tables: usize,
}

// Before any command opens another book.
pub const FIRST_ROOMS: Rooms = Rooms {
    stations: 4096,
    series: 4096,
    tables: 4096,
};

#[derive(Clone, Copy)]
pub enum Letter {
    Station,
    Series,
    FareTable,
}

// No kind has this letter.
#[derive(Clone, Copy)]
pub struct NoKind;

impl FromStr for Letter {
    type Err = NoKind;

    fn from_str(word: &str) -> Result<Letter, NoKind> {
        match word {
            "G" => Ok(Letter::Station),
            "S" => Ok(Letter::Series),
            "P" => Ok(Letter::FareTable),
            _ => Err(NoKind),
        }
    }
}

#[derive(Clone, Copy)]
pub enum Command<'a> {
    // a blank line or a remark
    Nothing,
    Open(Rooms),
    Read(&'a str),
    Admit(&'a str),
    // a kind, and a number of a supplier
    Find(Letter, Id<u32>),
    // a supplier and two station codes
    Join(u32, u32, u32),
}

// The number that a word of so many digits at most writes.
fn number(word: Option<&str>, most: usize) -> Option<u32> {
    let word = word?;
    if word.len() <= most && word.bytes().all(|byte| byte.is_ascii_digit()) {
        word.parse().ok()
    } else {
        None
    }
}

fn supplier(word: Option<&str>) -> Option<u32> {
    number(word.filter(|word| word.len() == 4), 4)
}

// Whether the words end here.
fn end(mut words: SplitWhitespace<'_>) -> Option<()> {
    words.next().is_none().then_some(())
}

fn open<'a>(mut words: SplitWhitespace<'_>) -> Option<Command<'a>> {
    let rooms = Rooms {
        stations: number(words.next(), 9)? as usize,
        series: number(words.next(), 9)? as usize,
        tables: number(words.next(), 9)? as usize,
    };
    end(words)?;
    Some(Command::Open(rooms))
}

fn find<'a>(mut words: SplitWhitespace<'_>) -> Option<Command<'a>> {
    let letter = words.next()?.parse().ok()?;
    let supplier = supplier(words.next())?;
    let number = number(words.next(), 5)?;
    end(words)?;
    Some(Command::Find(letter, Id { supplier, number }))
}

fn join<'a>(mut words: SplitWhitespace<'_>) -> Option<Command<'a>> {
    let supplier = supplier(words.next())?;
    let one = number(words.next(), 5)?;
    let other = number(words.next(), 5)?;
    end(words)?;
    Some(Command::Join(supplier, one, other))
}

// What follows the command's word: a path, which may have blanks in it.
fn path<'a>(line: &'a str) -> Option<&'a str> {
    let (_, rest) = line.trim().split_once(' ')?;
    Some(rest.trim())
}

// The command of a line, or what is wrong with it.
pub fn parse(line: &str) -> Result<Command<'_>, &'static str> {
    let mut words = line.split_whitespace();
    let Some(first) = words.next() else {
        return Ok(Command::Nothing);
    };
    if line.starts_with('#') {
        return Ok(Command::Nothing);
    }
    match first {
        "open" => open(words).ok_or("open takes three run lengths: open G S P"),
        "read" => path(line)
            .map(Command::Read)
            .ok_or("read takes a file: read PATH"),
        "admit" => path(line)
            .map(Command::Admit)
            .ok_or("admit takes a file: admit PATH"),
        "find" => find(words).ok_or(
            "find takes a kind G, S or P, a supplier of four digits and a number: find K SSSS N",
        ),
        "join" => join(words).ok_or(
            "join takes a supplier of four digits and two station codes: join SSSS A B",
        ),
        _ => Err("there is no such command"),
    }
}
