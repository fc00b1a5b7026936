// Scripts: a delivery or a question in each line, and after an arrow what is answered.
//
// A delivery is answered by its receipt or its refusal, with the sentence where the script has it. `find` may ask for
// several numbers; # stands for the digits of each in what is answered. `empties` are so many first deliveries of a
// supplier, without rows. A script begins with the room that its book has for stations, series and tables.
use crate::asked::{find, join};
use crate::sent::{Numbers, Signs, delivery};
use books::book::Book;
use deliveries::delivery::Delivery;
use fields::bytes::{number_in, part};
use registers::entry::{Entry, Id, Standing};
use std::alloc::{AllocError, Global};
use std::process::Abort;
use std::test::Fail;
use trials::lines::comparable;

// All that scripts with refusals bring into a book.
const WATCHED: &str = "\
find G 0081 00001-00009/1
find S 0081 00001-00009/1
find P 0081 01001-01009/1
find G 0082 00001-00009/1
find S 0082 00001-00009/1
find P 0082 01001-01009/1";

const JOINED: &str = "\
join 0081 00001 00002
join 0081 00001 00003
join 0081 00002 00003
join 0082 00001 00002";

// What a book answers to every question that is watched.
fn picture(heap: Global, book: &Book<'_>) -> Result<String, AllocError> {
    let mut answers = String::new(heap);
    for line in WATCHED.lines() {
        let question = line.as_bytes();
        let supplier = number_in(question, 8, 11);
        let numbers = Numbers::read(part(question, 13, 27));
        for k in 0..numbers.count {
            let number = numbers.at(k);
            let answer = find(heap, book, part(question, 6, 6), Id { supplier, number })?;
            answers.push_str(answer.as_str())?;
        }
    }
    for line in JOINED.lines() {
        answers.push_str(join(heap, book, line.as_bytes())?.as_str())?;
    }
    Ok(answers)
}

// What is answered to a delivery. A refusal has to leave the book as it was.
fn admit(heap: Global, book: &mut Book<'_>, bytes: &[u8]) -> Result<String, AllocError> {
    let mut place = Delivery::empty();
    if let Err(fault) = place.read(bytes) {
        return format!(in heap; "not sound: {fault}");
    }
    let before = picture(heap, book)?;
    match book.admit(&place) {
        Ok(receipt) => format!(in heap; "receipt {receipt}"),
        Err(fault) if picture(heap, book)?.as_str() == before.as_str() => format!(in heap;
            "{fault}"
        ),
        Err(_) => format!(in heap; "refused, and the book is not as it was"),
    }
}

// Admits so many deliveries without rows from 1 January 2000 on, with all versions of each day up to the 28th of a month.
fn admit_empties(heap: Global, book: &mut Book<'_>, question: &[u8]) -> Result<String, Fail> {
    let supplier = number_in(question, 9, 12);
    let mut receipt = 0;
    for k in 0..number_in(question, 14, 19) {
        let day = k / 99;
        let head = format!(in heap;
            "300000000000000000000000092073207{supplier:04}{}{:02}{:02}{:02}",
            (day / 336).wrapping_add(2000),
            day / 28 % 12 + 1,
            day % 28 + 1,
            k % 99 + 1
        )?;
        let mut place = Delivery::empty();
        place.read(head.as_bytes())?;
        receipt = book.admit(&place)?;
    }
    Ok(format!(in heap; "receipt {receipt}")?)
}

fn try_find(
    rt: &impl Abort,
    heap: Global,
    book: &Book<'_>,
    asked: &str,
    expected: &str,
) -> Result<(), Fail> {
    let question = asked.as_bytes();
    let supplier = number_in(question, 8, 11);
    let numbers = Numbers::read(part(question, 13, 27));
    for k in 0..numbers.count {
        let number = numbers.at(k);
        let signs = Signs {
            supplier,
            number,
            key_flag: 0,
            departure: 0,
            destination: 0,
        };
        let expected = signs.fill(heap, expected)?;
        let answer = find(heap, book, part(question, 6, 6), Id { supplier, number })?;
        assert!(rt;
            answer.as_bytes() == expected.as_slice(),
            "{asked}: {}",
            answer.as_str()
        );
    }
    Ok(())
}

fn answer(heap: Global, book: &mut Book<'_>, asked: &str) -> Result<String, Fail> {
    match asked.as_bytes() {
        [b'j', ..] => Ok(join(heap, book, asked.as_bytes())?),
        [b'e', ..] => admit_empties(heap, book, asked.as_bytes()),
        _ => {
            let Some(bytes) = delivery(heap, asked) else {
                return Err(Fail::new(format_args!("a delivery is not understood: {asked}")));
            };
            Ok(admit(heap, book, bytes.as_slice())?)
        }
    }
}

fn try_line(rt: &impl Abort, heap: Global, book: &mut Book<'_>, line: &str) -> Result<(), Fail> {
    let Some((asked, expected)) = line.split_once(" => ") else {
        return Err(Fail::new(format_args!("a line expects nothing: {line}")));
    };
    match asked.as_bytes() {
        [b'f', ..] => try_find(rt, heap, book, asked, expected),
        _ => {
            let answer = answer(heap, book, asked)?;
            assert_eq!(rt; comparable(answer.as_str(), expected), expected, "{line}");
            Ok(())
        }
    }
}

// A run of so many entries for a book to fill.
fn run_of<T: Copy + Clone + Drop>(
    heap: Global,
    room: u32,
) -> Result<Vec<Entry<u32, T>>, AllocError> {
    let vacant = Entry {
        id: Id {
            supplier: 0,
            number: 0,
        },
        standing: Standing::Retired(0),
    };
    vec![in heap; vacant; room as usize]
}

// Goes through a script with a new book.
fn try_script(rt: &impl Abort, heap: Global, script: &str) -> Result<(), Fail> {
    let mut stations = run_of(heap, number_in(script.as_bytes(), 6, 9))?;
    let mut series = run_of(heap, number_in(script.as_bytes(), 11, 14))?;
    let mut tables = run_of(heap, number_in(script.as_bytes(), 16, 19))?;
    let mut book = Book::open(
        stations.as_mut_slice(),
        series.as_mut_slice(),
        tables.as_mut_slice(),
    );
    for line in script.lines().skip(1) {
        try_line(rt, heap, &mut book, line)?;
    }
    Ok(())
}

// Goes through scripts with an empty line between each two.
pub fn try_scripts(rt: &impl Abort, heap: Global, scripts: &str) -> Result<(), Fail> {
    for script in scripts.split("\n\n") {
        try_script(rt, heap, script)?;
    }
    Ok(())
}
