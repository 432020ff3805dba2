// Texts that other tools wrote, and texts that are wrong, read by the crate `text`.
//
// The files in data/ come from Python's csv module, the sqlite3 shell in csv mode and mawk; each is read and written back,
// and the bytes must be the same. The table of wrong texts says for each the number and the line of its refusal. The file
// stdout was derived from the rules by hand.
#![tactic(auto)]

ghost use Rattle.text_tests.specs.Examples.{Examples};

use records::{Item, Record};
use std::{fs, io};
use text::TextFault;

// Lists of these lengths have room for more than a file may hold, and so have the bytes for its text.
const RECORDS: usize = 300;

const ITEMS: usize = 5_000;

const BYTES: usize = 66_000;

fn refused(rt: &HostRuntime, name: &str, fault: TextFault) -> io::Result<()> {
    let number = fault.number();
    let place = fault.place();
    println!(rt; "{name}: {number} at line {place}")
}

// The rows of a file.
trait Rows: Copy {
    fn read(text: &[u8], rows: &mut [Self]) -> Result<usize, TextFault>;

    fn write(rows: &[Self], out: &mut [u8]) -> Result<usize, TextFault>;
}

impl Rows for Record {
    fn read(text: &[u8], rows: &mut [Record]) -> Result<usize, TextFault> {
        text::read(text, rows)
    }

    fn write(rows: &[Record], out: &mut [u8]) -> Result<usize, TextFault> {
        text::write(rows, out)
    }
}

impl Rows for Item {
    fn read(text: &[u8], rows: &mut [Item]) -> Result<usize, TextFault> {
        text::read(text, rows)
    }

    fn write(rows: &[Item], out: &mut [u8]) -> Result<usize, TextFault> {
        text::write(rows, out)
    }
}

// Reads a text into this list, writes what was read, and says what came of it.
fn again<R: Rows>(rt: &HostRuntime, name: &str, text: &[u8], rows: &mut [R]) -> io::Result<()> {
    let n = match R::read(text, rows) {
        Ok(n) => n,
        Err(fault) => return refused(rt, name, fault),
    };
    let mut bytes = [0u8; BYTES];
    if n > rows.len() {
        return Ok(());
    }
    match R::write(&rows[0..n], &mut bytes) {
        Ok(m) if m > BYTES => Ok(()),
        Ok(m) if text == &bytes[0..m] => println!(rt; "{name}: {n}, and the same text"),
        Ok(_) => println!(rt; "{name}: {n}, and another text"),
        Err(fault) => refused(rt, name, fault),
    }
}

fn file<R: Rows>(rt: &HostRuntime, name: &str, rows: &mut [R]) -> io::Result<()> {
    let text = fs::read(rt, name)?;
    again(rt, name, text.as_slice(), rows)
}

fn files(rt: &HostRuntime) -> io::Result<()> {
    for name in [
        "python_case.csv",
        "sqlite_case.csv",
        "awk_case.csv",
        "full_case.csv",
        "overfull_case.csv",
        "python_quoted_case.csv",
        "python_unix_case.csv",
    ] {
        file(rt, name, &mut [Record::default(); RECORDS])?;
    }
    for name in [
        "python_evidence.csv",
        "sqlite_evidence.csv",
        "full_evidence.csv",
        "overfull_evidence.csv",
        "bytes_65535.csv",
        "bytes_65536.csv",
    ] {
        file(rt, name, &mut [Item::default(); ITEMS])?;
    }
    Ok(())
}

// Wrong lines behind the header of a case: what is wrong, and the lines.
const WRONG: [(&str, &[u8]); 33] = [
    ("only a header", b""),
    ("no last line end", b"0,B,0,0,0,1"),
    ("LF at the second line", b"0,B,0,0,0,1\n"),
    ("CR at the end", b"0,B,0,0,0,1\r"),
    ("CR CR LF", b"0,B,0,0,0,1\r\r\n"),
    ("CR inside a line", b"0,B\r,0,0,0,1\r\n"),
    ("LF inside a line", b"0,B\n,0,0,0,1\r\n"),
    ("empty line", b"\r\n"),
    ("a field too many", b"0,B,0,0,0,1,\r\n"),
    ("a field too few", b"0,B,0,0,0\r\n"),
    ("no number", b",B,0,0,0,1\r\n"),
    ("plus", b"+1,B,0,0,0,1\r\n"),
    ("minus", b"-1,B,0,0,0,1\r\n"),
    ("zeros ahead", b"0,B,007,0,0,1\r\n"),
    ("two zeros", b"00,B,0,0,0,1\r\n"),
    ("a blank", b"0,B, 1,0,0,1\r\n"),
    ("NUL as a number", b"\x00,B,0,0,0,1\r\n"),
    ("thread 256", b"256,B,0,0,0,1\r\n"),
    ("target 256", b"0,B,256,0,0,1\r\n"),
    ("value 4294967296", b"0,w,0,4294967296,0,0\r\n"),
    ("seen 65536", b"0,r,0,0,65536,0\r\n"),
    ("turn 65536", b"0,B,0,0,0,65536\r\n"),
    ("a long number", b"0,w,0,99999999999999999999999,0,0\r\n"),
    ("wrong at the third line", b"0,B,0,0,0,1\r\n0,E,0,0,0,x\r\n"),
    ("no letter", b"0,,0,0,0,1\r\n"),
    ("two letters", b"0,BB,0,0,0,1\r\n"),
    ("small b", b"0,b,0,0,0,1\r\n"),
    ("letter of evidence", b"0,A,0,0,0,1\r\n"),
    ("a digit for a letter", b"0,1,0,0,0,1\r\n"),
    ("NUL as a letter", b"0,\x00,0,0,0,1\r\n"),
    ("a quoted field", b"0,\"B\",0,0,0,1\r\n"),
    ("number, then letter", b"x,X,0,0,0,1\r\n"),
    ("letter, then number", b"0,X,x,0,0,1\r\n"),
];

fn behind(rt: &HostRuntime, name: &str, rest: &[u8], records: &mut [Record]) -> io::Result<()> {
    let mut text = Vec::new(rt.alloc());
    text.extend_from_slice(b"thread,letter,target,value,seen,turn\r\n")?;
    text.extend_from_slice(rest)?;
    again(rt, name, text.as_slice(), records)
}

fn wrong(rt: &HostRuntime) -> io::Result<()> {
    for (name, rest) in WRONG {
        behind(rt, name, rest, &mut [Record::default(); RECORDS])?;
    }
    Ok(())
}

// Headers, a list that is full, and evidence.
fn others(rt: &HostRuntime) -> io::Result<()> {
    let mut one = [Record::default()];
    for (name, text) in [
        ("empty", b"".as_slice()),
        ("header not ended", b"thread,letter,target,value,seen,turn"),
        ("header of evidence", b"item,thread,place,count\r\n"),
        ("LF only", b"thread,letter,target,value,seen,turn\n"),
    ] {
        again(rt, name, text, &mut one)?;
    }
    behind(rt, "no room", b"0,B,0,0,0,1\r\n", &mut [])?;
    for (name, rest) in [
        (
            "full, and a wrong field",
            b"0,B,0,0,0,1\r\n007,B,0,0,0,1\r\n".as_slice(),
        ),
        ("full, and a field too few", b"0,B,0,0,0,1\r\n0,B,0,0,0\r\n"),
    ] {
        behind(rt, name, rest, &mut one)?;
    }
    for (name, text) in [
        (
            "letter of a case",
            b"item,thread,place,count\r\nB,0,0,0\r\n".as_slice(),
        ),
        (
            "letter, then 256",
            b"item,thread,place,count\r\nA,0,0,256\r\n",
        ),
    ] {
        again(rt, name, text, &mut [Item::default(); ITEMS])?;
    }
    Ok(())
}

// The number of the refusal with which a case is written, and 0 where it is written: no line is meant.
fn refusal(records: &[Record], bytes: &mut [u8]) -> u8 {
    text::write(records, bytes).map_or_else(|fault| fault.number(), |_| 0)
}

// What writing refuses.
fn writings(rt: &HostRuntime) -> io::Result<()> {
    let mut bytes = [7u8; 49];
    let plain = Record::default();
    let begun = Record {
        letter: 'B',
        ..plain
    };
    let strange = Record {
        letter: 'x',
        ..plain
    };
    let fault = refusal(&[begun; 257], &mut bytes);
    println!(rt; "257 records: {fault}")?;
    let fault = refusal(&[begun, strange], &mut bytes);
    println!(rt; "unknown letter: {fault}")?;
    let fault = refusal(&[begun, begun], &mut bytes);
    println!(rt; "49 bytes for 64: {fault}")?;
    let untouched = bytes == [7u8; 49];
    println!(rt; "nothing written: {untouched}")?;
    match text::write::<Record>(&[], &mut bytes) {
        Ok(n) => println!(rt; "no records: {n} bytes"),
        Err(f) => refused(rt, "no records", f),
    }
}

// The definitions give what the rules say of fifteen small texts.
fn examples_stand() -> u8
    ensures examples { Examples }
{
    15
}

fn main(rt: HostRuntime) -> io::Result<()> {
    files(&rt)?;
    wrong(&rt)?;
    others(&rt)?;
    writings(&rt)?;
    let examples = examples_stand();
    println!(rt; "{examples} examples computed")
}
