// Where the rows of the tables are judged, and counted.
use crate::notation::text_of;
use std::alloc::{AllocError, Global};
use std::io;
use verdict::write_verdict;

const CASE_HEADER: &[u8] = b"thread,letter,target,value,seen,turn\r\n";

const EVIDENCE_HEADER: &[u8] = b"item,thread,place,count\r\n";

// What a buffer is filled with first: no verdict has such a byte.
const UNTOUCHED: u8 = 0xFF;

#[derive(Drop)]
pub struct Bench {
    case: Vec<u8>,
    pub evidence: Vec<u8>,
    // of the last row, as the table has it
    verdict: String,
    tests: u64,
    passed: u64,
}

impl Bench {
    pub fn new(heap: Global) -> Bench {
        Bench {
            case: Vec::new(heap),
            evidence: Vec::new(heap),
            verdict: String::new(heap),
            tests: 0,
            passed: 0,
        }
    }

    // Takes a line of a table: a text is kept, a row or a room is tested.
    pub fn take(&mut self, rt: &HostRuntime, line: &str) -> io::Result<()> {
        let heap = rt.alloc();
        let (word, rest) = line.split_once(' ').unwrap_or((line, ""));
        match word {
            "case" => self.case = text_of(heap, CASE_HEADER, rest)?,
            "evidence" => self.evidence = text_of(heap, EVIDENCE_HEADER, rest)?,
            "row" => return self.row(rt, rest),
            "room" => return self.room(rt, rest),
            "#" | "" => {}
            _ => println!(rt; "no line of a table: {line}")?,
        }
        Ok(())
    }

    // A row, as `NAME: ROW`.
    fn row(&mut self, rt: &HostRuntime, test: &str) -> io::Result<()> {
        let (_, row) = test.split_once(": ").unwrap_or((test, ""));
        self.verdict = format!(in rt.alloc(); "verdict,layer,refusal,place\r\n{row}\r\n")?;
        let mut out = [UNTOUCHED; 60];
        let came = match write_verdict(self.case.as_slice(), self.evidence.as_slice(), &mut out) {
            Ok(count) if count <= 60 => String::from_utf8_lossy(rt.alloc(), &out[0..count])?,
            _ => String::new(rt.alloc()),
        };
        let ok = came.as_str() == self.verdict.as_str();
        self.count(rt, test, ok, came.as_str())
    }

    // A buffer, as `LENGTH: ANSWER`.
    fn room(&mut self, rt: &HostRuntime, test: &str) -> io::Result<()> {
        let (length, answer) = test.split_once(": ").unwrap_or((test, ""));
        let came = self.answer_in(rt.alloc(), length.parse::<usize>().unwrap_or(0))?;
        let name = format!(in rt.alloc(); "room of {test}")?;
        self.count(rt, name.as_str(), came.as_str() == answer, came.as_str())
    }

    // What the call answers with a buffer of this length, and how many bytes of it are as they were.
    fn answer_in(&self, heap: Global, length: usize) -> Result<String, AllocError> {
        let mut out = vec![in heap; UNTOUCHED; length]?;
        let answer = write_verdict(
            self.case.as_slice(),
            self.evidence.as_slice(),
            out.as_mut_slice(),
        );
        let kept = out
            .as_slice()
            .iter()
            .filter(|byte| **byte == UNTOUCHED)
            .count();
        match answer {
            Ok(count) if out.as_slice().starts_with(self.verdict.as_bytes()) => {
                format!(in heap; "{count} written, {kept} as before")
            }
            Ok(count) => format!(in heap; "{count} of another text, {kept} as before"),
            Err(fault) => {
                let number = fault.number();
                let place = fault.place();
                format!(in heap; "{number} at {place}, {kept} as before")
            }
        }
    }

    fn count(&mut self, rt: &HostRuntime, test: &str, ok: bool, came: &str) -> io::Result<()> {
        self.tests = self.tests.saturating_add(1);
        if ok {
            self.passed = self.passed.saturating_add(1);
            println!(rt; "{test} ok")
        } else {
            println!(rt; "{test} FAILED: {came:?} came")
        }
    }

    pub fn report(&self, rt: &HostRuntime) -> io::Result<()> {
        let tests = self.tests;
        let passed = self.passed;
        println!(rt; "{tests} tests, {passed} ok")
    }
}
