// How many answers were equal, and the lines that say so.
use questions::Call;
use std::fmt;

// The entries that have a line, the first of `Call::ALL`, and the numbers that are told.
const ENTRIES: usize = 23;

const NUMBERS: usize = 22;

// A call is counted by the last five bits of its byte, so a byte that no entry has counts for the entry that has those.
const CALLS: u8 = 32;

// The equal answers of an entry, by number.
#[derive(Clone, Copy)]
struct Row {
    call: Call,
    equal: [u32; NUMBERS],
}

// Equal answers by entry and number; all questions, all equal ones, those of them that the documents alone decide; and the first question that
// differs, counted from 1.
#[derive(Clone, Copy)]
pub struct Tally {
    cells: [[u32; NUMBERS]; 26],
    asked: u32,
    equal: u32,
    by_documents: u32,
    first: Option<u32>,
}

impl Tally {
    pub fn new() -> Self {
        Tally {
            cells: [[0; NUMBERS]; 26],
            asked: 0,
            equal: 0,
            by_documents: 0,
            first: None,
        }
    }

    // One question more, whose answer is equal.
    pub fn agrees(&mut self, call: u8, number: u8, by_documents: bool) {
        self.asked = self.asked.wrapping_add(1);
        self.equal = self.equal.wrapping_add(1);
        if by_documents {
            self.by_documents = self.by_documents.wrapping_add(1);
        }
        if let Ok(call) = Call::try_from(call % CALLS) {
            self.add(call, number);
        }
    }

    // One more whose answer differs.
    pub fn differs(&mut self) {
        self.asked = self.asked.wrapping_add(1);
        if self.first.is_none() {
            self.first = Some(self.asked);
        }
    }

    fn add(&mut self, call: Call, number: u8) {
        let row = call as usize - 1;
        let number = number as usize % NUMBERS;
        self.cells[row][number] = self.cells[row][number].wrapping_add(1);
    }
}

impl fmt::Display for Row {
    fn fmt<W: fmt::Write>(&self, f: &mut fmt::Formatter<W>) -> fmt::Result {
        let call = self.call;
        write!(f, "{call}")?;
        for (number, equal) in self.equal.iter().enumerate() {
            if *equal != 0 {
                write!(f, " {number}:{equal}")?;
            }
        }
        Ok(())
    }
}

impl fmt::Display for Tally {
    fn fmt<W: fmt::Write>(&self, f: &mut fmt::Formatter<W>) -> fmt::Result {
        for (call, equal) in Call::ALL.iter().zip(self.cells.iter()).take(ENTRIES) {
            let row = Row {
                call: *call,
                equal: *equal,
            };
            writeln!(f, "{row}")?;
        }
        let equal = self.equal;
        let asked = self.asked;
        let by_documents = self.by_documents;
        writeln!(
            f,
            "{equal} of {asked} answers are equal, {by_documents} of them by the documents alone"
        )?;
        if let Some(first) = self.first {
            writeln!(f, "the first that differs is question {first}")?;
        }
        Ok(())
    }
}
