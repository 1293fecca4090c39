// Replays a list of calls: reads it from standard input, answers each line by the library and compares the answer with the one that is stored in the line.
// A line is the name of its call, a blank, the call's files in hexadecimal digits (`-` for an empty file) with commas between, a blank, and the stored answer, to the line's end. vectors/README.md says what an answer looks like.
// Of each line that differs it prints the number, from 1, the call and the library's own answer, or what is wrong with the line; at the end, for each call, how many of its lines were answered as stored, and how many lines differ.
#![tactic(auto)]

mod buffer;
mod calls;
mod files;
mod names;
mod with_table;
mod without_table;

use buffer::{Buffer, NEWLINE};
use calls::{Answer, put_answer};
use files::{COMMA, FILE, first_and_rest};
use names::{Call, TASKS};
use table_bits_text::{spell, split_once};
use with_table::WithTable;
use without_table::WithoutTable;

// A line that fills it is too long. 32,768 digits of files, an archive of 7,184 bytes in digits and a text fit with room to spare.
type Line = Buffer<65537>;

// How much of the input is read at a time: what `io::large_buffer` has.
const PART: usize = 65536;

const BLANK: u8 = b' ';

// A line that can be answered: its call, its files in digits, and the stored answer.
#[derive(Clone, Copy)]
struct Asked<'a> {
    call: Call,
    digits: &'a [u8],
    stored: &'a [u8],
}

// What is wrong with a line that can't.
#[derive(Clone, Copy)]
enum Fault {
    NoCall,
    NoAnswer,
    OtherFiles,
}

impl Fault {
    fn text(self) -> &'static [u8] {
        match self {
            Fault::NoCall => b"is no call",
            Fault::NoAnswer => b"has no answer in its line",
            Fault::OtherFiles => b"has other files",
        }
    }
}

// A line that differs: its number, the word that stands for its call, and what is to be said.
fn print_difference(number: u64, word: &[u8], text: &[u8]) {
    io::print_decimal(1, number);
    io::write_all(1, b" ");
    io::write_all(1, word);
    io::write_all(1, b" ");
    io::write_all(1, text);
    io::write_all(1, b"\n");
}

// The line whose call a word names, and whose other parts stand behind it.
fn parts_of<'a>(word: &[u8], rest: &'a [u8]) -> Result<Asked<'a>, Fault> {
    let call = Call::named(word).ok_or(Fault::NoCall)?;
    let (digits, stored) = split_once(rest, BLANK).ok_or(Fault::NoAnswer)?;
    if files::unfit(digits, call.commas()) {
        return Err(Fault::OtherFiles);
    }
    Ok(Asked {
        call,
        digits,
        stored,
    })
}

// The library's own answer to the files of a call.
fn put_own(call: Call, digits: &[u8], own: &mut Answer) {
    if !call.with_table {
        return put_answer(&WithoutTable, call.task, digits, own);
    }
    let (first, rest) = first_and_rest(digits, COMMA);
    let mut table = [0u8; FILE];
    let n = spell(first, &mut table);
    let by = WithTable { table: &table[..n] };
    put_answer(&by, call.task, rest, own);
}

// The call of a line that is answered as stored.
fn judged(number: u64, line: &[u8]) -> Option<Call> {
    let (word, rest) = first_and_rest(line, BLANK);
    match parts_of(word, rest) {
        Ok(asked) => compared(number, word, asked),
        Err(fault) => {
            print_difference(number, word, fault.text());
            None
        }
    }
}

// The own answer beside the stored one: the call where they are the same.
fn compared(number: u64, word: &[u8], asked: Asked) -> Option<Call> {
    let mut own = Buffer::new();
    put_own(asked.call, asked.digits, &mut own);
    if own.text() == asked.stored {
        return Some(asked.call);
    }
    print_difference(number, word, own.text());
    None
}

// The list as far as it is read: the line that is held, of each call how many lines were answered as stored, how many differ, and how many there were.
#[derive(Drop)]
struct Reading {
    line: Line,
    answered: [u64; 8],
    differ: u64,
    lines: u64,
}

impl Reading {
    fn new() -> Self {
        Reading {
            line: Buffer::new(),
            answered: [0; 8],
            differ: 0,
            lines: 0,
        }
    }

    // The call of the line that is held, where it is answered as stored. One that is too long is not held whole, and differs whatever it says.
    fn judged(&self) -> Option<Call> {
        if self.line.is_full() {
            print_difference(self.lines, b"a line", b"is too long");
            return None;
        }
        judged(self.lines, self.line.text())
    }

    // Judges the line that is held, and counts it.
    fn close(&mut self) {
        self.lines = self.lines.saturating_add(1);
        match self.judged() {
            Some(call) => {
                let place = call.place();
                self.answered[place] = self.answered[place].saturating_add(1);
            }
            None => self.differ = self.differ.saturating_add(1),
        }
        self.line.clear();
    }

    fn take(&mut self, b: u8) {
        if b == NEWLINE {
            self.close();
        } else {
            self.line.put_byte(b);
        }
    }

    // The next 65,536 bytes of standard input, or what is left of it; whether it was the last.
    fn take_part(&mut self) -> bool {
        let mut part = io::large_buffer();
        let n = io::read_full(0, &mut part);
        for b in &part[..n] {
            self.take(*b);
        }
        n < PART
    }

    // All of standard input, with the last line, where no newline ends it. A proved loop has to end: as in `pulltest`, it counts its parts up to a number that no run reaches.
    fn take_all(&mut self) {
        for _ in 0..u64::MAX {
            if self.take_part() {
                break;
            }
        }
        if !self.line.is_empty() {
            self.close();
        }
    }

    // The counts, each behind its name.
    fn print_counts(&self) {
        for with_table in [false, true] {
            for task in TASKS {
                let call = Call { task, with_table };
                call.print_name();
                print_count(self.answered[call.place()]);
            }
        }
        io::write_all(1, b"differ");
        print_count(self.differ);
    }
}

fn print_count(n: u64) {
    io::write_all(1, b" ");
    io::print_decimal(1, n);
    io::write_all(1, b"\n");
}

fn main() {
    let mut list = Reading::new();
    list.take_all();
    list.print_counts();
}
