// Answers by the document's cutoffs: what `pulltest` prints of a file, with a bar for each newline; of a Satterthwaite file the one `test` line; of a series that is archived its archive in digits and what the test from it prints.
use crate::buffer::{BAR, Buffer};
use crate::calls::{Answer, Answers};
use arithmetic_cutoffs::document_cutoffs;
use records::refusal::Refusal;
use records::{ARCHIVE_LENGTH, RecordKind};
use records_answer_text::{TEXT_ROOM, put_run};
use tests::Entry;
use tests_entries::no_entry;

// Where a contrast's entry stands.
const CONTRAST: usize = 6;

// The first and the last kind of the records that ask for tests: β, the contrast and β_H.
const FIRST_KIND: u8 = RecordKind::Beta as u8;

const LAST_KIND: u8 = RecordKind::BetaH as u8;

// Room for these records, 64 of 16 bytes: a series within the panel's limits has 48.
type Tests = Buffer<1024>;

#[derive(Clone, Copy)]
pub struct WithoutTable;

// What is printed of a run: its refusal, or its lines.
fn put_entries(number: u32, es: [Entry; 7], own: &mut Answer) {
    let mut text = [0u8; TEXT_ROOM];
    let n = put_run(&mut text, 0, number, es).min(TEXT_ROOM);
    own.put_barred(&text[..n]);
}

// What is printed of a file that is refused.
fn put_refused(refusal: Refusal, own: &mut Answer) {
    put_entries(u32::from(refusal), [no_entry(); 7], own);
}

// What the tests from an archive print.
fn put_tests(archive: &[u8], tests: &[u8], own: &mut Answer) {
    match records_archive_test::judge(document_cutoffs(), archive, tests) {
        Ok(es) => put_entries(0, es, own),
        Err(refusal) => put_refused(refusal, own),
    }
}

// The records of a series that ask for tests, as far as there is room.
fn own_tests(file: &[u8]) -> Tests {
    let mut tests = Buffer::new();
    let (records, _) = file.as_chunks::<16>();
    for (i, record) in records.iter().enumerate() {
        let kind = records_file::kind_of(file, i);
        if FIRST_KIND <= kind && kind <= LAST_KIND {
            tests.put(record);
        }
    }
    tests
}

impl Answers for WithoutTable {
    fn put_kenward_roger(&self, file: &[u8], own: &mut Answer) {
        let mut text = [0u8; TEXT_ROOM];
        let n = records_kenward_roger::text(file, &mut text).min(TEXT_ROOM);
        own.put_barred(&text[..n]);
    }

    // The one entry of this call stands where a contrast's does.
    fn put_satterthwaite(&self, file: &[u8], own: &mut Answer) {
        match records_ddf::judge(document_cutoffs(), file) {
            Ok(e) => {
                let mut es = [no_entry(); 7];
                es[CONTRAST] = e;
                put_entries(0, es, own);
            }
            Err(refusal) => put_refused(refusal, own),
        }
    }

    // An archive in digits, and the tests from it that the series' own records ask for.
    fn put_archive(&self, file: &[u8], own: &mut Answer) {
        let mut bytes = [0u8; ARCHIVE_LENGTH];
        let length = match records_archiving::archive(file, &mut bytes) {
            Ok(length) => length as usize,
            Err(refusal) => return put_refused(refusal, own),
        };
        let archive = &bytes[..ARCHIVE_LENGTH.min(length)];
        own.put(b"archive ");
        own.put_digits(archive);
        own.put_byte(BAR);
        let tests = own_tests(file);
        put_tests(archive, tests.text(), own);
    }

    fn put_archive_test(&self, archive: &[u8], tests: &[u8], own: &mut Answer) {
        put_tests(archive, tests, own);
    }
}
