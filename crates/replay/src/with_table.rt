// Answers by a lab's table: the number that the call returns and, where it accepts, a blank and the bytes that it writes, in digits.
use crate::calls::{Answer, Answers};
use records::refusal::result_number;
use records::{ANSWER_LENGTH, ARCHIVE_LENGTH, ENTRY_LENGTH};

#[derive(Clone, Copy)]
pub struct WithTable<'a> {
    pub table: &'a [u8],
}

// A number, and bytes behind it.
fn put_written(number: u32, bytes: &[u8], own: &mut Answer) {
    own.put_number(number);
    own.put(b" ");
    own.put_digits(bytes);
}

// The number that a call has returned and, where it is 0, the bytes that are filled.
fn put_filled(number: u32, bytes: &[u8], own: &mut Answer) {
    if number == 0 {
        put_written(number, bytes, own);
    } else {
        own.put_number(number);
    }
}

impl<'a> Answers for WithTable<'a> {
    fn put_kenward_roger(&self, file: &[u8], own: &mut Answer) {
        let mut answer = [0u8; ANSWER_LENGTH];
        let number = result_number(records_kenward_roger::call_with(self.table, file, &mut answer));
        put_filled(number, &answer, own);
    }

    fn put_satterthwaite(&self, file: &[u8], own: &mut Answer) {
        let mut answer = [0u8; ENTRY_LENGTH];
        let number = result_number(records_ddf::call_with(self.table, file, &mut answer));
        put_filled(number, &answer, own);
    }

    // The length of an archive and the archive, or the number that refuses.
    fn put_archive(&self, file: &[u8], own: &mut Answer) {
        let mut archive = [0u8; ARCHIVE_LENGTH];
        match records_archiving::archive_with(self.table, file, &mut archive) {
            Ok(length) => {
                put_written(length, &archive[..ARCHIVE_LENGTH.min(length as usize)], own)
            }
            Err(refusal) => own.put_number(u32::from(refusal)),
        }
    }

    fn put_archive_test(&self, archive: &[u8], tests: &[u8], own: &mut Answer) {
        let mut answer = [0u8; ANSWER_LENGTH];
        let tested = records_archive_test::test_with(self.table, archive, tests, &mut answer);
        put_filled(result_number(tested), &answer, own);
    }
}
