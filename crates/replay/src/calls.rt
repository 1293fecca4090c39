// The library's own answers, told apart by whose cutoffs they go by.
use crate::buffer::Buffer;
use crate::files::{COMMA, FILE, first_and_rest};
use crate::names::Task;
use table_bits_text::spell;

// Room for an answer, and more: an archive in digits, a text and what stands between them.
pub type Answer = Buffer<16384>;

// The answer to each task's file, or two files, by these cutoffs.
pub trait Answers {
    fn put_kenward_roger(&self, file: &[u8], own: &mut Answer);

    fn put_satterthwaite(&self, file: &[u8], own: &mut Answer);

    fn put_archive(&self, file: &[u8], own: &mut Answer);

    fn put_archive_test(&self, archive: &[u8], tests: &[u8], own: &mut Answer);
}

// The answer to the file, or the two files, that the digits spell.
pub fn put_answer<A: Answers>(by: &A, task: Task, digits: &[u8], own: &mut Answer) {
    let (first, second) = first_and_rest(digits, COMMA);
    let mut bytes = [0u8; FILE];
    let n = spell(first, &mut bytes);
    let file = &bytes[..n];
    match task {
        Task::KenwardRoger => by.put_kenward_roger(file, own),
        Task::Satterthwaite => by.put_satterthwaite(file, own),
        Task::Archive => by.put_archive(file, own),
        Task::ArchiveTest => {
            let mut tests = [0u8; FILE];
            let n = spell(second, &mut tests);
            by.put_archive_test(file, &tests[..n], own);
        }
    }
}
