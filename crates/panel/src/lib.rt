// The C functions of the office application: a lab's table and record bytes in, answer bytes or an archive out, and the number that refuses, 0 or the archive's length for none. Each function without a table is the one with it, at
// the built-in table.
#![tactic(auto)]

ghost use Rattle.std.specs.Prelude.{◌≡◌};
ghost use Rattle.records.specs.readers.CutoffTable.{built_in_table};
ghost use Rattle.records.specs.calls.KenwardRogerCall as series;
ghost use Rattle.records.specs.calls.SatterthwaiteCall as parameters;
ghost use Rattle.records.specs.calls.ArchiveCall as archives;

use records::refusal::result_number;
use records_archiving::archive_number;

// The Kenward–Roger call, of at most 24 specimens: seven entries in 168 bytes, coefficients 0–5 and the contrast. The answer keeps its contents where the number is not 0.
#[unsafe(no_mangle)]
pub extern "C" fn pull_kenward_roger_with(table: &[u8], records: &[u8], answer: &mut [u8]) -> u32
    ensures value { result ≡ series.returned 24 table.now records.now answer.old }
    ensures answer_after { answer.new ≡ series.written 24 table.now records.now answer.old }
{
    result_number(records_kenward_roger::call_with(table, records, answer))
}

#[unsafe(no_mangle)]
pub extern "C" fn pull_kenward_roger(records: &[u8], answer: &mut [u8]) -> u32
    ensures value { result ≡ series.returned 24 built_in_table records.now answer.old }
    ensures answer_after { answer.new ≡ series.written 24 built_in_table records.now answer.old }
{
    result_number(records_kenward_roger::call(records, answer))
}

// The Satterthwaite call: one entry in 24 bytes. The answer keeps its contents where the number is not 0.
#[unsafe(no_mangle)]
pub extern "C" fn pull_satterthwaite_with(table: &[u8], records: &[u8], answer: &mut [u8]) -> u32
    ensures value { result ≡ parameters.returned table.now records.now answer.old }
    ensures answer_after { answer.new ≡ parameters.written table.now records.now answer.old }
{
    result_number(records_ddf::call_with(table, records, answer))
}

#[unsafe(no_mangle)]
pub extern "C" fn pull_satterthwaite(records: &[u8], answer: &mut [u8]) -> u32
    ensures value { result ≡ parameters.returned built_in_table records.now answer.old }
    ensures answer_after { answer.new ≡ parameters.written built_in_table records.now answer.old }
{
    result_number(records_ddf::call(records, answer))
}

// The archive of a Kenward–Roger series of at most 24 specimens, at the front of 7,184 lent bytes: returns its length, at least 128, or the number that refuses, and then the bytes keep their contents.
#[unsafe(no_mangle)]
pub extern "C" fn pull_archive_with(table: &[u8], records: &[u8], archive: &mut [u8]) -> u32
    ensures value { result ≡ archives.archiving_returned 24 table.now records.now archive.old }
    ensures archive_after { archive.new ≡ archives.archiving_written 24 table.now records.now archive.old }
{
    archive_number(records_archiving::archive_with(table, records, archive))
}

#[unsafe(no_mangle)]
pub extern "C" fn pull_archive(records: &[u8], archive: &mut [u8]) -> u32
    ensures value { result ≡ archives.archiving_returned 24 built_in_table records.now archive.old }
    ensures archive_after { archive.new ≡ archives.archiving_written 24 built_in_table records.now archive.old }
{
    archive_number(records_archiving::archive(records, archive))
}

// The tests of a second file's β, contrast and β_H from an archive: seven entries in 168 bytes, as the Kenward–Roger call. The answer keeps its contents where the number is not 0.
#[unsafe(no_mangle)]
pub extern "C" fn pull_archive_test_with(
    table: &[u8],
    archive: &[u8],
    tests: &[u8],
    answer: &mut [u8],
) -> u32
    ensures value { result ≡ archives.testing_returned table.now archive.now tests.now answer.old }
    ensures answer_after { answer.new ≡ archives.testing_written table.now archive.now tests.now answer.old }
{
    result_number(records_archive_test::test_with(table, archive, tests, answer))
}

#[unsafe(no_mangle)]
pub extern "C" fn pull_archive_test(archive: &[u8], tests: &[u8], answer: &mut [u8]) -> u32
    ensures value { result ≡ archives.testing_returned built_in_table archive.now tests.now answer.old }
    ensures answer_after { answer.new ≡ archives.testing_written built_in_table archive.now tests.now answer.old }
{
    result_number(records_archive_test::test(archive, tests, answer))
}
