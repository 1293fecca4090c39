// The archive's writer: the bytes of a series in, the bytes of its archive out. No test is made.
#![tactic(auto)]

ghost use Rattle.std.specs.Prelude.{◌≡◌, ◌*◌, ◌≤◌, length, cond, eqb};
ghost use Rattle.std.proofs.lemmas.List.Edits.{sets};
ghost use Rattle.records.specs.format.RefusalNumbers.{result_number};
ghost use Rattle.records.specs.readers.Series.{sizes, kinds};
ghost use Rattle.records.specs.calls.KenwardRogerCall.{adjusted};
ghost use Rattle.records.specs.readers.Archive.{archive_bytes, archive_length};
ghost use Rattle.records.specs.readers.CutoffTable.{built_in_table};
ghost use Rattle.records.specs.calls.ArchiveCall.{series_archive, series_refusal, archiving_refusal, archiving_returned, archiving_written};
ghost use Rattle.records.specs.format.Kinds.{panel_limit};
ghost use Rattle.records_sheet.specs.joints.Sheet.{first_slots};
ghost use Rattle.records_refusals.specs.joints.Room.{Room, SeriesRead, SeriesShort};
ghost use Rattle.records_archiving.specs.joints.Told.{archive_number};

use arithmetic_cutoffs::{Cutoffs, document_cutoffs};
use records::refusal::Refusal;
use records::{ARCHIVE_LENGTH, PANEL_LIMIT, RecordKind, Shape, Sizes};
use records_archive_bytes::put_archive;
use records_kenward_roger::{PANEL_CELLS, PANEL_NARROW, PANEL_WORK};

// A length as a number that a call tells.
fn told(length: usize) -> u32
    requires { length ≤ archive_length }
    ensures { result ≡ length }
{
    length as u32
}

// What the writer gives, as the one number that its caller in C gets: the length, at least 128, or the number of what refuses.
pub fn archive_number(told: Result<u32, Refusal>) -> u32
    ensures { result ≡ archive_number told }
{
    match told {
        Ok(length) => length,
        Err(refusal) => u32::from(refusal),
    }
}

// The archive of a series that the reader takes, from its sheet and its adjustment, at the front of the lent bytes; its length.
fn put_series(
    limit: usize,
    c: Cutoffs,
    s: &[u8],
    z: Sizes,
    firsts: &[usize; 34],
    sheet: &[f64],
    phi_a: &[[f64; 6]; 6],
    ps: &[[[f64; 6]; 6]; 4],
    w: &[[f64; 6]; 6],
    archive: &mut [u8],
) -> u32
    requires series_short { SeriesShort limit s.now z firsts.now sheet.now × (length archive.old ≡ archive_length) }
    requires phi_a_value { (phi_a.now ≡ (adjusted c s.now).phi_a) × (ps.now ≡ (adjusted c s.now).ps) × (w.now ≡ (adjusted c s.now).w) }
    ensures value { result ≡ length (archive_bytes (series_archive c s.now)) }
    ensures archive_after { archive.new ≡ sets archive.old 0 (archive_bytes (series_archive c s.now)) }
{
    let p = z.coefficients;
    let blocks = records_series::blocks_of(s, z.blocks);
    let n = adjustment_covariance::blocks::places_before(blocks, z.blocks) + 1;
    // Φ and sigma2 start here.
    let square = firsts[RecordKind::Phi as usize];
    let variance = firsts[RecordKind::Sigma2 as usize];
    let phi = records_sheet_parts::cells_at(sheet, square, p, p);
    let sigma2 = sheet[variance];
    told(put_archive(archive, p, n, &phi, phi_a, ps, w, sigma2))
}

// The same from the series' bytes and sheet, on which the torn specimens are left out: what refuses the adjustment, and then the lent bytes stay as they are.
fn adjust_and_put(
    limit: usize,
    c: Cutoffs,
    s: &[u8],
    sheet: &mut [f64],
    work: &mut [f64],
    narrow: &mut [f64],
    archive: &mut [u8],
) -> Result<u32, Refusal>
    requires series_read { SeriesRead limit s.now (sizes s.now) (first_slots (kinds s.now)) sheet.old × (length archive.old ≡ archive_length) }
    requires limit_in_bounds { (6 * (limit * limit) ≤ length work.old) × (36 * limit ≤ length narrow.old) }
    ensures value { result_number result ≡ series_refusal limit c s.now }
    ensures told { archive_number result ≡ cond (eqb (series_refusal limit c s.now) 0) (length (archive_bytes (series_archive c s.now))) (series_refusal limit c s.now) }
    ensures archive_after { archive.new ≡ cond (eqb (series_refusal limit c s.now) 0) (sets archive.old 0 (archive_bytes (series_archive c s.now))) archive.old }
{
    let z = records_sizes::series_sizes(s);
    let firsts = records_sheet::first_slots(Shape::Series, z);
    let n = records_torn::shorten(z, &firsts, sheet);
    let mut ps = [algebra_products::zeros(); 4];
    let adjusted = records_kenward_roger::kenward_roger_modcomp_data(
        limit,
        c,
        s,
        z,
        n,
        &firsts,
        &sheet[..],
        work,
        narrow,
        &mut ps,
    )?;
    Ok(put_series(
        limit,
        c,
        s,
        z,
        &firsts,
        &sheet[..],
        &adjusted.phi_a,
        &ps,
        &adjusted.w,
        archive,
    ))
}

// The archive of a file, whatever its bytes are, with a limit of specimens and these cutoffs, in 7,184 lent bytes. What is lent for the reading and for the adjustment has the room that the limit asks for.
pub fn archive_series(
    limit: usize,
    c: Cutoffs,
    s: &[u8],
    flags: &mut [bool],
    sheet: &mut [f64],
    work: &mut [f64],
    narrow: &mut [f64],
    archive: &mut [u8],
) -> Result<u32, Refusal>
    requires { Room limit flags.old sheet.old × (6 * (limit * limit) ≤ length work.old) × (36 * limit ≤ length narrow.old) × (length archive.old ≡ archive_length) }
    ensures value { result_number result ≡ series_refusal limit c s.now }
    ensures told { archive_number result ≡ cond (eqb (series_refusal limit c s.now) 0) (length (archive_bytes (series_archive c s.now))) (series_refusal limit c s.now) }
    ensures archive_after { archive.new ≡ cond (eqb (series_refusal limit c s.now) 0) (sets archive.old 0 (archive_bytes (series_archive c s.now))) archive.old }
{
    records_refusals::refusal(limit, s, flags, sheet)?;
    adjust_and_put(limit, c, s, sheet, work, narrow, archive)
}

// The same at the panel, whose limit is 24 specimens: room for every cell that it allows, for six squares of 24 rows of 24 and for six parts of 24 rows of 6.
fn archive_panel(c: Cutoffs, s: &[u8], archive: &mut [u8]) -> Result<u32, Refusal>
    requires { length archive.old ≡ archive_length }
    ensures value { result_number result ≡ series_refusal panel_limit c s.now }
    ensures told { archive_number result ≡ cond (eqb (series_refusal panel_limit c s.now) 0) (length (archive_bytes (series_archive c s.now))) (series_refusal panel_limit c s.now) }
    ensures archive_after { archive.new ≡ cond (eqb (series_refusal panel_limit c s.now) 0) (sets archive.old 0 (archive_bytes (series_archive c s.now))) archive.old }
{
    let mut flags = [false; PANEL_CELLS];
    let mut sheet = [0.0; PANEL_CELLS];
    let mut work = [0.0; PANEL_WORK];
    let mut narrow = [0.0; PANEL_NARROW];
    archive_series(
        PANEL_LIMIT,
        c,
        s,
        &mut flags,
        &mut sheet,
        &mut work,
        &mut narrow,
        archive,
    )
}

// The call with a lab's table: the records, and 7,184 bytes for the archive. 1 for the lent length, 14 for the table; then the archive's length, or what refuses it, and then the bytes stay as they are.
pub fn archive_with(table: &[u8], records: &[u8], archive: &mut [u8]) -> Result<u32, Refusal>
    ensures value { result_number result ≡ archiving_refusal panel_limit table.now records.now archive.old }
    ensures told { archive_number result ≡ archiving_returned panel_limit table.now records.now archive.old }
    ensures archive_after { archive.new ≡ archiving_written panel_limit table.now records.now archive.old }
{
    if archive.len() != ARCHIVE_LENGTH {
        return Err(Refusal::LentLength);
    }
    if records_cutoffs::bad_table(table) {
        return Err(Refusal::CutoffTable);
    }
    archive_panel(records_cutoffs::cutoffs_in(table), records, archive)
}

// The call without a table: the one with the built-in table, whose numbers are at hand.
pub fn archive(records: &[u8], archive: &mut [u8]) -> Result<u32, Refusal>
    ensures value { result_number result ≡ archiving_refusal panel_limit built_in_table records.now archive.old }
    ensures told { archive_number result ≡ archiving_returned panel_limit built_in_table records.now archive.old }
    ensures archive_after { archive.new ≡ archiving_written panel_limit built_in_table records.now archive.old }
{
    let lent = archive.len();
    if lent != ARCHIVE_LENGTH {
        return Err(Refusal::LentLength);
    }
    archive_panel(document_cutoffs(), records, archive)
}
