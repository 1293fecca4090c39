// Torn specimens are left out of a series: on its sheet the rows of X and of Z and the weights of the others move to the front of their parts.
#![tactic(auto)]

ghost use Rattle.std.specs.Prelude.{◌≡◌, ℕ, ◌+◌, ◌≤◌, length, get_or};
ghost use Rattle.std.specs.Float.{nan};
ghost use Rattle.algebra_large.specs.joints.Slab.{put_row};
ghost use Rattle.records.specs.format.Kinds.{kinds_of};
ghost use Rattle.records.specs.format.Cells.{slot_count};
ghost use Rattle.records.specs.readers.Shortened.{kept_below};
ghost use Rattle.records_sheet.specs.joints.Sheet.{Small, first_slots};
ghost use Rattle.records_torn.specs.joints.Packed.{Packs, torn_at, packed_rows, kept_in, short_sheet};
ghost use Rattle.records.specs.declared.Shape.TheVariants.{Series};

use records::{RecordKind, Sizes};

// The `stride` numbers from `from` on are copied to `to`, which is not after them.
fn move_row(sheet: &mut [f64], from: usize, to: usize, stride: usize)
    requires { (to ≤ from) × (from + stride ≤ length sheet.old) }
    ensures { sheet.new ≡ put_row to stride (λ j. get_or sheet.old (from + j) nan) sheet.old }
{
    if from == to {
        return;
    }
    for j in 0..stride {
        sheet[to + j] = sheet[from + j];
    }
}

// The packing of X, of Z and of the weights, whatever the stride: of n rows of `stride` numbers from `at` on, one for each specimen, those of the specimens that are not torn move to the front, in their
// order. The specimens' weights start at `weights`. Returns how many rows these are.
pub fn pack_rows(sheet: &mut [f64], at: usize, stride: usize, weights: usize, n: usize) -> usize
    requires { Packs at stride weights n (length sheet.old) }
    ensures value { (result ≡ length (kept_below n (torn_at sheet.old weights))) × (result ≤ n) }
    ensures sheet_after { sheet.new ≡ packed_rows at stride (kept_below n (torn_at sheet.old weights)) sheet.old }
{
    let mut kept: usize = 0;
    for i in 0..n {
        if !arithmetic::plain::is_zero(sheet[weights + i]) {
            move_row(sheet, at + i * stride, at + kept * stride, stride);
            kept += 1;
        }
    }
    kept
}

// The shortened series on its sheet, whose kinds start at `firsts`; returns how many specimens it has.
pub fn shorten(z: Sizes, firsts: &[usize; 34], sheet: &mut [f64]) -> usize
    requires { Small z × (firsts.now ≡ first_slots (kinds_of Series z)) × (slot_count (kinds_of Series z) ≤ length sheet.old) }
    ensures value { (result ≡ length (kept_in z sheet.old)) × (result ≤ z.specimens) }
    ensures sheet_after { sheet.new ≡ short_sheet z sheet.old }
{
    let n = z.specimens;
    if !z.weighted {
        return n;
    }
    // X, Z and the weights start here.
    let x = firsts[RecordKind::X as usize];
    let random = firsts[RecordKind::Z as usize];
    let weights = firsts[RecordKind::Weight as usize];
    pack_rows(sheet, x, z.coefficients, weights, n);
    pack_rows(sheet, random, z.columns, weights, n);
    pack_rows(sheet, weights, 1, weights, n)
}
