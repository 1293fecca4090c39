// Whether a contrast is all zero, off the sheet of the file that sends it: a series, or the second file of an archive.
#![tactic(auto)]

ghost use Rattle.std.specs.Prelude.{◌≡◌, ◌+◌, ◌*◌, ◌≤◌, length};
ghost use Rattle.records_sheet.specs.joints.Sheet.{Small};
ghost use Rattle.records_contrast.specs.joints.Contrast.{nonzeros, zero_contrast_in};

use records::Sizes;

// One of the m numbers from `at` on is not zero.
pub fn any_nonzero(sheet: &[f64], at: usize, m: usize) -> bool
    requires { at + m ≤ length sheet.now }
    ensures { result ≡ nonzeros sheet.now at m }
{
    sheet[at..at + m]
        .iter()
        .any(|x| !arithmetic::plain::is_zero(*x))
}

// A contrast whose every cell is zero: number 8. The contrast starts at `at`.
pub fn zero_contrast(z: Sizes, sheet: &[f64], at: usize) -> bool
    requires { Small z × (at + z.contrasts * z.coefficients ≤ length sheet.now) }
    ensures { result ≡ zero_contrast_in z sheet.now at }
{
    let rows = z.contrasts;
    if rows == 0 {
        return false;
    }
    !any_nonzero(sheet, at, rows * z.coefficients)
}
