// Why a call turns a file away, and the number that its caller gets for it.
ghost use Rattle.std.specs.Prelude.{◌≡◌};
ghost use Rattle.adjustment.specs.Refusals.{adjustment_refusal_number};
ghost use Rattle.records.specs.format.RefusalNumbers.{refusal_number, result_number};

use adjustment::AdjustmentRefusal;

// What is wrong, in the order of the numbers 1 to 14 that README.md lists.
#[derive(Clone, Copy, PartialEq, Eq, Debug)]
pub enum Refusal {
    // The lent bytes have not the stated length.
    LentLength,
    // A file's length, or what its records say or leave out.
    Form,
    // A size outside its limits, or all weights zero.
    Size,
    // A number that is not finite.
    NotFinite,
    // sigma2 is not above zero.
    Variance,
    // A weight below zero.
    Weight,
    // The blocks do not fit the columns of Z or the thetas.
    Misfit,
    // A contrast that is all zero.
    ZeroContrast,
    // A Cholesky diagonal that is not above zero.
    NotDefinite,
    // A zero pivot in an elimination.
    ZeroPivot,
    // An eigenvalue that is not finite or not above zero.
    Eigenvalue,
    // Neighbouring records that do not rise.
    Order,
    // A block that does not say the number of its parameters.
    BlockCount,
    // A lab's table of cutoffs that is not one.
    CutoffTable,
}

impl From<Refusal> for u32 {
    ghost from_gives = { λ e n. n ≡ refusal_number e };

    fn from(refusal: Refusal) -> u32 {
        match refusal {
            Refusal::LentLength => 1,
            Refusal::Form => 2,
            Refusal::Size => 3,
            Refusal::NotFinite => 4,
            Refusal::Variance => 5,
            Refusal::Weight => 6,
            Refusal::Misfit => 7,
            Refusal::ZeroContrast => 8,
            Refusal::NotDefinite => 9,
            Refusal::ZeroPivot => 10,
            Refusal::Eigenvalue => 11,
            Refusal::Order => 12,
            Refusal::BlockCount => 13,
            Refusal::CutoffTable => 14,
        }
    }
}

// What refuses an adjustment refuses its file, under the same number.
impl From<AdjustmentRefusal> for Refusal {
    ghost from_gives = { λ early refusal. refusal_number refusal ≡ adjustment_refusal_number early };

    fn from(early: AdjustmentRefusal) -> Refusal {
        match early {
            AdjustmentRefusal::NotFinite => Refusal::NotFinite,
            AdjustmentRefusal::NotDefinite => Refusal::NotDefinite,
            AdjustmentRefusal::ZeroPivot => Refusal::ZeroPivot,
        }
    }
}

// The number of a result, as the callers in C get it: 0 where it is Ok.
pub fn result_number(returned: Result<(), Refusal>) -> u32
    ensures { result ≡ result_number returned }
{
    match returned {
        Ok(()) => 0,
        Err(refusal) => u32::from(refusal),
    }
}
