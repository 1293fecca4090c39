// The Kenward–Roger covariance adjustment (the Rust's kr_vcov_adj.rs): its types and definitions, and the packing of the Qs.
#![tactic(auto)]

ghost use Rattle.std.specs.Prelude.{◌≡◌};
ghost use Rattle.adjustment.specs.Refusals.{adjustment_refusal_number};

pub mod packing;

// A block of random effects: k effects for each of m groups.
#[derive(Clone, Copy)]
pub struct Block {
    pub effects: usize,
    pub groups: usize,
}

// Where a variance parameter stands: the first column of its block in Z, the block's effects and groups, the first of its thetas, and the
// parameter's row and column in the block's lower triangle.
#[derive(Clone, Copy)]
pub struct Place {
    pub start: usize,
    pub effects: usize,
    pub groups: usize,
    pub first: usize,
    pub row: usize,
    pub column: usize,
}

// What Σ and the Gs look at of a design, as it is lent: Z, a row of so many columns for each specimen with a row stride, a weight for each specimen where there are weights, and
// the blocks of random effects, of which the first `count` are in use.
#[derive(Clone, Copy)]
pub struct CovarianceDesign<'a> {
    pub specimens: usize,
    pub z: &'a [f64],
    pub stride: usize,
    pub columns: usize,
    pub weights: Option<&'a [f64]>,
    pub blocks: [Block; 3],
    pub count: usize,
}

// A design whole, as it is lent: its covariance side, X, a row of so many coefficients for each specimen with a row stride, and the thetas of its blocks.
#[derive(Clone, Copy)]
pub struct LentDesign<'a> {
    pub covariance: CovarianceDesign<'a>,
    pub x: &'a [f64],
    pub x_stride: usize,
    pub coefficients: usize,
    pub theta: [f64; 3],
}

// An adjusted Φ, with what it was made with: W, and the number of Jacobi rotations. The Ps, which a struct cannot hold, since one with an array of three dimensions gets no proof,
// are lent beside it.
#[derive(Clone, Copy)]
pub struct AdjustedPhi {
    pub phi_a: [[f64; 6]; 6],
    pub w: [[f64; 6]; 6],
    pub rotations: usize,
}

// Why an adjustment is refused: a number of its output is not finite, Σ is not positive definite, or a pivot is zero.
#[derive(Clone, Copy, PartialEq, Eq, Debug)]
pub enum AdjustmentRefusal {
    NotFinite,
    NotDefinite,
    ZeroPivot,
}

impl From<AdjustmentRefusal> for u32 {
    ghost from_gives = { λ refusal number. number ≡ adjustment_refusal_number refusal };

    // Document 01's number.
    fn from(refusal: AdjustmentRefusal) -> u32 {
        match refusal {
            AdjustmentRefusal::NotFinite => 4,
            AdjustmentRefusal::NotDefinite => 9,
            AdjustmentRefusal::ZeroPivot => 10,
        }
    }
}
