// What a test answers: F and the degrees of freedom, each a number or none, the rank and the mark.
#![tactic(auto)]

ghost use Rattle.std.specs.Prelude.{◌≡◌, ◌<◌};
ghost use Rattle.tests.specs.Answer.{number_of};
ghost use Rattle.tests.specs.KenwardRoger.{with_test};

use arithmetic::plain::is_nan;

pub mod both;

// The result of one test. F and df are none where the Rust has NaN.
#[derive(Clone, Copy)]
pub struct Entry {
    pub f: Option<f64>,
    pub df: Option<f64>,
    pub rank: u8,
    pub inside: bool,
}

// One test: its entry, and whether it is refused.
#[derive(Clone, Copy)]
pub struct Tested {
    pub refused: bool,
    pub entry: Entry,
}

// A run: whether any of its tests is refused, and seven entries, coefficients 0 to 5 and the contrast.
#[derive(Clone, Copy)]
pub struct Run {
    pub refused: bool,
    pub entries: [Entry; 7],
}

impl Run {
    // The run with one test more, in entry i.
    pub fn with_test(self, i: usize, t: Tested) -> Run
        requires { i < 7 }
        ensures { result ≡ with_test i t self }
    {
        let mut entries = self.entries;
        entries[i] = t.entry;
        Run {
            refused: self.refused | t.refused,
            entries,
        }
    }
}

// What the coefficients are tested for: the estimates β, the values β_H of the hypothesis, and the contrast L of some rows, which is none where it has no rows.
#[derive(Clone, Copy)]
pub struct Hypothesis {
    pub beta: [f64; 6],
    pub beta_h: [f64; 6],
    pub rows: usize,
    pub l: [[f64; 6]; 6],
}

// The basis of a contrast: its rows, its rank, and the mark of every division of the contrast's rows.
#[derive(Clone, Copy)]
pub struct Basis<T> {
    pub rows: [[f64; 6]; 6],
    pub rank: usize,
    pub seen: T,
}

// The covariances of a model with p coefficients and as many matrices P as `matrices` says: Φ and Φ_A of the coefficients, and W of the parameters. The Ps go beside it: Rattle does not check a literal that holds an array of matrices yet.
#[derive(Clone, Copy)]
pub struct Covariances<T> {
    pub p: usize,
    pub matrices: usize,
    pub phi: [[T; 6]; 6],
    pub phi_a: [[T; 6]; 6],
    pub w: [[f64; 6]; 6],
}

// What a Satterthwaite test starts from, for p coefficients, q contrast rows and n parameters: L, β, β_H, the covariance v of β, and A, that of the parameters. The Jacobians go beside it, as the Ps do.
#[derive(Clone, Copy)]
pub struct TestInputs {
    pub p: usize,
    pub q: usize,
    pub n: usize,
    pub l: [[f64; 6]; 6],
    pub beta: [f64; 6],
    pub beta_h: [f64; 6],
    pub v: [[f64; 6]; 6],
    pub a: [[f64; 6]; 6],
}

// None where the Rust has a NaN.
pub fn number_of(x: f64) -> Option<f64>
    ensures { result ≡ number_of x }
{
    if is_nan(x) { None } else { Some(x) }
}
