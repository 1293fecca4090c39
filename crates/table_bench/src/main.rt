// Document 01's bench examples (a) to (j): a line for each letter, with what the functions give. (k) is run by table_adjustment, the `pulltest` example by pulltest.
#![tactic(auto)]

ghost use Rattle.std.specs.Prelude.{◌≤◌};

use adjustment::packing::index_symmat2vec;
use adjustment_response_units::scaled_up;
use arithmetic_cutoffs::document_cutoffs;
use arithmetic_steps::given;
use tests::{Covariances, Hypothesis, TestInputs};
use tests_ddf::pooled::get_fstat_ddf;
use tests_ddf::satterthwaite::satterthwaite_contrast_f_test;
use tests_ddf::variance::variance_df;
use tests_kr_modcomp::full_rank::scaled_ps;
use tests_kr_modcomp::modcomp::kr_modcomp_test;

fn print_number(n: Option<f64>) {
    io::write_all(1, b" ");
    match n {
        Some(x) => table_bits_text::print_word(arithmetic::plain::to_bits(x)),
        None => {
            io::write_all(1, b"none");
        }
    }
}

// A letter, and the numbers behind it.
fn print_line(letter: &[u8], numbers: &[Option<f64>]) {
    io::write_all(1, letter);
    for n in numbers {
        print_number(*n);
    }
    io::write_all(1, b"\n");
}

// (a) and (b): where Q_rs is packed for three matrices.
fn print_places(letter: &[u8], places: &[usize]) {
    io::write_all(1, letter);
    for at in places {
        io::write_all(1, b" ");
        io::print_decimal(1, *at as u64);
    }
    io::write_all(1, b"\n");
}

// (c), (d) and (e): the components' degrees of freedom made one.
fn print_pooled(letter: &[u8], dfs: [f64; 6], n: usize)
    requires { n ≤ 6 }
{
    print_line(letter, &[Some(get_fstat_ddf(dfs, n, 1e-8))]);
}

// (f) and (g): one variance, its gradient 2, A 4.
fn print_variances() {
    let gradient = [given(2.0); 6];
    let a = [[4.0; 6]; 6];
    print_line(b"f", &[variance_df(given(2.0), gradient, a, 1)]);
    print_line(b"g", &[variance_df(given(0.0), gradient, a, 1)]);
}

// (h): one coefficient, Φ 1, Φ_A 4, P -1, W 2, L -8, β 6.
fn print_contrast() {
    let scaled = Covariances {
        p: 1,
        matrices: 1,
        phi: scaled_up(1, [[1.0; 6]; 6], 1.0),
        phi_a: scaled_up(1, [[4.0; 6]; 6], 1.0),
        w: [[2.0; 6]; 6],
    };
    let ps = scaled_ps(&[[[-1.0; 6]; 6]; 4], 1.0, 1, 1);
    let hypothesis = Hypothesis {
        beta: [6.0; 6],
        beta_h: [0.0; 6],
        rows: 1,
        l: [[-8.0; 6]; 6],
    };
    let e = kr_modcomp_test(document_cutoffs(), &scaled, &ps, &hypothesis).entry;
    print_line(b"h", &[e.f, e.df]);
}

// (i) and (j): v = diag(4, 1), one Jacobian equal to v, β (4, 1); L the first q rows of the identity, A as given.
fn print_parameters(letter: &[u8], q: usize, a: f64)
    requires { q ≤ 6 }
{
    let mut v = algebra_products::zeros();
    v[0][0] = 4.0;
    v[1][1] = 1.0;
    let inputs = TestInputs {
        p: 2,
        q,
        n: 1,
        l: algebra_products::identity(2),
        beta: [4.0, 1.0, 0.0, 0.0, 0.0, 0.0],
        beta_h: [0.0; 6],
        v,
        a: [[a; 6]; 6],
    };
    let e = satterthwaite_contrast_f_test(document_cutoffs(), &inputs, &[v; 4]).entry;
    print_line(letter, &[e.f, e.df]);
}

fn main() {
    print_places(
        b"a",
        &[index_symmat2vec(1, 2, 3), index_symmat2vec(2, 1, 3)],
    );
    print_places(b"b", &[index_symmat2vec(2, 2, 3)]);
    print_pooled(b"c", [6.0, 6.0, 4.0, 0.0, 0.0, 0.0], 3);
    print_pooled(b"d", [1.0, 1.0, 0.0, 0.0, 0.0, 0.0], 2);
    print_pooled(b"e", [2.0, 5.0, 0.0, 0.0, 0.0, 0.0], 2);
    print_variances();
    print_contrast();
    print_parameters(b"i", 2, 0.5);
    print_parameters(b"j", 2, 0.000244140625);
    print_parameters(b"j", 1, 0.000244140625);
}
