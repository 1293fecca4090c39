// The lab's small numbers, as document 01 writes them.
#![tactic(auto)]

ghost use Rattle.std.specs.Prelude.{◌≡◌};
ghost use Rattle.arithmetic_cutoffs.specs.Cutoffs.{document_cutoffs};

// The lab's small numbers, which go by value through every function that looks at one: a2 and d; V0 and V2; the divisor of div; qρ − 1; df near 2;
// the smallest eigenvalue of IE; what joins its diagonal; the factor of the rotation test; the cap of a component's df.
#[derive(Clone, Copy)]
pub struct Cutoffs {
    pub moment: f64,
    pub leading: f64,
    pub divisor: f64,
    pub excess: f64,
    pub near: f64,
    pub eigenvalue: f64,
    pub ridge: f64,
    pub rotation: f64,
    pub cap: f64,
}

// A caller passes these on, or others of its own.
pub fn document_cutoffs() -> Cutoffs
    ensures { result ≡ document_cutoffs }
{
    Cutoffs {
        moment: 1e-15,
        leading: 1e-10,
        divisor: 1e-10,
        excess: 1e-12,
        near: 1e-2,
        eigenvalue: 1e-10,
        ridge: 1e-8,
        rotation: 7.888609052210118e-31,
        cap: 3000.0,
    }
}
