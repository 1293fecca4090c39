// The kinds of number that an algorithm runs on: plain f64 numbers, and marked ones. Each algorithm is written once, and is proved for every kind by what this trait says.
ghost use Rattle.std.specs.Prelude.{◌≡◌, ◌≤◌};
ghost use Rattle.std.specs.Mem.{type_size};
ghost use Rattle.std.proofs.Common.{rules};
ghost use Rattle.algebra.specs.Kind.{Arith, floats, marks};

use arithmetic::Marked;

pub trait Scalar: Copy {
    // The operations, as the definitions have them.
    ghost arith: { Arith Self };

    // A constant.
    fn of(x: f64) -> Self
        ensures { result ≡ arith.of x };

    // The f64 that comparisons look at.
    fn value(self) -> f64
        ensures { result ≡ arith.value self };

    fn plus(self, other: Self) -> Self
        ensures { result ≡ arith.plus self other };

    fn minus(self, other: Self) -> Self
        ensures { result ≡ arith.minus self other };

    fn times(self, other: Self) -> Self
        ensures { result ≡ arith.times self other };

    fn over(self, other: Self) -> Self
        ensures { result ≡ arith.over self other };

    fn root(self) -> Self
        ensures { result ≡ arith.root self };

    // The sign cleared.
    fn unsigned(self) -> Self
        ensures { result ≡ arith.unsigned self };

    // The number, with the other's mark counted where there are marks.
    fn also(self, other: Self) -> Self
        ensures { result ≡ arith.also self other };

    // The mark that an entry shows.
    fn inside(self) -> bool
        ensures { result ≡ arith.inside self };

    // A number takes few bytes, so that every small matrix of them fits in memory.
    ghost few_bytes: { type_size Self.row ≤ 64 };
}

impl Scalar for f64 {
    ghost arith = { floats };

    ghost few_bytes = { Prim.search rules };

    fn of(x: f64) -> f64 {
        x
    }

    fn value(self) -> f64 {
        self
    }

    fn plus(self, other: f64) -> f64 {
        self + other
    }

    fn minus(self, other: f64) -> f64 {
        self - other
    }

    fn times(self, other: f64) -> f64 {
        self * other
    }

    fn over(self, other: f64) -> f64 {
        self / other
    }

    fn root(self) -> f64 {
        arithmetic::root::sqrt(self)
    }

    fn unsigned(self) -> f64 {
        arithmetic::plain::magnitude(self)
    }

    fn also(self, other: f64) -> f64 {
        self
    }

    fn inside(self) -> bool {
        true
    }
}

impl Scalar for Marked {
    ghost arith = { marks };

    ghost few_bytes = { Prim.search rules };

    fn of(x: f64) -> Marked {
        arithmetic_steps::given(x)
    }

    fn value(self) -> f64 {
        self.value
    }

    fn plus(self, other: Marked) -> Marked {
        arithmetic_steps::add(self, other)
    }

    fn minus(self, other: Marked) -> Marked {
        arithmetic_steps::sub(self, other)
    }

    fn times(self, other: Marked) -> Marked {
        arithmetic_steps::mul(self, other)
    }

    fn over(self, other: Marked) -> Marked {
        arithmetic_steps::div(self, other)
    }

    fn root(self) -> Marked {
        arithmetic_steps::square_root(self)
    }

    fn unsigned(self) -> Marked {
        arithmetic_steps::unsigned(self)
    }

    fn also(self, other: Marked) -> Marked {
        arithmetic_steps::also(self, other)
    }

    fn inside(self) -> bool {
        arithmetic_steps::is_inside(self)
    }
}
