// The record files: their definitions (specs/), and what the table of kinds says of one kind.

#![tactic(auto)]

pub mod refusal;

// The kinds of record, each with its number in a file, as specs/format/KindNumbers.antt has them.
#[derive(Clone, Copy, PartialEq, Eq)]
pub enum RecordKind {
    X = 1,
    Z = 2,
    Block = 3,
    Theta = 4,
    Weight = 5,
    Phi = 6,
    Sigma2 = 7,
    Beta = 8,
    Contrast = 9,
    BetaH = 10,
    ScaledPhi = 11,
    ScaledPhiA = 12,
    ScaledP = 13,
    W = 14,
    ArchivedPhi = 15,
    ArchivedPhiA = 16,
    ArchivedP = 17,
    ArchivedSigma2 = 18,
    V = 30,
    Jacobian = 31,
    A = 32,
}

// The bytes of an entry, of an answer of seven, and of the longest archive; the panel's limit of specimens; and what the programs keep of a file, which has room for every record within that limit.
pub const ENTRY_LENGTH: usize = 24;

pub const ANSWER_LENGTH: usize = 168;

pub const ARCHIVE_LENGTH: usize = 7184;

pub const PANEL_LIMIT: usize = 24;

pub const KEPT_LENGTH: usize = 16384;

// Which file it is: a Kenward and Roger series, a Satterthwaite test, an archive, or the second file that is lent with one.
#[derive(Clone, Copy)]
pub enum Shape {
    Series,
    Test,
    Archived,
    Second,
}

// What a field of a record is: an index below a limit, a number of its own, or unused.
#[derive(Clone, Copy)]
pub enum Field {
    Index(usize),
    Number,
    Unused,
}

// What the eight value bytes of a record are: the bits of an f64, or a number in the first of them and zeros.
#[derive(Clone, Copy)]
pub enum Value {
    Float,
    FirstByte,
}

// What the records of a kind have in each field, and whether a cell may be absent, as Z's may.
#[derive(Clone, Copy)]
pub struct Kind {
    pub count: Field,
    pub row: Field,
    pub column: Field,
    pub value: Value,
    pub sparse: bool,
}

// The sizes of a file: specimens, coefficients, columns of Z, blocks, thetas, contrast rows, Satterthwaite's parameters; whether there are weights, and β_H.
#[derive(Clone, Copy)]
pub struct Sizes {
    pub specimens: usize,
    pub coefficients: usize,
    pub columns: usize,
    pub blocks: usize,
    pub thetas: usize,
    pub contrasts: usize,
    pub parameters: usize,
    pub weighted: bool,
    pub hypothesis: bool,
}
