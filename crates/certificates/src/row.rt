// One row of a certificate.

// A load, and a set of seats from which no unit can be given to a seat outside.
#[derive(Clone, Copy, PartialEq, Eq, Debug)]
pub struct CertRow {
    pub value: u32,
    pub set: u64,
}
