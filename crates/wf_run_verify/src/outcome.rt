//! The results of checks.

/// The claim of a report that a check accepted.
#[derive(Clone, Copy, Debug, PartialEq, Eq)]
pub enum Accepted {
    /// The report's map is a decision map.
    Map,
    /// There is no decision map.
    Nothing,
    /// The report's map is the least decision map.
    Least,
}

/// The result of a check that accepted a certificate.
#[derive(Clone, Copy, Debug, PartialEq, Eq)]
pub enum Verified {
    /// The certificate is a report with the given claim.
    Report(Accepted),
    /// The certificate is an obstruction, so there is no decision map after any number of rounds.
    Obstruction,
}
