// Certificates: tables of rows which show that the standing base is level by whole loads.
#![tactic(auto)]

pub mod checking;
pub mod making;
pub mod row;
mod sets;
pub mod theorem;
mod values;

pub use checking::check;
pub use making::certify;
pub use row::CertRow;
pub use theorem::{a_certificate_lasts, a_table_passes_exactly_when_level};
