// Examples of levelling and of certificates, run.
#![tactic(auto)]

#[cfg(test)]
mod certified;
#[cfg(test)]
mod graded;
#[cfg(test)]
mod levelled;
