// Examples, run: table by table, on both sides of each limit.
#![tactic(auto)]

#[cfg(test)]
mod bounds;
#[cfg(test)]
mod carries;
#[cfg(test)]
mod chained;
#[cfg(test)]
mod depths;
#[cfg(test)]
mod sets;
