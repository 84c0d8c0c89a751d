// The plain caster: its refusals in their order, at each limit and one beyond, and waves worked out by hand.
#![tactic(auto)]

#[cfg(test)]
mod making;
#[cfg(test)]
mod pictures;
#[cfg(test)]
mod refusals;
#[cfg(test)]
mod scenes;
#[cfg(test)]
mod told;
#[cfg(test)]
mod waves;
