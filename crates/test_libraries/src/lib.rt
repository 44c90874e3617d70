//! Calls of libraries that no case reaches, and values from outside that their clauses are held to.
#![tactic(auto)]

#[cfg(test)]
mod commands;
#[cfg(test)]
mod cuts;
#[cfg(test)]
mod layouts;
#[cfg(test)]
mod names;
#[cfg(test)]
mod numbers;
#[cfg(test)]
mod outside;
#[cfg(test)]
mod system;
