//! Tests of a member's store in files: each call of a database's files is stopped, its file is cut, its bytes are changed.
#![tactic(auto)]

#[cfg(test)]
mod damaged;
#[cfg(test)]
mod files;
#[cfg(test)]
mod found;
#[cfg(test)]
mod life;
#[cfg(test)]
mod member;
#[cfg(test)]
mod remains;
#[cfg(test)]
mod states;
#[cfg(test)]
mod stops;
