//! Worked cases over all layers, proved to be safe and then run.
#![tactic(auto)]

#[cfg(test)]
mod books;
#[cfg(test)]
mod examples_answered;
#[cfg(test)]
mod faults;
#[cfg(test)]
mod found;
#[cfg(test)]
mod memories;
#[cfg(test)]
mod scripts;
#[cfg(test)]
mod stores;
