//! Tests of the service that neither a contract nor a case can show: streams that fail midway, how
//! often it writes, files that other programs change meanwhile, and what a terminal shows. What a
//! contract says is not tested again.
#![tactic(auto)]

#[cfg(test)]
mod changed_files;
#[cfg(test)]
mod failing_streams;
#[cfg(test)]
mod progress;
#[cfg(test)]
mod support;
#[cfg(test)]
mod writes;
