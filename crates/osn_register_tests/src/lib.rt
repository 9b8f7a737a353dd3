//! Tests of the register, of the running register and of desks over their public calls, of what
//! neither a contract nor a case says: calls that the program does not make, with ample memory, and
//! threads.
#![tactic(auto)]

#[cfg(test)]
mod compare;
#[cfg(test)]
mod desks;
#[cfg(test)]
mod fault_words;
#[cfg(test)]
mod gates;
#[cfg(test)]
mod live;
#[cfg(test)]
mod names;
#[cfg(test)]
mod readers;
#[cfg(test)]
mod register;
#[cfg(test)]
mod register_lines;
