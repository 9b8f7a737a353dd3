//! The calls of a register, an object, the machine of two copies, the running register and the
//! service that may lack memory, with growths of memory refused in turn: each returns that memory
//! ran out and has changed nothing, or it returns what it does with ample memory. All other calls
//! are tried by `verify/growths.py`.
#![tactic(auto)]

#[cfg(test)]
mod files;
#[cfg(test)]
mod live;
#[cfg(test)]
mod objects;
#[cfg(test)]
mod register_lines;
#[cfg(test)]
mod registers;
#[cfg(test)]
mod scarce;
#[cfg(test)]
mod sessions;
#[cfg(test)]
mod steps;
#[cfg(test)]
mod wrong_calls;
