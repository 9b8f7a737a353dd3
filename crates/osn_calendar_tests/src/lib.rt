//! Tests of the calendars and the territories over their public calls, of what neither a contract
//! nor a case says: labels that no territory has, and changes that the program doesn't make.
#![tactic(auto)]

#[cfg(test)]
mod compare;
#[cfg(test)]
mod labels;
#[cfg(test)]
mod territories;
