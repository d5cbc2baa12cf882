//! Tests of `text_code`: the functions of a text in its order, each with its name, how many parameters it has, and its code; and
//! that the verifier passes the code of texts: one with each construct, and those at the limits of a text.
#![tactic(auto)]

#[cfg(test)]
mod constructs;
#[cfg(test)]
mod limits;
#[cfg(test)]
mod texts;
#[cfg(test)]
mod verdicts;
