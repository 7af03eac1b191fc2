//! Tests of the crates that read texts: schemas, requests, scripts, the words of the command line.
#![tactic(auto)]

#[cfg(test)]
mod request;
#[cfg(test)]
mod schema;
#[cfg(test)]
mod script;
#[cfg(test)]
mod words;
