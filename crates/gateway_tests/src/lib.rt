//! Tests of what is said to gateways and by them: records of FastCGI, the requests and answers of HTTP gateways, and the
//! choice of a host. Nothing here is for use.
//!
//! Each row is what is said, however it is cut, and what it is read as by the FastCGI Specification or RFC 9112.
#![tactic(auto)]

#[cfg(test)]
mod answers;
#[cfg(test)]
mod asking;
#[cfg(test)]
mod hosts;
#[cfg(test)]
mod records;
