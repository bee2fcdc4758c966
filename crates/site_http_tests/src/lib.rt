//! Tests of site_http: requests as bytes over a connection, and the bytes of the responses.
#![tactic(auto)]

#[cfg(test)]
mod tests;
