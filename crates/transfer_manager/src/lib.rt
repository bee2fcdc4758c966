//! Asks for rights between sites: how many rights a site that lacks some asks of each other site, and how it answers
//! the asks of others.
#![tactic(auto)]

mod answer;
pub mod laws;
mod manager;
mod peer_asks;
mod plan;
mod site_set;

pub use answer::AskAnswer;
pub use manager::Manager;
pub use site_set::SiteSet;
