//! HTTP for the clients of a site, as a service that has no thread, socket, clock or lock: how requests are told apart,
//! the reply to each line of a body, and the status, headers and body of each response.
//!
//! Only the lines of a `POST` change the client, and each of them is carried out once, in order. No command is carried
//! out whose reply finds no space. A body of one command may have a key, which the field `Idempotency-Key` gives.
#![tactic(auto)]

mod backend;
mod busy;
mod config;
mod fields;
mod hosts;
mod lines;
mod page;
mod replying;
mod request_fault;
mod request_key;
mod responding;
mod route;
mod service;
mod serving;

pub use backend::{Backend, LONGEST_REPLY};
pub use busy::Busy;
pub use config::service_config;
pub use replying::MAX_REPLIES;
pub use request_fault::RequestFault;
pub use request_key::RequestKey;
pub use route::{Allowed, Route};
pub use service::ClientService;
pub use serving::converse;
