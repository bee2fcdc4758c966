//! The manager by its public calls alone.
mod answers;
mod calls;
mod plans;
mod sixteen;
