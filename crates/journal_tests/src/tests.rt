//! A journal by its public calls alone.
mod ahead;
mod crashes;
mod failures;
mod files;
mod kit;
mod records;
mod sites;
