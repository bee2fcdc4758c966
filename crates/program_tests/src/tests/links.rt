//! Connections without sockets: readers and writers that fail, that are slow, or that are interrupted.
mod entries;
mod hello;
mod pieces;
mod ports;
mod reading;
mod streams;
mod writing;
