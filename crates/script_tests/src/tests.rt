//! Scripts and events with ample memory, and with each memory request refused.

mod events;
mod heaps;
mod memory;
mod pairs;
mod script;
mod session;
mod sizes;
mod sweeps;
mod writers;

use std::alloc::Global;
use transfer_world::{run_last_script, run_script};

/// More requests than any run here makes.
const MANY: u64 = 1000;

/// Whether the script runs to its end with these replies, both if its world is dropped and if it is left.
fn is_replied(alloc: Global, script: &[u8], replies: &[u8]) -> bool {
    let mut reader = script;
    let mut out = Vec::new(alloc);
    let result = run_script(alloc, &mut reader, &mut out);
    result.is_ok() && out.as_slice() == replies && is_replied_last(alloc, script, replies)
}

fn is_replied_last(alloc: Global, script: &[u8], replies: &[u8]) -> bool {
    let mut reader = script;
    let mut out = Vec::new(alloc);
    let result = run_last_script(alloc, &mut reader, &mut out);
    result.is_ok() && out.as_slice() == replies
}
