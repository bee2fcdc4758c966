//! The protocol as laws: the lists of a system of sites, the permitted changes to them, the invariant,
//! and what follows. There is no program in this crate; other crates show that the desk of a site, its
//! appliers and a world of sites follow it. Read `specs/` in this order.
//!
//! - **Lists.** Sites divide one stock of rights. Each site has a log, which only it writes. For each other
//!   site's log it has three lists: the entries that reached it, those that were delivered in order (`put`),
//!   and those that it applied. Everything else is a function of these lists. A site holds the rights that it
//!   issued, was given by entries that it applied, and reclaimed, less those that it gave and spent. Rights
//!   that another site gave it by entries that it has not applied yet are in transit (`way`).
//! - **Changes.** A site appends an entry that issues, spends or gives, at most what it holds; an entry of a log
//!   is offered at another site, in any order, any number of times or never; a site applies the next delivered
//!   entry; a site closes. Each change is made by one site, from what that site knows. A closing entry has a
//!   frontier: for each other site, the number up to which the closing site applied its log. A site that applies
//!   the closing entry reclaims, in the same change, what it gave to the closed site beyond its own number in the
//!   frontier. (`Retiring` defines these words; `Writing` says what a site may write, `Changes` how each change
//!   affects the lists.)
//! - **Invariant.** Every change preserves a fact of each site, which names no other site's lists, and a fact
//!   of each link.
//! - **Headline.** So no more is ever spent than was issued, and rights held, spent and in transit are
//!   the rights issued. No site was ever short, and what a site applied of a log is a prefix of the
//!   longest prefix that reached it, each entry once and in order.
//! - **Retirement.** What a closed site had applied is its frontier for good. A site that applied the closing
//!   entry has reclaimed exactly what it gave beyond the frontier, once, and then nothing is in transit from
//!   there to the closed site. Nothing is reclaimed before.
//! - **Bounded Counter.** The lists form a Bounded Counter, as its authors define it: the rights that a site holds
//!   are its local rights according to what it has, and each change consists of operations of one site, each
//!   within its guard. (`BoundedCounter` has the authors' definitions, and the operation that reclaims;
//!   `CounterOfLists` reads the lists as such a counter; `CounterLaws` says what is proved.)
//! - **Schedules.** Sites that run independently take steps of their own, each of which reads and changes only its
//!   site's lists. Any interleaving of these steps is a run of the protocol, and all of the above holds at each
//!   moment. At a cut, where each site is read at a moment of its own, it follows from the facts of the sites,
//!   with no history. The premise is one writer for each log.
//! - **Crashes.** A site that keeps a journal of its steps starts again from what a crash left of it. As long as a
//!   site tells nothing before it is durable, all of the above holds of what is durable, of what is in memory, and of
//!   any mixture, whatever crashes come; and what was durable stays so.
//!
//! The laws are on empty functions, so that they are proved with the crate.
#![tactic(auto)]

mod counter;
mod crashes;
mod examples;
mod laws;
mod schedules;

pub use counter::{
    counter_is_safe, kept_counts, own_row_only, run_operates, small_counter, step_operates,
};
pub use crashes::{any_crash, durable_for_good, durable_schedule};
pub use examples::{
    both_close, full_is_turned_away, gap_fills, gift_is_taken_back, grant_is_spent, heir_inherits,
};
pub use laws::{
    applied_for_good, closed_for_good, every_moment, every_run, kept_promises, one_site,
    start_is_kept, step_keeps,
};
pub use schedules::{any_cut, any_schedule, local_keeps, local_run_kept};
