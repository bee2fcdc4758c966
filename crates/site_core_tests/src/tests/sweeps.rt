//! Calls of desks over many sizes with ample memory. A call that gives up at one of them can be proved, since it may
//! always run out of memory; it is found here.
use crate::tests::calls::Put;
use crate::tests::sites::plays_amply;
use crate::tests::templates::fill;
use request_queue::SLOTS;
use std::alloc::AllocError;

// Site 15 posts 16 greatest issues and 16 greatest gifts.
const POST_GREATEST: &str = "\
post 15 I:1000000000 I:1000000000 I:1000000000 I:1000000000 I:1000000000 I:1000000000 I:1000000000 I:1000000000 \
I:1000000000 I:1000000000 I:1000000000 I:1000000000 I:1000000000 I:1000000000 I:1000000000 I:1000000000 > number 16
post 15 R:16:1000000000 R:16:1000000000 R:16:1000000000 R:16:1000000000 R:16:1000000000 R:16:1000000000 \
R:16:1000000000 R:16:1000000000 R:16:1000000000 R:16:1000000000 R:16:1000000000 R:16:1000000000 R:16:1000000000 \
R:16:1000000000 R:16:1000000000 R:16:1000000000 > number 32
";

const PUBLISH_GREATEST: &str = "\
publish 15 $1 > E 15 0 16 I:1000000000 I:1000000000 I:1000000000 I:1000000000 I:1000000000 I:1000000000 I:1000000000 \
I:1000000000 I:1000000000 I:1000000000 I:1000000000 I:1000000000 I:1000000000 I:1000000000 I:1000000000 I:1000000000
publish 15 $1 > E 15 16 32 R:16:1000000000 R:16:1000000000 R:16:1000000000 R:16:1000000000 R:16:1000000000 \
R:16:1000000000 R:16:1000000000 R:16:1000000000 R:16:1000000000 R:16:1000000000 R:16:1000000000 R:16:1000000000 \
R:16:1000000000 R:16:1000000000 R:16:1000000000 R:16:1000000000
publish 15 $1 > nothing
";

const ANSWER_GREATEST: &str = "\
hear 15 Q 14 15 1 32 > A 15 14;E 15 0 16 I:1000000000 I:1000000000 I:1000000000 I:1000000000 I:1000000000 \
I:1000000000 I:1000000000 I:1000000000 I:1000000000 I:1000000000 I:1000000000 I:1000000000 I:1000000000 I:1000000000 \
I:1000000000 I:1000000000;E 15 16 32 R:16:1000000000 R:16:1000000000 R:16:1000000000 R:16:1000000000 \
R:16:1000000000 R:16:1000000000 R:16:1000000000 R:16:1000000000 R:16:1000000000 R:16:1000000000 R:16:1000000000 \
R:16:1000000000 R:16:1000000000 R:16:1000000000 R:16:1000000000 R:16:1000000000
";

fn put_greatest(script: &mut String) -> Put {
    script.push_str(POST_GREATEST)?;
    for peer in 1..=16u64 {
        if peer != 15 {
            fill(script, PUBLISH_GREATEST, &[peer])?;
        }
    }
    script.push_str(ANSWER_GREATEST)
}

/// The longest entries that a desk posts: 16 gifts of the greatest amount.
#[test]
fn the_longest_posts_are_published(rt: HostRuntime) {
    let mut script = String::new(rt.alloc());
    put_greatest(&mut script).expect(&rt, "memory");
    plays_amply(&rt, 16, &script);
}

const APPLY_ONE: &str = "\
hear 1 E $1 $2 $3 I:1 I:1 I:1 I:1 I:1 I:1 I:1 I:1 I:1 I:1 I:1 I:1 I:1 I:1 I:1 I:1 > taken $3
";

const CLOSE_FOR_16: &str = "\
issue 1 1000000000 > number 1
close 1 16 > number 3
";

const PUBLISH_CLOSING: &str = "\
publish 1 $1 > E 1 0 1 I:1000000000
publish 1 $1 > E 1 1 3 R:16:1000000000 K:0:10000:10000:10000:10000:10000:10000:10000:10000:10000:10000:10000:10000:\
10000:10000:10000
publish 1 $1 > nothing
";

// Site 1 applies entries of each other site, each of 16 moves, up to the number 10,000, closes for site 16, and
// publishes its log to each site.
fn put_long_closing(script: &mut String) -> Put {
    for origin in 2..=16u64 {
        for count in 0..625u64 {
            let prev = count.saturating_mul(16);
            fill(script, APPLY_ONE, &[origin, prev, prev.saturating_add(16)])?;
        }
    }
    script.push_str(CLOSE_FOR_16)?;
    for peer in 2..=16u64 {
        fill(script, PUBLISH_CLOSING, &[peer])?;
    }
    Ok(())
}

/// A closing entry of 16 numbers, with the greatest gift to an heir, is published to each site.
#[test]
fn the_longest_closing_entry_is_published(rt: HostRuntime) {
    let mut script = String::new(rt.alloc());
    put_long_closing(&mut script).expect(&rt, "memory");
    plays_amply(&rt, 16, &script);
}

// A site that issued 5 reports it to another one in every way.
const PUBLISH_ROUND: &str = "\
publish $1 $2 > E $1 0 1 I:5
hear $1 Q $2 $1 1 1 > A $1 $2;E $1 0 1 I:5
beat $1 $2 > B $1 1
hear $2 E $1 0 1 I:5 > taken 1
";

// It waits for all rights of all others.
const WAIT_FOR_ALL: &str = "\
spend $1 $2 9 > queued 1
plan $1 > asks $3
";

// It asks another one, which has no rights to spare.
const ASK_IN_VAIN: &str = "\
ask $1 $2 > W $1 $2 1 5
hear $2 W $1 $2 1 5 > denied D $2 $1 1
hear $1 D $2 $1 1 > noted
ask $1 $2 > nothing
";

// The template for any two of the sites.
fn put_pairs(script: &mut String, count: u64, template: &str) -> Put {
    for me in 1..=count {
        for peer in 1..=count {
            if me != peer {
                fill(script, template, &[me, peer])?;
            }
        }
    }
    Ok(())
}

fn put_all_round(script: &mut String, count: u64) -> Put {
    for me in 1..=count {
        fill(script, "issue $1 5 > number 1\n", &[me])?;
    }
    put_pairs(script, count, PUBLISH_ROUND)?;
    let (all, asks) = (count.saturating_mul(5), count.saturating_sub(1));
    for me in 1..=count {
        fill(script, WAIT_FOR_ALL, &[me, all, asks])?;
    }
    put_pairs(script, count, ASK_IN_VAIN)
}

/// Any two sites of systems of 2 to 16: entries, queries, beats, asks and denials.
#[test]
fn lines_of_any_two_sites(rt: HostRuntime) {
    for count in 2..=16u64 {
        let mut script = String::new(rt.alloc());
        put_all_round(&mut script, count).expect(&rt, "memory");
        plays_amply(&rt, count, &script);
    }
}

// A request waits, is served, and its outcome is read: with this ticket.
const SERVE_A_REQUEST: &str = "\
spend 1 3 9 > queued $1
status 1 $1 > waiting
issue 1 3 > number $2
serve 1 > served $1 $3
status 1 $1 > spent $3
";

/// Tickets continue beyond the number of slots, and each outcome is reported.
#[test]
fn two_hundred_tickets(rt: HostRuntime) {
    let mut script = String::new(rt.alloc());
    for ticket in 1..=200u64 {
        let numbers = [ticket, ticket * 2 - 1, ticket * 2];
        fill(&mut script, SERVE_A_REQUEST, &numbers).expect(&rt, "memory");
    }
    plays_amply(&rt, 2, &script);
}

// With one unread outcome fewer than the ticket's number, one spend is served at once, and the next one waits and
// expires.
const SPEND_BEHIND: &str = "\
spend 1 1 0 > spent $2
spend 1 99 0 > queued $1
expire 1 1 > expired 1
";

// With all slots taken by unread outcomes, a spend waits once one of them is read.
const SPEND_WITHOUT_A_SLOT: &str = "\
spend 1 1 0 > spent 34
spend 1 99 0 > error QueueFull
status 1 20 > expired
spend 1 99 0 > queued 33
";

/// Unread outcomes take slots from spends that wait, but not from spends that are served at once.
#[test]
fn spends_behind_unread_outcomes(rt: HostRuntime) {
    let mut script = String::new(rt.alloc());
    put_spends_behind(&mut script).expect(&rt, "memory");
    plays_amply(&rt, 2, &script);
}

fn put_spends_behind(script: &mut String) -> Put {
    script.push_str("issue 1 50 > number 1\n")?;
    for ticket in 1..=SLOTS as u64 {
        fill(script, SPEND_BEHIND, &[ticket, ticket.saturating_add(1)])?;
    }
    script.push_str(SPEND_WITHOUT_A_SLOT)
}

// Moves that spend, as many as this.
fn put_spends(script: &mut String, count: u64) -> Put {
    for _ in 0..count {
        script.push_str(" S:1")?;
    }
    Ok(())
}

// The log accepts this number of moves after that number, and answers with them.
fn put_going_on(script: &mut String, prev: u64, count: u64) -> Put {
    let own = prev.saturating_add(count);
    script.push_str("post 1")?;
    put_spends(script, count)?;
    fill(
        script,
        " > number $1\nhear 1 Q 2 1 $1 $1 > A 1 2;E 1 $2 $1",
        &[own, prev],
    )?;
    put_spends(script, count)?;
    script.push('\n')
}

// The log ends at that number, as beats say, and accepts entries of 1 to 16 moves after it, with which it answers.
// Returns the number of the last one.
fn put_going_on_at(script: &mut String, end: u64) -> Result<u64, AllocError> {
    fill(script, "beat 1 2 > B 1 $1\n", &[end])?;
    let mut prev = end;
    for count in 1..=16u64 {
        put_going_on(script, prev, count)?;
        prev = prev.saturating_add(count);
    }
    Ok(prev)
}

// Entries of 16 moves from a number up to a size, or fewer than 16 below it. Returns the number of the last one.
fn put_growth(script: &mut String, first: u64, size: u64) -> Result<u64, AllocError> {
    let entries = size.saturating_sub(first) / 16;
    let end = first.saturating_add(entries.saturating_mul(16));
    fill(script, "grow 1 $1 > number $2\n", &[entries, end])?;
    Ok(end)
}

// Logs of about 10^4, 10^5 and 10^6. The 16 entries that are added there have 136 moves in all.
fn put_long_logs(script: &mut String) -> Put {
    let mut end = 0u64;
    for size in [10_000u64, 100_000, 1_000_000] {
        end = put_growth(script, end, size)?;
        end = put_going_on_at(script, end)?;
    }
    Ok(())
}

/// Beats, entries of every size and their answers at logs of 10^4, 10^5 and 10^6.
#[test]
fn logs_of_a_million(rt: HostRuntime) {
    let mut script = String::new(rt.alloc());
    put_long_logs(&mut script).expect(&rt, "memory");
    plays_amply(&rt, 2, &script);
}
