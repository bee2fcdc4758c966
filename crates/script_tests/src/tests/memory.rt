//! Events with each memory request refused: the lists are unchanged, and the world has ended.
use crate::tests::MANY;
use refusing_allocator::Refusing;
use rights_types::{Entry, OutOfMemory, SiteId};
use site_core::Line;
use std::alloc::Allocator;
use test_kit::{give, issue, spend};
use transfer_world::{Event, Moves, Reply, World, WorldError};

/// How many events `event` knows.
const EVENTS: usize = 40;

fn one() -> SiteId {
    SiteId::known(1)
}

fn two() -> SiteId {
    SiteId::known(2)
}

/// The text of an entry of site 2 that is not valid.
const NOISE: &[u8] = b"E 2 0 1 I:0\n";

/// A post of site 1.
fn post<A: Allocator>(alloc: A) -> Result<Event<A>, OutOfMemory> {
    let moves = Vec::from_slice(alloc, &[issue(10), spend(1), give(2, 3)])?;
    Ok(Event::Post(one(), Moves::new(moves)))
}

/// A post of site 2 after which it holds the rights that it held before. With three of them before each, what it
/// serves is its fifth entry and the closing one its ninth, for which the log's index has no capacity.
fn idle_post<A: Allocator>(alloc: A) -> Result<Event<A>, OutOfMemory> {
    let moves = Vec::from_slice(alloc, &[issue(1), spend(1)])?;
    Ok(Event::Post(two(), Moves::new(moves)))
}

fn noise<A: Allocator>(alloc: A) -> Result<Event<A>, OutOfMemory> {
    let text = Vec::from_slice(alloc, NOISE)?;
    Ok(Event::Noise(one(), two(), Line::new(text)))
}

/// A scenario of two sites, in which each kind of event happens: the second one misses an entry and queries it, gets
/// rights granted and others denied, and closes; the first reclaims what was in transit.
fn event<A: Allocator>(alloc: A, step: usize) -> Result<Event<A>, OutOfMemory> {
    match step {
        1 | 32 => post(alloc),
        11..=13 | 33..=35 => idle_post(alloc),
        38 => noise(alloc),
        _ => Ok(plain_event(step)),
    }
}

/// The event of a step that is neither a post nor noise.
fn plain_event<A: Allocator>(step: usize) -> Event<A> {
    match step {
        0 => Event::Issue(one(), 20),
        2 | 3 => Event::Publish(one(), two()),
        4 => Event::Arrive(two(), 2),
        5 => Event::Query(two(), one(), false),
        6 => Event::Arrive(one(), 3),
        7 => Event::Arrive(two(), 4),
        8 | 9 => Event::Take(two(), one()),
        10 => Event::Spend(two(), 2, 5),
        14 => Event::Spend(two(), 16, 5),
        15 => Event::Plan(two()),
        16 => Event::Ask(two(), one()),
        17 => Event::Arrive(one(), 5),
        18 => Event::Publish(one(), two()),
        19 => Event::Arrive(two(), 6),
        20 => Event::Take(two(), one()),
        21 => Event::Serve(two()),
        22 => Event::Status(two(), 1),
        23 => Event::Beat(one(), two()),
        24 => Event::Arrive(two(), 7),
        25 => Event::Spend(one(), 11, 9),
        26 => Event::Spend(two(), 1, 8),
        27 => Event::Plan(two()),
        28 => Event::Ask(two(), one()),
        29 => Event::Arrive(one(), 8),
        30 => Event::Arrive(two(), 9),
        31 => Event::Expire(two(), 9),
        36 => Event::Close(two(), None),
        37 => Event::Publish(two(), one()),
        _ => Event::Arrive(one(), 10),
    }
}

/// The events that request no memory: spends that wait, plans, a take, an outcome that is read, an expiry, noise, and
/// the
/// arrivals of a beat and of a denial.
fn takes_none(step: usize) -> bool {
    matches!(
        step,
        8 | 9 | 14 | 15 | 20 | 22 | 24 | 26 | 27 | 30 | 31 | 38
    )
}

/// A world of eight sites, two of which act, after the first of these events, if no memory request was refused.
fn after<A: Allocator + Copy>(alloc: A, steps: usize) -> Option<World<A>> {
    let mut world = World::new(alloc, 8).ok()?;
    for step in 0..steps {
        let next = event(alloc, step).ok()?;
        if world.step(next).is_err() {
            return None;
        }
    }
    Some(world)
}

/// What can be observed at a site of the world.
fn site_state<A: Allocator + Copy>(world: &World<A>, site: SiteId, peer: SiteId) -> [u64; 11] {
    [
        world.number(site),
        world.issued(site),
        world.spent(site),
        world.held(site),
        world.closed(site) as u64,
        world.reached(site, peer).len() as u64,
        world.put(site, peer).len() as u64,
        world.applied(site, peer).len() as u64,
        world.put_end(site, peer),
        world.applied_end(site, peer),
        world.way(peer, site),
    ]
}

/// What can be observed in a world: at both sites, and how many packets were made.
type State = ([u64; 11], [u64; 11], u64);

fn state<A: Allocator + Copy>(world: &World<A>) -> State {
    let mut packets = 0u64;
    // The story makes fewer packets than this.
    for number in 1..=20u64 {
        packets = packets.saturating_add(world.packet(number).is_some() as u64);
    }
    (
        site_state(world, one(), two()),
        site_state(world, two(), one()),
        packets,
    )
}

/// Whether the world refuses an event that would otherwise happen.
fn has_ended<A: Allocator + Copy>(world: &mut World<A>) -> bool {
    matches!(
        world.step(Event::Take(two(), one())),
        Err(WorldError::Ended)
    )
}

/// The state after the first of these events.
fn state_after<A: Allocator + Copy>(alloc: A, steps: usize) -> Option<State> {
    let world = after(alloc, steps)?;
    Some(state(&world))
}

/// The result of a run with a memory request refused.
#[derive(Clone, Copy)]
enum Run {
    /// The request was refused before the events that the run is about.
    Early,
    /// No request was refused, and this is the state then.
    Whole(State),
    /// After this number of events the request was refused, this is the state then, and the world has ended.
    Refused(usize, State),
    Wrong,
}

/// Whether the event happens. `None` if it is refused for another cause than lack of memory.
fn happens<A: Allocator + Copy>(world: &mut World<A>, next: Event<A>) -> Option<bool> {
    match world.step(next) {
        Ok(_) => Some(true),
        Err(WorldError::OutOfMemory) => Some(false),
        Err(_) => None,
    }
}

/// A run in which the event of this step is meant to meet the refusal.
fn run_of<A: Allocator + Copy>(alloc: A, step: usize, granted: u64) -> Run {
    let refusing = Refusing::new(alloc, granted);
    match (after(&refusing, step), event(&refusing, step)) {
        (Some(world), Ok(next)) => run_in(world, &refusing, step, next),
        _ => Run::Early,
    }
}

/// The same in this world.
fn run_in<'a, A: Allocator + Copy>(
    mut world: World<&'a Refusing<A>>,
    refusing: &'a Refusing<A>,
    step: usize,
    next: Event<&'a Refusing<A>>,
) -> Run {
    let done = happens(&mut world, next);
    came_to(&mut world, refusing, step, done)
}

/// The result of the event of this step, by whether it happened.
fn came_to<A: Allocator + Copy>(
    world: &mut World<&Refusing<A>>,
    refusing: &Refusing<A>,
    step: usize,
    done: Option<bool>,
) -> Run {
    let seen = state(world);
    match done {
        Some(true) if !refusing.refused() => Run::Whole(seen),
        Some(false) if refusing.refused() && has_ended(world) => Run::Refused(step, seen),
        _ => Run::Wrong,
    }
}

/// How many memory requests of the event of this step may be refused, if each refusal leaves the world unchanged, but
/// ended; and the last run, which meets none, reaches the world after the event.
fn growths_of<A: Allocator + Copy>(alloc: A, step: usize) -> Option<u64> {
    let before = state_after(alloc, step)?;
    let behind = state_after(alloc, step.checked_add(1)?)?;
    let mut refusals = 0u64;
    for granted in 0..MANY {
        match run_of(alloc, step, granted) {
            Run::Early => (),
            Run::Whole(seen) if seen == behind => return Some(refusals),
            Run::Refused(_, seen) if seen == before => refusals = refusals.checked_add(1)?,
            _ => return None,
        }
    }
    None
}

#[test]
fn each_growth_of_an_event_refused(rt: HostRuntime) {
    for step in 0..EVENTS {
        let growths = growths_of(rt.alloc(), step).expect(&rt, "an event that went well");
        // An event that requests memory may also find capacity that an earlier event has made.
        assert!(rt; growths == 0 || !takes_none(step), "at {step}: {growths}");
    }
}

/// Each of the world's events that requests memory does so the first time.
#[test]
fn memory_is_taken_where_it_should(rt: HostRuntime) {
    for step in [0usize, 2, 4, 5, 6, 7, 10, 16, 19, 21, 23, 29, 36] {
        let growths = growths_of(rt.alloc(), step).expect(&rt, "an event that went well");
        assert!(rt; growths > 0, "at {step}");
    }
}

/// Whether the first outcomes are no refusals, the next is one for lack of memory, and the others say
/// that the world has ended.
fn stopped_after<A: Allocator>(outcomes: &[Result<Reply<A>, WorldError>], done: usize) -> bool {
    let Some((front, [Err(WorldError::OutOfMemory), rest @ ..])) = outcomes.split_at_checked(done)
    else {
        return false;
    };
    front.iter().all(|outcome| outcome.is_ok())
        && rest
            .iter()
            .all(|outcome| matches!(outcome, Err(WorldError::Ended)))
}

fn all_events<A: Allocator + Copy>(alloc: A) -> Result<Vec<Event<A>, A>, OutOfMemory> {
    let mut events = Vec::with_capacity(alloc, EVENTS)?;
    for step in 0..EVENTS {
        events.push(event(alloc, step)?)?;
    }
    Ok(events)
}

/// The result of a run of all events in which a memory request was refused: how many events were done before, or 0
/// if there was no room for the outcomes. `None` if the run had another result.
fn done_by<A: Allocator + Copy>(world: &mut World<A>, events: &[Event<A>]) -> Option<usize> {
    let Ok(outcomes) = world.run(events) else {
        return Some(0);
    };
    let done = outcomes.iter().position(|outcome| outcome.is_err())?;
    if stopped_after(&outcomes, done) {
        Some(done)
    } else {
        None
    }
}

/// A run of all events.
fn run_of_all<A: Allocator + Copy>(alloc: A, granted: u64) -> Run {
    let refusing = Refusing::new(alloc, granted);
    match (World::new(&refusing, 2), all_events(&refusing)) {
        (Ok(world), Ok(events)) => run_all_in(world, &refusing, &events),
        _ => Run::Early,
    }
}

/// The same in this world.
fn run_all_in<'a, A: Allocator + Copy>(
    mut world: World<&'a Refusing<A>>,
    refusing: &'a Refusing<A>,
    events: &[Event<&'a Refusing<A>>],
) -> Run {
    let done = done_by(&mut world, events);
    all_came_to(&mut world, refusing, done)
}

/// The result of all events, by how many were done before a refusal.
fn all_came_to<A: Allocator + Copy>(
    world: &mut World<&Refusing<A>>,
    refusing: &Refusing<A>,
    done: Option<usize>,
) -> Run {
    let seen = state(world);
    match done {
        None if !refusing.refused() => Run::Whole(seen),
        Some(done) if refusing.refused() && has_ended(world) => Run::Refused(done, seen),
        _ => Run::Wrong,
    }
}

#[test]
fn each_growth_of_a_run_refused(rt: HostRuntime) {
    let mut stopped = 0;
    let mut whole = false;
    for granted in 0..MANY {
        match run_of_all(rt.alloc(), granted) {
            Run::Early => (),
            Run::Whole(seen) => {
                assert!(rt; Some(seen) == state_after(rt.alloc(), EVENTS));
                whole = true;
                break;
            }
            Run::Refused(done, seen) => {
                stopped = stopped.max(done);
                assert!(rt;
                    Some(seen) == state_after(rt.alloc(), done),
                    "with {granted} granted"
                );
            }
            Run::Wrong => panic!(rt; "with {granted} granted"),
        }
    }
    assert!(rt; whole, "too many growths");
    // The last event with a memory request is the close.
    assert!(rt; stopped >= 36, "{stopped}");
}

/// Whether these are the entries of the story's first two events.
fn are_first_two<A: Allocator>(entries: &[Entry<A>]) -> bool {
    let [first, second] = entries else {
        return false;
    };
    first.moves() == [issue(20)].as_slice()
        && second.moves() == [issue(10), spend(1), give(2, 3)].as_slice()
}

/// The result of copying the log.
#[derive(Clone, Copy)]
enum Copying {
    /// There was no memory for the events before it.
    Early,
    Refused,
    Whole,
    Wrong,
}

fn copy_of_log<A: Allocator + Copy>(alloc: A, granted: u64) -> Copying {
    let refusing = Refusing::new(alloc, granted);
    match after(&refusing, 2) {
        Some(world) => copied(&world, &refusing),
        None => Copying::Early,
    }
}

fn copied<A: Allocator + Copy>(world: &World<&Refusing<A>>, refusing: &Refusing<A>) -> Copying {
    match world.log(one()) {
        Ok(copy) if !refusing.refused() && are_first_two(&copy) => Copying::Whole,
        Err(OutOfMemory) if refusing.refused() => Copying::Refused,
        _ => Copying::Wrong,
    }
}

#[test]
fn each_growth_of_a_copied_log_refused(rt: HostRuntime) {
    let mut refusals = 0u64;
    let mut whole = false;
    for granted in 0..MANY {
        match copy_of_log(rt.alloc(), granted) {
            Copying::Early => (),
            Copying::Refused => refusals = refusals.saturating_add(1),
            Copying::Whole => {
                whole = true;
                break;
            }
            Copying::Wrong => panic!(rt; "with {granted} granted"),
        }
    }
    assert!(rt; whole, "too many growths");
    // The list makes one request, and each entry another.
    assert_eq!(rt; refusals, 3);
}
