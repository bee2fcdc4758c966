//! Scripts of calls of desks: each line is a command, followed by ` > ` and the reply to it.
use crate::tests::balance::Totals;
use crate::tests::calls::{Counted, NO_MEMORY, cut, new_desk, put_reply};
use crate::tests::readers::put_desk_told;
use crate::tests::templates::filled;
use refusing_allocator::Refusing;
use rights_types::SiteId;
use std::alloc::{AllocGlobal, Global};
use std::process::Abort;
use test_kit::requests_of;

/// The desks of a system, whose memory requests may be refused.
#[derive(Drop)]
pub(crate) struct Sites<'a> {
    memory: &'a Refusing<Global>,
    desks: Vec<Counted<'a>>,
    reply: String,
}

/// The command of a script's line, and the reply to it.
pub(crate) fn row(line: &str) -> (&str, &str) {
    line.split_once(" > ").unwrap_or((line, ""))
}

// What only calls that may request memory reply, and the commands that never do: only entries, lines and frontiers are
// written.
const WRITING: [&str; 10] = [
    "number ", "spent ", "served ", "granted ", "denied ", "replayed", "A ", "B ", "E ", "W ",
];

const READING: [&str; 2] = ["status ", "cancel "];

fn starts_with_any(text: &str, words: &[&str]) -> bool {
    for word in words {
        if text.starts_with(*word) {
            return true;
        }
    }
    false
}

// Whether a command with this reply may request memory.
fn may_ask_for_memory(command: &str, reply: &str) -> bool {
    starts_with_any(reply, &WRITING) && !starts_with_any(command, &READING)
        || command.contains(" K:")
}

// A desk; one for which memory is refused is made again.
fn desk_at_last<'a>(
    rt: &impl Abort,
    memory: &'a Refusing<Global>,
    me: u64,
    sites: u64,
) -> Counted<'a> {
    let refused = memory.refused();
    if let Some(desk) = new_desk(memory, me, sites) {
        assert!(rt; memory.refused() == refused);
        return desk;
    }
    assert!(rt; memory.refused() && !refused);
    new_desk(memory, me, sites).expect(rt, "memory")
}

impl<'a> Sites<'a> {
    /// This number of desks at the start.
    pub(crate) fn new(
        rt: &(impl Abort + AllocGlobal),
        memory: &'a Refusing<Global>,
        sites: u64,
    ) -> Sites<'a> {
        let mut desks = Vec::new(rt.alloc());
        for index in 0..sites {
            let desk = desk_at_last(rt, memory, index.saturating_add(1), sites);
            desks.push(desk).expect(rt, "memory");
        }
        Sites {
            memory,
            desks,
            reply: String::new(rt.alloc()),
        }
    }

    /// The reply to the last command.
    pub(crate) fn reply(&self) -> &str {
        self.reply.as_str()
    }

    /// Passes a command to its site.
    pub(crate) fn say(&mut self, rt: &(impl Abort + AllocGlobal), command: &str) {
        let (name, rest) = cut(command);
        let (site, words) = cut(rest);
        let index = site.parse::<usize>().unwrap_or(0).wrapping_sub(1);
        let desk = self.desks.get_mut(index).expect(rt, "a desk");
        self.reply.clear();
        put_reply(rt.alloc(), &mut self.reply, desk, name, words).expect(rt, "memory");
    }

    /// Passes a command to its site, with these numbers at its holes.
    pub(crate) fn call(
        &mut self,
        rt: &(impl Abort + AllocGlobal),
        template: &str,
        numbers: &[u64],
    ) {
        self.say(rt, &filled(rt, template, numbers));
    }

    /// The site hears what the last reply says.
    pub(crate) fn pass(&mut self, rt: &(impl Abort + AllocGlobal), site: u64) {
        let mut command = filled(rt, "hear $1 ", &[site]);
        command.push_str(&self.reply).expect(rt, "memory");
        self.say(rt, &command);
    }

    /// The site hears the denial that the last reply reports.
    pub(crate) fn pass_denial(&mut self, rt: &(impl Abort + AllocGlobal), site: u64) {
        let mut command = filled(rt, "hear $1 D ", &[site]);
        let denial = self.reply.split_once(" D ").unwrap_or(("", "")).1;
        command.push_str(denial).expect(rt, "memory");
        self.say(rt, &command);
    }

    /// A command with this reply. If its memory is refused it says so, and has this reply when it is
    /// repeated. A call that returns an error leaves everything that the desks report unchanged.
    fn step(&mut self, rt: &(impl Abort + AllocGlobal), command: &str, expected: &str) {
        let refused = self.memory.refused();
        self.say_unless_wrong(rt, command);
        if self.memory.refused() != refused {
            assert!(rt; self.reply() == NO_MEMORY, "{command}");
            assert!(rt; may_ask_for_memory(command, expected), "{command}");
            self.say(rt, command);
        }
        self.check(rt, command, expected);
    }

    // Passes a command to its site. An error leaves everything that the desks report unchanged.
    fn say_unless_wrong(&mut self, rt: &(impl Abort + AllocGlobal), command: &str) {
        let before = self.told(rt);
        self.say(rt, command);
        if self.reply.starts_with("error ") {
            let after = self.told(rt);
            assert!(rt; before == after, "{command}");
        }
    }

    fn check(&self, rt: &impl Abort, command: &str, expected: &str) {
        let reply = self.reply();
        assert!(rt; reply == expected, "{command}: {reply}");
    }

    // What the desks report.
    fn told(&self, rt: &(impl Abort + AllocGlobal)) -> Vec<i128> {
        let mut told = Vec::new(rt.alloc());
        for desk in &self.desks {
            put_desk_told(&mut told, desk).expect(rt, "memory");
        }
        told
    }

    /// The site receives the next entries of the origin's log, at most sixteen, and replies to them.
    pub(crate) fn catch_up(&mut self, rt: &(impl Abort + AllocGlobal), site: u64, origin: u64) {
        let first = self.applied(rt, site, origin).saturating_add(1);
        self.call(rt, "hear $2 Q $1 $2 $3 1000000000", &[site, origin, first]);
        self.pass(rt, site);
    }

    /// The number of the origin's last entry that the site applied.
    pub(crate) fn applied(&self, rt: &impl Abort, site: u64, origin: u64) -> u64 {
        let origin = SiteId::new(origin).ok().expect(rt, "an origin");
        self.desk(rt, site).applied(origin)
    }

    /// The desk of a site.
    pub(crate) fn desk(&self, rt: &impl Abort, site: u64) -> &Counted<'a> {
        let desk = self.desks.get(site.wrapping_sub(1) as usize);
        desk.expect(rt, "a desk")
    }

    /// The sums over all desks, if each has conserved its rights.
    pub(crate) fn totals(&self) -> Option<Totals> {
        Totals::of(&self.desks)
    }

    /// No right was lost or created, in the game with this number.
    pub(crate) fn check_rights(&self, rt: &impl Abort, game: u64) {
        let are_even = self.totals().is_some_and(Totals::are_even);
        assert!(rt; are_even, "game {game}");
    }
}

/// Plays a script with each memory request refused in turn, and then with none refused. Returns how many
/// requests the desks make.
pub(crate) fn plays(rt: &(impl Abort + AllocGlobal), sites: u64, script: &str) -> u64 {
    let requests = requests_of(rt.alloc(), |memory| play(rt, memory, sites, script));
    requests.expect(rt, "a script")
}

fn play(
    rt: &(impl Abort + AllocGlobal),
    memory: &Refusing<Global>,
    sites: u64,
    script: &str,
) -> bool {
    let mut sites = Sites::new(rt, memory, sites);
    for line in script.lines() {
        let (command, reply) = row(line);
        sites.step(rt, command, reply);
    }
    true
}

/// Plays a script with ample memory.
pub(crate) fn plays_amply(rt: &(impl Abort + AllocGlobal), sites: u64, script: &str) {
    let memory = Refusing::new(rt.alloc(), u64::MAX);
    let mut sites = Sites::new(rt, &memory, sites);
    for line in script.lines() {
        let (command, expected) = row(line);
        sites.say(rt, command);
        sites.check(rt, command, expected);
    }
}
