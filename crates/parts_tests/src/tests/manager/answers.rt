//! How a site answers asks.
ghost use Rattle.std.specs.Prelude.{◌≡◌, ◌≤◌};
ghost use Rattle.rights_types.specs.Ranges.{IsAmount};
ghost use Rattle.transfer_manager.specs.Managers.{sites};

use rights_types::{Amount, Ask, AskNumber, SiteId};
use transfer_manager::{AskAnswer, Manager};

/// An ask to site 1 of three for six rights, and the expected answer.
#[derive(Clone, Copy)]
struct Case {
    asker: u64,
    number: u64,
    available: u64,
    /// Whether the answer is noted.
    noted: bool,
    answer: AskAnswer,
}

fn ask(case: Case) -> Option<Ask> {
    let asker = SiteId::new(case.asker).ok()?;
    let number = AskNumber::new(case.number).ok()?;
    Ask::new(asker, SiteId::known(1), number, Amount::known(6)).ok()
}

// The answer to an ask, which is noted if it should be.
fn answer(manager: &mut Manager, ask: &Ask, available: u64, noted: bool) -> AskAnswer
    requires { ask.now.asker ≤ sites manager.old }
    ensures { sites manager.new ≡ sites manager.old }
{
    let answer = manager.on_ask(ask, available);
    if noted {
        // The borrow checker does not cover an enum that is passed on here and answered below.
        let noted = answer;
        manager.note_answer(ask, noted);
    }
    answer
}

fn is_answered(manager: &mut Manager, case: Case) -> bool
    requires { 3 ≤ sites manager.old }
    ensures { sites manager.new ≡ sites manager.old }
{
    match ask(case) {
        Some(ask) if ask.asker().number() <= 3 => {
            answer(manager, &ask, case.available, case.noted) == case.answer
        }
        _ => false,
    }
}

// How many asks in turn are answered as expected, before the first that is not.
fn cases_answered(cases: &[Case]) -> usize {
    let mut manager = Manager::new(SiteId::known(1), 3);
    for (place, case) in cases.iter().enumerate() {
        if !is_answered(&mut manager, *case) {
            return place;
        }
    }
    cases.len()
}

fn granted(amount: u64) -> AskAnswer
    requires { IsAmount amount }
{
    AskAnswer::Grant(Amount::known(amount))
}

// An ask whose answer is noted.
fn noted(asker: u64, number: u64, available: u64, answer: AskAnswer) -> Case {
    Case {
        asker,
        number,
        available,
        noted: true,
        answer,
    }
}

// An ask whose answer is not noted.
fn unnoted(asker: u64, number: u64, available: u64, answer: AskAnswer) -> Case {
    Case {
        asker,
        number,
        available,
        noted: false,
        answer,
    }
}

/// Three asks of one site. Answering alone notes nothing, and each number is answered once.
#[test]
fn each_number_is_answered_once(rt: HostRuntime) {
    let cases = [
        unnoted(2, 1, 4, granted(4)),
        noted(2, 1, 4, granted(4)),
        unnoted(2, 1, 4, AskAnswer::Repeated),
        noted(2, 2, 0, AskAnswer::Deny),
        unnoted(2, 2, 0, AskAnswer::RepeatedDeny),
        noted(2, 3, 9, granted(6)),
        unnoted(2, 2, 9, AskAnswer::OldAsk),
    ];
    assert_eq!(rt; cases_answered(&cases), cases.len());
}

/// A repeat is a repeat however much is available, and a denied number is not granted later.
#[test]
fn repeats_come_before_availability(rt: HostRuntime) {
    let cases = [
        noted(2, 1, 10, granted(6)),
        noted(2, 1, 0, AskAnswer::Repeated),
        noted(2, 2, 0, AskAnswer::Deny),
        noted(2, 2, 10, AskAnswer::RepeatedDeny),
        unnoted(2, 1, 0, AskAnswer::OldAsk),
    ];
    assert_eq!(rt; cases_answered(&cases), cases.len());
}

/// A denial is repeated until a later ask is answered, even with a denial.
#[test]
fn denials_in_turn(rt: HostRuntime) {
    let cases = [
        noted(2, 1, 0, AskAnswer::Deny),
        noted(2, 1, 0, AskAnswer::RepeatedDeny),
        noted(2, 2, 0, AskAnswer::Deny),
        noted(2, 1, 0, AskAnswer::OldAsk),
    ];
    assert_eq!(rt; cases_answered(&cases), cases.len());
}

/// Each asker has its own numbers, and numbers may be skipped.
#[test]
fn askers_count_apart(rt: HostRuntime) {
    let cases = [
        noted(2, 7, 9, granted(6)),
        noted(3, 1, 3, granted(3)),
        unnoted(2, 6, 9, AskAnswer::OldAsk),
        unnoted(3, 2, 0, AskAnswer::Deny),
    ];
    assert_eq!(rt; cases_answered(&cases), cases.len());
}
