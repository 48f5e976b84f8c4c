//! The three helpers of the programs, called through both oracles, and what is refused.

ghost use Rattle.std.specs.Prelude.{◌≡◌, ◌+◌, ◌^◌, ◌<◌, IsTrue};
ghost use Rattle.bpf_helpers.specs.Promise.{is_question};
ghost use Rattle.bpf_helpers.specs.Known.{taxi_from, turn_round_of};

use crate::fixtures::{
    A320, A388, B738, no_sigs, range, sum_signature, taxi_signature, turn_round_signature,
};
use bpf_helpers::{
    Bank, Helper, HelperCode, Helpers, Live, Logged, Oracle, Range, Signature, Sigs,
};
use std::alloc::Global;
use std::process::Abort;

// Two questions, one after the other, have these answers, where so many may be given; all that are
// given come back.
fn answered<H: Helpers>(
    rt: &impl Abort,
    alloc: Global,
    helpers: &H,
    room: u64,
    number: u32,
    questions: ([u64; 5], [u64; 5]),
    answers: (Option<u64>, Option<u64>),
) -> Vec<u64>
    requires first { IsTrue (is_question (H.entries helpers.now) number questions.0) }
    requires second { IsTrue (is_question (H.entries helpers.now) number questions.1) }
{
    let mut live = Live::new(alloc, helpers, room).expect(rt, "an oracle");
    let one = live.call(number, questions.0);
    let other = live.call(number, questions.1);
    assert!(rt; one == answers.0 && other == answers.1, "{number}");
    let kept = live.answers().len();
    let given = live.into_answers();
    assert!(rt; given.len() == kept, "answers are lost");
    given
}

#[test]
fn turn_round_is_called(rt: HostRuntime) {
    let alloc = rt.alloc();
    let code: HelperCode = Box::new(
        alloc,
        |kind: u64, _b: u64, _c: u64, _d: u64, _e: u64| -> u64
            ensures { result ≡ turn_round_of kind }
        {
            match kind {
                A320 | B738 => 45,
                A388 => 120,
                _ => 60,
            }
        },
    )
    .expect(&rt, "code");
    let mut bank = Bank::new(alloc).expect(&rt, "a bank");
    let helper = Helper::new(1, turn_round_signature(&rt, alloc), code);
    bank.add(helper).ok().expect(&rt, "helper 1 is added");
    let questions = ([A388, 0, 0, 0, 0], [7, 0, 0, 0, 0]);
    answered(&rt, alloc, &bank, 2, 1, questions, (Some(120), Some(60)));
    drop(bank);
}

#[test]
fn taxi_is_called(rt: HostRuntime) {
    let alloc = rt.alloc();
    let code: HelperCode = Box::new(
        alloc,
        |stand: u64, _b: u64, _c: u64, _d: u64, _e: u64| -> u64
            ensures { result ≡ taxi_from stand }
        {
            if stand < 100 {
                10
            } else if stand < 500 {
                15
            } else {
                20
            }
        },
    )
    .expect(&rt, "code");
    let mut bank = Bank::new(alloc).expect(&rt, "a bank");
    let helper = Helper::new(2, taxi_signature(&rt, alloc), code);
    bank.add(helper).ok().expect(&rt, "helper 2 is added");
    let questions = ([120, 0, 0, 0, 0], [600, 0, 0, 0, 0]);
    answered(&rt, alloc, &bank, 2, 2, questions, (Some(15), Some(20)));
    drop(bank);
}

#[test]
fn sum_is_called_while_there_is_room(rt: HostRuntime) {
    let alloc = rt.alloc();
    let code: HelperCode = Box::new(
        alloc,
        |a: u64, b: u64, _c: u64, _d: u64, _e: u64| -> u64
            requires { a + b < 2 ^ 64 }
            ensures { result ≡ a + b }
        { a + b },
    )
    .expect(&rt, "code");
    let mut bank = Bank::new(alloc).expect(&rt, "a bank");
    let helper = Helper::new(3, sum_signature(&rt, alloc), code);
    bank.add(helper).ok().expect(&rt, "helper 3 is added");
    let questions = ([7, 5, 0, 0, 0], [7, 6, 0, 0, 0]);
    let given = answered(&rt, alloc, &bank, 1, 3, questions, (Some(12), None));
    assert!(rt; given.len() == 1 && given[0] == 12);
    drop(bank);
}

/// To a question to helper 2 this is answered, from these answers.
fn is_logged(rt: &impl Abort, sigs: &Sigs, answers: &[u64], question: [u64; 5], wanted: Option<u64>)
    requires { IsTrue (is_question sigs.now 2 question) }
{
    let mut logged = Logged::new(sigs, answers);
    assert!(rt; logged.call(2, question) == wanted, "{answers:?}");
}

/// The first of two answers is given to a question to helper 2, and the other is left.
fn is_left(rt: &impl Abort, sigs: &Sigs, question: [u64; 5])
    requires { IsTrue (is_question sigs.now 2 question) }
{
    let mut logged = Logged::new(sigs, &[20, 21]);
    assert!(rt; logged.call(2, question) == Some(20));
    assert!(rt; logged.left() == [21].as_slice());
}

#[test]
fn logged_answers_are_given_where_promised(rt: HostRuntime) {
    let mut sigs = Sigs::new(rt.alloc());
    let signature = taxi_signature(&rt, rt.alloc());
    sigs.push(2, signature).expect(&rt, "signatures");
    is_logged(&rt, &sigs, &[20], [5, 0, 0, 0, 0], Some(20));
    is_logged(&rt, &sigs, &[61], [5, 0, 0, 0, 0], None);
    is_logged(&rt, &sigs, &[0], [5, 0, 0, 0, 0], None);
    is_logged(&rt, &sigs, &[], [5, 0, 0, 0, 0], None);
    is_logged(&rt, &sigs, &[20], [12, 0, 0, 0, 0], None);
    is_logged(&rt, &sigs, &[10], [12, 0, 0, 0, 0], Some(10));
    is_left(&rt, &sigs, [5, 0, 0, 0, 0]);
    drop(sigs);
}

/// Whether a signature may have these arguments, answers and table.
fn is_formed(
    rt: &impl Abort,
    alloc: Global,
    args: &[Range],
    answer: Range,
    table: &[(u64, u64)],
) -> bool {
    let args = args.to_vec(alloc).expect(rt, "arguments");
    let table = table.to_vec(alloc).expect(rt, "a table");
    Signature::new(args, answer, table).is_some()
}

const ONE: Range = Range { lo: 0, hi: 9 };

const THREE: Range = Range { lo: 3, hi: 9 };

/// A range without numbers.
const NONE: Range = Range { lo: 1, hi: 0 };

/// Arguments, answers and tables, and whether a signature may have them.
static SIGNATURES: [(&[Range], Range, &[(u64, u64)], bool); 13] = [
    (&[ONE, ONE, ONE, ONE, ONE], ONE, &[(0, 9), (9, 0)], true),
    (&[THREE], THREE, &[(3, 9), (9, 3)], true),
    (&[THREE], ONE, &[(2, 0)], false),
    (&[ONE], THREE, &[(0, 2)], false),
    (&[ONE], ONE, &[(2, 0), (1, 0)], false),
    (&[ONE, ONE, ONE, ONE, NONE], ONE, &[], false),
    (&[ONE, ONE, ONE, ONE, ONE, ONE], ONE, &[], false),
    (&[NONE], ONE, &[], false),
    (&[ONE], NONE, &[], false),
    (&[ONE], ONE, &[(1, 0), (1, 0)], false),
    (&[ONE], ONE, &[(10, 0)], false),
    (&[], ONE, &[(0, 0)], false),
    (&[ONE], ONE, &[(0, 10)], false),
];

#[test]
fn faulty_signatures_are_refused(rt: HostRuntime) {
    for row in &SIGNATURES {
        let (args, answer, table, wanted) = *row;
        let came = is_formed(&rt, rt.alloc(), args, answer, table);
        assert!(rt; came == wanted, "{args:?} {answer:?} {table:?}");
    }
}

/// A helper of this number that answers 0.
fn nought(rt: &impl Abort, alloc: Global, number: u32) -> Helper {
    let none = Signature::new(Vec::new(alloc), range(0, 0), Vec::new(alloc));
    let code: HelperCode = Box::new(
        alloc,
        |_a: u64, _b: u64, _c: u64, _d: u64, _e: u64| -> u64
            ensures { result ≡ 0 }
        { 0 },
    )
    .expect(rt, "code");
    Helper::new(number, none.expect(rt, "a signature"), code)
}

/// Adds a helper: 0, or the number of the fault where it is refused.
fn fault_of_added(bank: &mut Bank, helper: Helper) -> u16 {
    match bank.add(helper) {
        Ok(()) => 0,
        Err(refused) => refused.fault.code(),
    }
}

/// A bank refuses a number that it has before one that it has no room for.
fn is_full(rt: &impl Abort, alloc: Global, bank: &mut Bank) {
    assert!(rt; fault_of_added(bank, nought(rt, alloc, 31)) == 331);
    assert!(rt; fault_of_added(bank, nought(rt, alloc, 32)) == 332);
    assert!(rt; bank.get(31).map(|helper| helper.number()) == Some(31));
    assert!(rt; bank.get(32).is_none());
}

#[test]
fn full_banks_refuse_taken_numbers_first(rt: HostRuntime) {
    let mut bank = Bank::new(rt.alloc()).expect(&rt, "a bank");
    for number in 0..32u32 {
        let helper = nought(&rt, rt.alloc(), number);
        assert!(rt; fault_of_added(&mut bank, helper) == 0, "{number}");
    }
    is_full(&rt, rt.alloc(), &mut bank);
    drop(bank);
}

fn is_shared<T: Send + Sync>(_value: &T) -> bool {
    true
}

/// Adds the signatures of helpers 1 and 3.
fn push_two(rt: &impl Abort, alloc: Global, sigs: &mut Sigs) {
    let first = turn_round_signature(rt, alloc);
    sigs.push(1, first).expect(rt, "signatures");
    let third = sum_signature(rt, alloc);
    sigs.push(3, third).expect(rt, "signatures");
}

/// Adds the signature of helper 2.
fn push_taxi(rt: &impl Abort, alloc: Global, sigs: &mut Sigs) {
    let second = taxi_signature(rt, alloc);
    sigs.push(2, second).expect(rt, "signatures");
}

/// Helper 2 has its signature.
fn has_taxi(rt: &impl Abort, sigs: &Sigs) {
    let signature = sigs.get(2).expect(rt, "helper 2");
    assert!(rt; signature.args() == [range(0, 999)].as_slice());
    assert!(rt; signature.answer() == range(1, 60));
}

/// A copy of two signatures equals its source until that gets helper 2.
#[test]
fn copies_equal_their_source(rt: HostRuntime) {
    let mut sigs = Sigs::new(rt.alloc());
    push_two(&rt, rt.alloc(), &mut sigs);
    let copy = sigs.copy().expect(&rt, "a copy");
    assert!(rt; copy.is_same(&sigs) && is_shared(&copy));
    push_taxi(&rt, rt.alloc(), &mut sigs);
    assert!(rt; !copy.is_same(&sigs));
    has_taxi(&rt, &sigs);
    drop(copy);
    drop(sigs);
}

#[test]
fn a_bank_without_helpers_has_no_signatures(rt: HostRuntime) {
    let sigs = no_sigs(&rt, rt.alloc());
    let none = Sigs::new(rt.alloc());
    assert!(rt; sigs.is_same(&none));
    drop(none);
    drop(sigs);
}
