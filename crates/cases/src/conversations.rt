//! Lists of calls, and what each is answered.
use conversation::{Exchange, converse, to_put};
use orderings::{Bags, Entry, Fault, Kind, Ordering, Question, Told, Word};
use rows::Row;
use rules::{ClashRule, Field, Plain};
use std::alloc::AllocError;
use std::process::Abort;
use trace_check::{Call, Refusal, Reply};

/// What a call is answered. Of a refusal the number and that of its layer.
type Answer = Result<Reply, (u8, u8)>;

const CLEAR: Answer = Ok(Reply::Found(None));

fn numbers(refusal: Refusal) -> (u8, u8) {
    let code = refusal.code();
    (code.number, u8::from(code.layer))
}

/// Puts the calls over bags on a table, and compares the answers.
fn answers<R: ClashRule>(
    rt: &impl Abort,
    table: &mut [Entry],
    rule: &R,
    limit: u32,
    exchanges: &mut [Exchange],
    wanted: &[Answer],
) {
    assert!(rt; exchanges.len() == wanted.len());
    let mut rows = [Row::EMPTY; 16];
    let mut bags = Bags::new(table);
    assert!(rt; converse(&mut bags, rule, &mut rows, limit, exchanges).is_ok());
    // Two slices, since `converse` takes calls by themselves.
    for (exchange, want) in exchanges.iter().zip(wanted.iter()) {
        assert_eq!(rt; exchange.reply.map_err(numbers), *want);
    }
}

#[test]
fn a_ninth_class_is_refused(rt: HostRuntime) {
    let mut exchanges = [
        to_put(Call::Access(0x01, 3)),
        to_put(Call::Access(0x02, 3)),
        to_put(Call::Access(0x03, 3)),
        to_put(Call::Access(0x04, 3)),
        to_put(Call::Access(0x05, 3)),
        to_put(Call::Access(0x06, 3)),
        to_put(Call::Access(0x07, 3)),
        to_put(Call::Access(0x08, 3)),
        to_put(Call::Access(0x09, 3)),
        to_put(Call::Access(0x01, 3)),
    ];
    let mut wanted = [CLEAR; 10];
    wanted[8] = Err((24, 3));
    answers(
        &rt,
        &mut [Entry::EMPTY; 4],
        &Field {},
        1000000,
        &mut exchanges,
        &wanted,
    );
}

#[test]
fn a_table_of_one_entry_gives_one_number(rt: HostRuntime) {
    let mut exchanges = [
        to_put(Call::Open(Kind::Task)),
        to_put(Call::Close),
        to_put(Call::Open(Kind::Finish)),
    ];
    let wanted = [Ok(Reply::Opened(1)), Ok(Reply::Closed(1)), Err((21, 4))];
    answers(
        &rt,
        &mut [Entry::EMPTY; 1],
        &Plain {},
        1000000,
        &mut exchanges,
        &wanted,
    );
}

#[test]
fn an_empty_table_serves_main(rt: HostRuntime) {
    let mut exchanges = [
        to_put(Call::Ask(Question::NumbersLeft)),
        to_put(Call::Open(Kind::Task)),
        to_put(Call::Access(1, 5)),
        to_put(Call::Ask(Question::WordOf(0))),
        to_put(Call::Close),
    ];
    let wanted = [
        Ok(Reply::Told(Told::Number(0))),
        Err((21, 4)),
        CLEAR,
        Ok(Reply::Told(Told::Word(Word::Before))),
        Err((22, 4)),
    ];
    answers(
        &rt,
        &mut [Entry::EMPTY; 0],
        &Plain {},
        1000000,
        &mut exchanges,
        &wanted,
    );
}

#[test]
fn the_limit_is_tested_first(rt: HostRuntime) {
    let mut exchanges = [
        to_put(Call::Open(Kind::Task)),
        to_put(Call::Close),
        to_put(Call::Close),
        to_put(Call::Access(7, 99)),
        to_put(Call::Ask(Question::WordOf(1))),
    ];
    let wanted = [
        Ok(Reply::Opened(1)),
        Ok(Reply::Closed(1)),
        Err((23, 3)),
        Err((23, 3)),
        Ok(Reply::Told(Told::Word(Word::Unordered))),
    ];
    answers(
        &rt,
        &mut [Entry::EMPTY; 4],
        &Plain {},
        2,
        &mut exchanges,
        &wanted,
    );
}

#[test]
fn every_question_is_answered(rt: HostRuntime) {
    let mut exchanges = [
        to_put(Call::Open(Kind::Finish)),
        to_put(Call::Open(Kind::Task)),
        to_put(Call::Ask(Question::InnermostTask)),
        to_put(Call::Ask(Question::OpenCount)),
        to_put(Call::Ask(Question::ScopesBegun)),
        to_put(Call::Ask(Question::NumbersLeft)),
        to_put(Call::Ask(Question::KindOf(1))),
        to_put(Call::Ask(Question::WordOf(1))),
        to_put(Call::Ask(Question::WordOf(2))),
        to_put(Call::Ask(Question::WordOf(3))),
    ];
    let wanted = [
        Ok(Reply::Opened(1)),
        Ok(Reply::Opened(2)),
        Ok(Reply::Told(Told::Number(2))),
        Ok(Reply::Told(Told::Number(3))),
        Ok(Reply::Told(Told::Number(3))),
        Ok(Reply::Told(Told::Number(6))),
        Ok(Reply::Told(Told::Kind(Some(Kind::Finish)))),
        Err((12, 4)),
        Ok(Reply::Told(Told::Word(Word::Before))),
        Err((12, 4)),
    ];
    answers(
        &rt,
        &mut [Entry::EMPTY; 8],
        &Plain {},
        1000000,
        &mut exchanges,
        &wanted,
    );
}

#[test]
fn a_large_table_leaves_65535_numbers(rt: HostRuntime) -> Result<(), AllocError> {
    let mut table = vec![in rt.alloc(); Entry::EMPTY; 65540]?;
    let mut bags = Bags::new(&mut table);
    assert_eq!(rt; bags.left(), 65535);
    for _ in 0..65535 {
        assert!(rt; bags.open(Kind::Finish).is_ok());
    }
    assert_eq!(rt; bags.left(), 0);
    assert_eq!(rt; bags.open(Kind::Task), Err(Fault::NoNumberLeft));
    Ok(())
}
