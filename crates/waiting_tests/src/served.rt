use crate::sums::at;
use entries::Entry;
use faults::Refusal;
use std::process::Abort;
use waiting::{Answer, Call, Waiting};

// Makes the calls on a new list of two places, which then has so many entries.
fn run(
    rt: &impl Abort,
    calls: &[Call<Entry<u32>>],
    answers: &mut [Answer<Entry<u32>>],
    told: Result<(), Refusal>,
    len: usize,
) {
    let mut memory = [at(0, 0); 2];
    let mut list = Waiting::new(&mut memory);
    assert_eq!(rt; list.serve(calls, answers), told);
    assert_eq!(rt; list.len(), len);
}

#[test]
fn calls_in_turn(rt: HostRuntime) {
    let mut answers = [Answer::Popped(None); 5];
    run(
        &rt,
        &[
            Call::Push(at(5, 0)),
            Call::Push(at(3, 7)),
            Call::Push(at(1, 1)),
            Call::Pop,
        ],
        &mut answers,
        Ok(()),
        1,
    );
    assert_eq!(rt; answers[0], Answer::Pushed(Ok(())));
    assert_eq!(rt; answers[1], Answer::Pushed(Ok(())));
    assert_eq!(rt; answers[2], Answer::Pushed(Err(Refusal::Full)));
    assert_eq!(rt; answers[3], Answer::Popped(Some(at(3, 7))));
    assert_eq!(rt; answers[4], Answer::Popped(None));
}

#[test]
fn too_few_answers(rt: HostRuntime) {
    let calls = [Call::Push(at(5, 0)), Call::Pop];
    run(
        &rt,
        &calls,
        &mut [Answer::Popped(None); 1],
        Err(Refusal::MemoryTooShort),
        0,
    );
}
