use area::Area;
use entries::Entry;
use faults::{Fault, Refusal};
use grid::Grid;
use operating::{Answer, Call, Memories, operate};

// kept: written out here and in area_tests, since a crate of tests hands nothing to another.
// The links of net K, which has five routers: each stands in both directions, with the same number.
const LINKS: [(usize, usize, u32); 5] = [(0, 1, 1), (0, 2, 3), (1, 3, 2), (2, 3, 1), (3, 4, 1)];

const DONE: Answer = Answer::Done(Ok(()));

fn by_area(refusal: Refusal) -> Fault {
    Fault::Area { refusal, line: 0 }
}

// Puts and settles, and what is then asked: each call uses what those before it left.
#[test]
fn calls_on_net_k(rt: HostRuntime) {
    let mut cells = [0u16; 25];
    let mut area: Area<u32, Grid> = Area::open(Grid::make(&mut cells, 5));
    let mut best = [9; 5];
    let mut rest = [9; 25];
    let mut waiting = [Entry { cost: 0, router: 0 }; 25];
    let mut path = [9; 6];
    let mut trail = [9; 6];
    let mut memories = Memories {
        best: &mut best,
        rest: &mut rest,
        waiting: &mut waiting,
        path: &mut path,
        trail: &mut trail,
    };
    for (a, b, number) in LINKS {
        let there = Call::Put {
            from: a,
            to: b,
            number,
        };
        let back = Call::Put {
            from: b,
            to: a,
            number,
        };
        let mut answers = [Answer::Wrote(Ok(9)); 2];
        assert_eq!(rt;
            operate(&mut area, &[there, back], &mut answers, &mut memories),
            2
        );
        assert_eq!(rt; answers, [DONE; 2]);
    }
    let calls = [
        Call::Settle { root: 4 },
        Call::Settle { root: 3 },
        Call::Settle { root: 2 },
        Call::Settle { root: 1 },
        Call::Settle { root: 0 },
        Call::Hops { root: 0, to: 2 },
        Call::Path { root: 0, to: 4 },
        Call::Walk {
            from: 0,
            to: 4,
            picks: &[1, 0, 0, 0],
        },
        Call::Cut { from: 3, to: 4 },
        Call::Hops { root: 0, to: 2 },
    ];
    let mut answers = [Answer::Wrote(Ok(9)); 10];
    assert_eq!(rt; operate(&mut area, &calls, &mut answers, &mut memories), 10);
    assert_eq!(rt;
        answers,
        [
            DONE,
            DONE,
            DONE,
            DONE,
            DONE,
            Answer::Found(Ok((Some(2), 0b100, 0b10))),
            Answer::Wrote(Ok(4)),
            Answer::Wrote(Ok(3)),
            DONE,
            Answer::Found(Err(by_area(Refusal::StalePage))),
        ]
    );
    assert_eq!(rt; best, [0, 1, 3, 3, 4]);
    assert_eq!(rt; path, [0, 1, 3, 4, 9, 9]);
    assert_eq!(rt; trail, [0, 2, 3, 4, 9, 9]);
}

// Where there are fewer places for answers than calls, the calls behind them are not made.
#[test]
fn as_many_calls_as_answers(rt: HostRuntime) {
    let mut cells = [0u16; 4];
    let mut area: Area<u32, Grid> = Area::open(Grid::make(&mut cells, 2));
    let mut memories = Memories {
        best: &mut [],
        rest: &mut [],
        waiting: &mut [],
        path: &mut [],
        trail: &mut [],
    };
    let calls = [
        Call::Cut { from: 0, to: 1 },
        Call::Put {
            from: 0,
            to: 1,
            number: 7,
        },
        Call::Cut { from: 0, to: 1 },
    ];
    let mut answers = [Answer::Wrote(Ok(9)); 2];
    assert_eq!(rt; operate(&mut area, &calls, &mut answers, &mut memories), 2);
    assert_eq!(rt;
        answers,
        [Answer::Done(Err(Fault::of_table(Refusal::NotKept))), DONE]
    );
    let mut answers = [Answer::Wrote(Ok(9)); 4];
    assert_eq!(rt;
        operate(&mut area, &calls[2..], &mut answers, &mut memories),
        1
    );
    assert_eq!(rt; answers[0], DONE);
    assert!(rt; answers[1..] == [Answer::Wrote(Ok(9)); 3]);
}
