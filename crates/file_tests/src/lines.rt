use faults::{Fault, Refusal};
use linkfile::{Line, Reader};
use std::process::Abort;

// The next line is this one.
fn next_is(rt: &impl Abort, reader: &mut Reader, line: Line) {
    assert_eq!(rt; reader.next_line(), Ok(line));
}

// The next line is at fault.
fn next_refused(rt: &impl Abort, reader: &mut Reader, line: usize) {
    let fault = Fault::Reader {
        refusal: Refusal::BadLine,
        line,
    };
    assert_eq!(rt; reader.next_line(), Err(fault));
}

#[test]
fn lines_in_turn(rt: HostRuntime) {
    let mut reader = Reader::new(b"routers=5\nrule=\nfrom=a=b\nto=\x00\nweight=7\nend=links\n");
    next_is(
        &rt,
        &mut reader,
        Line::Routers {
            key: b"routers",
            value: b"5",
            line: 1,
        },
    );
    next_is(
        &rt,
        &mut reader,
        Line::Rule {
            key: b"rule",
            value: b"",
            line: 2,
        },
    );
    next_is(
        &rt,
        &mut reader,
        Line::From {
            key: b"from",
            value: b"a=b",
            line: 3,
        },
    );
    next_is(
        &rt,
        &mut reader,
        Line::To {
            key: b"to",
            value: b"\0",
            line: 4,
        },
    );
    next_is(
        &rt,
        &mut reader,
        Line::Weight {
            key: b"weight",
            value: b"7",
            line: 5,
        },
    );
    assert!(rt; !reader.is_done());
    next_is(
        &rt,
        &mut reader,
        Line::End {
            key: b"end",
            value: b"links",
            line: 6,
        },
    );
    assert!(rt; reader.is_done());
    assert_eq!(rt; reader.next_number(), 7);
    next_refused(&rt, &mut reader, 7);
}

#[test]
fn faults_and_after(rt: HostRuntime) {
    let mut reader = Reader::new(b"x=1\n\nto=1\nend=links");
    next_refused(&rt, &mut reader, 1);
    next_refused(&rt, &mut reader, 2);
    next_is(
        &rt,
        &mut reader,
        Line::To {
            key: b"to",
            value: b"1",
            line: 3,
        },
    );
    next_refused(&rt, &mut reader, 4);
    next_refused(&rt, &mut reader, 4);
}
