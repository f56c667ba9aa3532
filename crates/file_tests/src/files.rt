use faults::{Fault, Refusal};
use std::process::Abort;
use summary::RuleName::{HopsWidth, Sum};
use summary::{RuleName, Summary, judge, summarize};

// The file is granted, with this summary.
fn granted(rt: &impl Abort, text: &[u8], routers: u32, rule: RuleName, directions: usize) {
    let summary = Summary {
        routers,
        rule,
        directions,
    };
    assert_eq!(rt; summarize(text), Ok(summary));
}

// The file is refused by 7 on this line.
fn refused(rt: &impl Abort, text: &[u8], line: usize) {
    let fault = Fault::Reader {
        refusal: Refusal::BadLine,
        line,
    };
    assert_eq!(rt; summarize(text), Err(fault));
}

#[test]
fn good_files(rt: HostRuntime) {
    granted(&rt, b"routers=2\nrule=sum\nend=links\n", 2, Sum, 0);
    granted(
        &rt,
        b"routers=32\nrule=hops-width\nend=links\n",
        32,
        HopsWidth,
        0,
    );
    granted(&rt, b"routers=0\nrule=sum\nend=links\n", 0, Sum, 0);
    granted(
        &rt,
        b"routers=4294967295\nrule=sum\nend=links\n",
        4294967295,
        Sum,
        0,
    );
    granted(
        &rt,
        b"routers=2\nrule=sum\nfrom=0\nto=1\nweight=7\nend=links\n",
        2,
        Sum,
        1,
    );
    granted(
        &rt,
        b"routers=2\nrule=sum\nfrom=0\nto=1\nweight=7\nfrom=1\nto=0\nweight=9\nend=links\n",
        2,
        Sum,
        2,
    );
    granted(
        &rt,
        b"routers=2\nrule=sum\nfrom=9\nto=9\nweight=0\nfrom=9\nto=9\nweight=0\nend=links\n",
        2,
        Sum,
        2,
    );
}

#[test]
fn files_that_stop_early(rt: HostRuntime) {
    refused(&rt, b"", 1);
    refused(&rt, b"routers=2", 1);
    refused(&rt, b"routers=2\n", 2);
    refused(&rt, b"routers=2\nrule=sum", 2);
    refused(&rt, b"routers=2\nrule=sum\n", 3);
    refused(&rt, b"routers=2\nrule=sum\nfrom=0\n", 4);
    refused(&rt, b"routers=2\nrule=sum\nfrom=0\nto=1\n", 5);
    refused(&rt, b"routers=2\nrule=sum\nfrom=0\nto=1\nweight=7\n", 6);
    refused(&rt, b"routers=2\nrule=sum\nend=links", 3);
}

#[test]
fn bytes_after_the_end(rt: HostRuntime) {
    refused(&rt, b"routers=2\nrule=sum\nend=links\nend=links\n", 4);
    refused(&rt, b"routers=2\nrule=sum\nend=links\n\n", 4);
    refused(&rt, b"routers=2\nrule=sum\nend=links\nx", 4);
    refused(&rt, b"routers=2\nrule=sum\nend=links\n\0", 4);
    refused(
        &rt,
        b"routers=2\nrule=sum\nfrom=0\nto=1\nweight=7\nend=links\nfrom=1\n",
        7,
    );
}

#[test]
fn lines_that_are_none(rt: HostRuntime) {
    refused(&rt, b"\n", 1);
    refused(&rt, b"=", 1);
    refused(&rt, b"=\n", 1);
    refused(&rt, b"routers\n", 1);
    refused(&rt, b"\0\0\0\n", 1);
    refused(&rt, b"routers=2\0\n", 1);
    refused(&rt, b"Routers=2\n", 1);
    refused(&rt, b"routers =2\n", 1);
    refused(&rt, b" routers=2\n", 1);
    refused(&rt, b"routers=2\r\nrule=sum\r\nend=links\r\n", 1);
}

#[test]
fn lines_out_of_order(rt: HostRuntime) {
    refused(&rt, b"rule=sum\nrouters=2\nend=links\n", 1);
    refused(&rt, b"routers=2\nrouters=2\nrule=sum\nend=links\n", 2);
    refused(&rt, b"routers=2\nend=links\n", 2);
    refused(
        &rt,
        b"routers=2\nrule=sum\nto=1\nfrom=0\nweight=7\nend=links\n",
        3,
    );
    refused(
        &rt,
        b"routers=2\nrule=sum\nfrom=0\nweight=7\nto=1\nend=links\n",
        4,
    );
    refused(&rt, b"routers=2\nrule=sum\nfrom=0\nto=1\nend=links\n", 5);
    refused(&rt, b"routers=2\nrule=sum\nweight=7\nend=links\n", 3);
    refused(&rt, b"routers=2\nrule=sum\nrule=sum\nend=links\n", 3);
    refused(
        &rt,
        b"routers=2\nrule=sum\nfrom=0\nto=1\nweight=7\nto=0\n",
        6,
    );
}

#[test]
fn values_that_are_wrong(rt: HostRuntime) {
    refused(&rt, b"routers=\n", 1);
    refused(&rt, b"routers=007\n", 1);
    refused(&rt, b"routers=4294967296\n", 1);
    refused(&rt, b"routers=+2\n", 1);
    refused(&rt, b"routers=2\nrule=\n", 2);
    refused(&rt, b"routers=2\nrule=sums\n", 2);
    refused(&rt, b"routers=2\nrule=Sum\n", 2);
    refused(&rt, b"routers=2\nrule=sum\nfrom=4294967296\n", 3);
    refused(&rt, b"routers=2\nrule=sum\nfrom=0\nto=00\n", 4);
    refused(&rt, b"routers=2\nrule=sum\nfrom=0\nto=1\nweight=-1\n", 5);
}

#[test]
fn ends_that_are_wrong(rt: HostRuntime) {
    refused(&rt, b"routers=2\nrule=sum\nend=\n", 3);
    refused(&rt, b"routers=2\nrule=sum\nend=link\n", 3);
    refused(&rt, b"routers=2\nrule=sum\nend=links \n", 3);
    refused(&rt, b"routers=2\nrule=sum\nend=linkss\n", 3);
}

#[test]
fn longest_input(rt: HostRuntime) {
    let text = [0u8; 32769];
    let unread = Fault::Area {
        refusal: Refusal::MemoryTooShort,
        line: 0,
    };
    let unended = Fault::Reader {
        refusal: Refusal::BadLine,
        line: 1,
    };
    assert_eq!(rt; judge(&text), Err(unread));
    assert_eq!(rt; judge(&text[0..32768]), Err(unended));
}
