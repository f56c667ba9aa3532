use printing::print_pages;
use std::alloc::Global;
use std::process::Abort;
use std::test::Fail;

// What is printed of the file.
fn prints(rt: &impl Abort, heap: Global, text: &[u8], output: &str) -> Result<(), Fail> {
    let bytes = print_pages(heap, text)?;
    assert_eq!(rt; bytes.as_slice(), output.as_bytes());
    Ok(())
}

// Each file is refused by this number on this line.
fn refused(rt: &impl Abort, heap: Global, files: &[(&str, u8, usize)]) -> Result<(), Fail> {
    for (text, number, line) in files {
        let output = format!(in heap; "refused={number}\nline={line}\n")?;
        prints(rt, heap, text.as_bytes(), output.as_str())?;
    }
    Ok(())
}

#[test]
fn good_files(rt: HostRuntime) -> Result<(), Fail> {
    let no_route = "root=0\nto=1\ntree=\nvalid=\nother=\nroot=1\nto=0\ntree=\nvalid=\nother=\n";
    let both = "root=0\nto=1\ntree=1\nvalid=1\nother=\nroot=1\nto=0\ntree=0\nvalid=0\nother=\n";
    for (text, output) in [
        ("routers=2\nrule=sum\nend=links\n", no_route),
        (
            "routers=2\nrule=hops-width\nfrom=0\nto=1\nweight=7\nend=links\n",
            no_route,
        ),
        (
            "routers=2\nrule=sum\nfrom=0\nto=1\nweight=7\nfrom=1\nto=0\nweight=9\nend=links\n",
            both,
        ),
        (
            "routers=2\nrule=hops-width\nfrom=0\nto=1\nweight=65536\nfrom=1\nto=0\nweight=4294967295\nend=links\n",
            both,
        ),
    ] {
        prints(&rt, rt.alloc(), text.as_bytes(), output)?;
    }
    Ok(())
}

#[test]
fn counts_and_rules(rt: HostRuntime) -> Result<(), Fail> {
    refused(
        &rt,
        rt.alloc(),
        &[
            ("routers=0\nrule=sum\nend=links\n", 8, 1),
            ("routers=1\nrule=sum\nend=links\n", 8, 1),
            ("routers=33\nrule=sum\nend=links\n", 8, 1),
            ("routers=4294967295\nrule=sum\nend=links\n", 8, 1),
            ("routers=33\nrule=delay\nend=links\n", 8, 1),
            ("routers=2\nrule=delay\nend=links\n", 7, 2),
        ],
    )
}

#[test]
fn refused_puts(rt: HostRuntime) -> Result<(), Fail> {
    refused(
        &rt,
        rt.alloc(),
        &[
            (
                "routers=2\nrule=sum\nfrom=0\nto=5\nweight=7\nend=links\n",
                1,
                5,
            ),
            (
                "routers=2\nrule=sum\nfrom=0\nto=0\nweight=7\nend=links\n",
                2,
                5,
            ),
            (
                "routers=2\nrule=sum\nfrom=9\nto=9\nweight=0\nend=links\n",
                1,
                5,
            ),
            (
                "routers=2\nrule=sum\nfrom=0\nto=1\nweight=0\nend=links\n",
                3,
                5,
            ),
            (
                "routers=2\nrule=sum\nfrom=0\nto=1\nweight=65536\nend=links\n",
                3,
                5,
            ),
            (
                "routers=2\nrule=sum\nfrom=0\nto=1\nweight=7\nfrom=1\nto=1\nweight=7\nend=link\n",
                2,
                8,
            ),
        ],
    )
}

#[test]
fn files_that_stop_early(rt: HostRuntime) -> Result<(), Fail> {
    refused(
        &rt,
        rt.alloc(),
        &[
            ("", 7, 1),
            ("routers=2", 7, 1),
            ("routers=2\n", 7, 2),
            ("routers=2\nrule=sum", 7, 2),
            ("routers=2\nrule=sum\n", 7, 3),
            ("routers=2\nrule=sum\nfrom=0\n", 7, 4),
            ("routers=2\nrule=sum\nfrom=0\nto=1\n", 7, 5),
            ("routers=2\nrule=sum\nfrom=0\nto=1\nweight=7\n", 7, 6),
            ("routers=2\nrule=sum\nend=links", 7, 3),
        ],
    )
}

#[test]
fn bytes_after_the_end(rt: HostRuntime) -> Result<(), Fail> {
    refused(
        &rt,
        rt.alloc(),
        &[
            ("routers=2\nrule=sum\nend=links\nend=links\n", 7, 4),
            ("routers=2\nrule=sum\nend=links\n\n", 7, 4),
            ("routers=2\nrule=sum\nend=links\nx", 7, 4),
            ("routers=2\nrule=sum\nend=links\n\0", 7, 4),
            (
                "routers=2\nrule=sum\nfrom=0\nto=1\nweight=7\nend=links\nfrom=1\n",
                7,
                7,
            ),
        ],
    )
}

#[test]
fn lines_that_are_none(rt: HostRuntime) -> Result<(), Fail> {
    refused(
        &rt,
        rt.alloc(),
        &[
            ("\n", 7, 1),
            ("=", 7, 1),
            ("=\n", 7, 1),
            ("routers\n", 7, 1),
            ("\0\0\0\n", 7, 1),
            ("routers=2\0\n", 7, 1),
            ("Routers=2\n", 7, 1),
            ("routers =2\n", 7, 1),
            (" routers=2\n", 7, 1),
            ("routers=2\r\nrule=sum\r\nend=links\r\n", 7, 1),
        ],
    )
}

#[test]
fn lines_out_of_order(rt: HostRuntime) -> Result<(), Fail> {
    refused(
        &rt,
        rt.alloc(),
        &[
            ("rule=sum\nrouters=2\nend=links\n", 7, 1),
            ("routers=2\nrouters=2\nrule=sum\nend=links\n", 7, 2),
            ("routers=2\nend=links\n", 7, 2),
            (
                "routers=2\nrule=sum\nto=1\nfrom=0\nweight=7\nend=links\n",
                7,
                3,
            ),
            (
                "routers=2\nrule=sum\nfrom=0\nweight=7\nto=1\nend=links\n",
                7,
                4,
            ),
            ("routers=2\nrule=sum\nfrom=0\nto=1\nend=links\n", 7, 5),
            ("routers=2\nrule=sum\nweight=7\nend=links\n", 7, 3),
            ("routers=2\nrule=sum\nrule=sum\nend=links\n", 7, 3),
            ("routers=2\nrule=sum\nfrom=0\nto=1\nweight=7\nto=0\n", 7, 6),
        ],
    )
}

#[test]
fn values_that_are_wrong(rt: HostRuntime) -> Result<(), Fail> {
    refused(
        &rt,
        rt.alloc(),
        &[
            ("routers=\n", 7, 1),
            ("routers=007\n", 7, 1),
            ("routers=4294967296\n", 7, 1),
            ("routers=+2\n", 7, 1),
            ("routers=2\nrule=\n", 7, 2),
            ("routers=2\nrule=sums\n", 7, 2),
            ("routers=2\nrule=Sum\n", 7, 2),
            ("routers=2\nrule=sum\nfrom=4294967296\n", 7, 3),
            ("routers=2\nrule=sum\nfrom=0\nto=00\n", 7, 4),
            ("routers=2\nrule=sum\nfrom=0\nto=1\nweight=-1\n", 7, 5),
        ],
    )
}

#[test]
fn ends_that_are_wrong(rt: HostRuntime) -> Result<(), Fail> {
    refused(
        &rt,
        rt.alloc(),
        &[
            ("routers=2\nrule=sum\nend=\n", 7, 3),
            ("routers=2\nrule=sum\nend=link\n", 7, 3),
            ("routers=2\nrule=sum\nend=links \n", 7, 3),
            ("routers=2\nrule=sum\nend=linkss\n", 7, 3),
        ],
    )
}

#[test]
fn longest_input(rt: HostRuntime) -> Result<(), Fail> {
    let text = [0u8; 32769];
    prints(&rt, rt.alloc(), &text, "refused=5\nline=0\n")?;
    prints(&rt, rt.alloc(), &text[..32768], "refused=7\nline=1\n")
}
