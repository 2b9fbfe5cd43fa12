// Shares, equality and nesting of expressions, with ample memory.
use crate::parsing::parse;
use rx_exprs::ParseRefused;
use rx_tree::Expr;
use std::alloc::Global;
use std::process::Abort;
use std::test::Fail;

// Whether a share of an expression can be made, and is equal.
fn is_shared(alloc: Global, expr: &Expr) -> bool {
    match expr.share(alloc) {
        Ok(shared) => shared == *expr,
        Err(_) => false,
    }
}

// How deep brackets stand in the expression of a source.
fn nesting(alloc: Global, rt: &impl Abort, source: &[u8]) -> Result<u32, ParseRefused> {
    let (expr, _) = parse(alloc, rt, source)?;
    Ok(expr.nesting())
}

#[test]
fn shares_are_equal(rt: HostRuntime) -> Result<(), Fail> {
    let alloc = rt.alloc();
    let source = b"a + b.c.1 * -'x' || f(,.y) = (d.)~m:s(1,,2)~~n[3]";
    let (expr, _) = parse(alloc, &rt, source)?;
    let (other, _) = parse(
        alloc,
        &rt,
        b"a + b.c.1 * -'x' || f(,.y) = (d.)~m:s(1,,2)~n[3]",
    )?;
    assert!(rt; is_shared(alloc, &expr));
    assert!(rt; expr != other);
    Ok(())
}

#[test]
fn brackets_are_counted(rt: HostRuntime) -> Result<(), Fail> {
    let alloc = rt.alloc();
    let cases: [(&[u8], u32); 6] = [
        (b"a + b~c()", 0),
        (b"(a)", 1),
        (b"f()", 1),
        (b"a[] + (b)", 1),
        (b"f((a)~b(c[1]), 1)", 3),
        (b"-((a))~b(1) || c", 2),
    ];
    for (source, expected) in cases {
        assert_eq!(rt; nesting(alloc, &rt, source)?, expected);
    }
    Ok(())
}
