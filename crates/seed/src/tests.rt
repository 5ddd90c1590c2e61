use crate::seed::Seed;
use std::process::Abort;
use word::fault::Fault;
use word::module::Module;
use word::source::Source;

type Drawn = Result<Option<Module>, Fault>;

// How a text ends, asked twice. No text has more than 65,536 modules.
fn ends(text: &[u8]) -> (Drawn, Drawn) {
    let mut seed = Seed::new(text);
    for _ in 0..65_536 {
        match seed.draw() {
            Ok(Some(_)) => {}
            end => return (end, seed.draw()),
        }
    }
    (seed.draw(), seed.draw())
}

fn stops(rt: &impl Abort, text: &[u8], cause: u8, place: u32) {
    let fault = Err(Fault {
        cause,
        generation: 0,
        place,
    });
    let (first, again) = ends(text);
    assert_eq!(rt; first, fault);
    assert_eq!(rt; again, fault);
}

fn is_clean(rt: &impl Abort, text: &[u8]) {
    let (first, again) = ends(text);
    assert_eq!(rt; first, Ok(None));
    assert_eq!(rt; again, Ok(None));
}

#[test]
fn brackets(rt: HostRuntime) {
    stops(&rt, b"A]", 23, 2);
    stops(&rt, b"[A", 25, 3);
    stops(&rt, b"](1)", 21, 1);
    stops(&rt, &[b'['; 33], 24, 33);
    stops(&rt, &[b'['; 32], 25, 33);
    is_clean(&rt, b"A[B[C]D]E[]");
}

#[test]
fn forms(rt: HostRuntime) {
    stops(&rt, b"F()", 21, 1);
    stops(&rt, b"F(1,2,3,4)", 21, 1);
    stops(&rt, b"F(12345678)", 21, 1);
    stops(&rt, b"[(1)", 21, 1);
    stops(&rt, b"AB F", 21, 3);
    stops(&rt, b"A\tF", 21, 2);
    stops(&rt, b"A\xc8", 21, 2);
    stops(&rt, b"F(1", 21, 1);
    stops(&rt, b"F(1)(2)", 21, 2);
    stops(&rt, b"F(--1)", 21, 1);
    is_clean(&rt, b"F(0000007)-+&^\\/|%z(-1,0,-0)");
}

#[test]
fn ranges(rt: HostRuntime) {
    stops(&rt, b"F(1000001)", 22, 1);
    stops(&rt, b"AF(1,-1000001)", 22, 2);
    is_clean(&rt, b"F(1000000,-1000000)");
}

#[test]
fn lengths(rt: HostRuntime) {
    is_clean(&rt, b"");
    is_clean(&rt, &[b'F'; 65_536]);
    stops(&rt, &[b'F'; 65_537], 20, 1);
}
