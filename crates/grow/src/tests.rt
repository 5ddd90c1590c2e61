use crate::answer::answer_to;
use std::alloc::Global;
use std::process::Abort;
use std::test::Fail;

// What is printed for a job.
fn answers(rt: &impl Abort, heap: Global, job: &[u8], text: &str) -> Result<(), Fail> {
    let answer = format!(in heap; "{}", answer_to(job))?;
    assert_eq!(rt; answer.as_str(), text);
    Ok(())
}

// A word that ends clean, of a seed alone, of generations that draw, and of nothing.
#[test]
fn clean_ends(rt: HostRuntime) -> Result<(), Fail> {
    let heap = rt.alloc();
    answers(
        &rt,
        heap,
        b"0\nF(2)[+F]\n",
        "modules 5\nsegments 2\nlength 3\nbox -1 0 0 2 0 0\ndeepest 1\nend clean\n",
    )?;
    answers(
        &rt,
        heap,
        b"2\nA\n1: A -> F[+A]A\n",
        "modules 16\nsegments 3\nlength 3\nbox -1 0 0 2 0 0\ndeepest 2\nend clean\n",
    )?;
    answers(
        &rt,
        heap,
        b"0\n",
        "modules 0\nsegments 0\nlength 0\nbox none\ndeepest 0\nend clean\n",
    )
}

// A limit of the turtle ends the plot at the module that would break it.
#[test]
fn limits(rt: HostRuntime) -> Result<(), Fail> {
    let heap = rt.alloc();
    answers(
        &rt,
        heap,
        b"0\nF(4096)\n",
        "modules 0\nsegments 0\nlength 0\nbox none\ndeepest 0\nend fault 41 0 1\n",
    )?;
    answers(
        &rt,
        heap,
        b"0\nF(4095)F(4095)F(4095)F(4095)F(4095)F(4095)F(4095)F(4095)F\n",
        "modules 7\nsegments 7\nlength 28665\nbox 0 0 0 28665 0 0\ndeepest 0\nend fault 42 0 8\n",
    )?;
    answers(
        &rt,
        heap,
        b"1\nA\n1: A -> F[+F(4096)]F\n",
        "modules 3\nsegments 1\nlength 1\nbox 0 0 0 1 0 0\ndeepest 1\nend fault 41 1 4\n",
    )
}

// A fault of a generation, and of a seed, ends the plot behind the last module.
#[test]
fn faults(rt: HostRuntime) -> Result<(), Fail> {
    let heap = rt.alloc();
    answers(
        &rt,
        heap,
        b"3\nA(2)\n1: A(x) -> F(12/x)A(x-1)\n",
        "modules 2\nsegments 2\nlength 18\nbox 0 0 0 18 0 0\ndeepest 0\nend fault 31 3 3\n",
    )?;
    answers(
        &rt,
        heap,
        b"0\nF]F",
        "modules 1\nsegments 1\nlength 1\nbox 0 0 0 1 0 0\ndeepest 0\nend fault 23 0 2\n",
    )
}

#[test]
fn refusals(rt: HostRuntime) -> Result<(), Fail> {
    let heap = rt.alloc();
    answers(&rt, heap, b"9\nF\n", "refused 58 line 1\n")?;
    answers(
        &rt,
        heap,
        b"1\nF\n1: F -> FF\n\n2: F -> \n1: F ->",
        "refused 11 line 6\n",
    )
}
