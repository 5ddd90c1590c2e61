use crate::answer::answer_to;
use std::alloc::Global;
use std::process::Abort;
use std::test::Fail;

// What is printed for a job.
fn answers(rt: &impl Abort, heap: Global, job: &[u8], text: &str) -> Result<(), Fail> {
    let answer = format!(in heap; "{}", answer_to(job))?;
    assert_eq!(rt; answer.as_str(), text);
    Ok(())
}

// The jobs of the folder `jobs`.
#[test]
fn examples(rt: HostRuntime) -> Result<(), Fail> {
    let heap = rt.alloc();
    answers(
        &rt,
        heap,
        b"0\n[F(400)-F(200)-F(400)-F(200)]-f(100)+[F(320)[-F(60)+F(40)A(1)][+F(60)-F(40)A(2)]F(60)%[-F(20)B]]\n",
        "[F(400)-F(200)-F(400)-F(200)]-f(100)+[F(320)[-F(60)+F(40)A(1)][+F(60)-F(40)A(2)]F(60)]\nend clean\n",
    )?;
    answers(
        &rt,
        heap,
        b"0\n-[+F(90)[+F(4)][-F(4)]]F(40)[+F(90)[+F(4)][-F(4)]]F(40)[+F(90)%[+F(4)][-F(4)]K]F(40)[+F(90)[+F(4)][-F(4)]]\n",
        "-[+F(90)[+F(4)][-F(4)]]F(40)[+F(90)[+F(4)][-F(4)]]F(40)[+F(90)]F(40)[+F(90)[+F(4)][-F(4)]]\nend clean\n",
    )?;
    answers(
        &rt,
        heap,
        b"0\nF(8)[+F(5)[+F(3)A][-F(3)A]B]F(6)[-F(5)[-F(3)A]%[+F(3)A]B]F(4)[&F(3)C][^F(3)C]\\[&F(2)D]/[^F(2)D]|F(1)E\n",
        "F(8)[+F(5)[+F(3)A][-F(3)A]B]F(6)[-F(5)[-F(3)A]]F(4)[&F(3)C][^F(3)C]\\[&F(2)D]/[^F(2)D]|F(1)E\nend clean\n",
    )
}

#[test]
fn refusals(rt: HostRuntime) -> Result<(), Fail> {
    let heap = rt.alloc();
    answers(&rt, heap, b"", "refused 58 line 1\n")?;
    answers(&rt, heap, b"0", "refused 58 line 1\n")?;
    answers(&rt, heap, b"9\nF\n", "refused 58 line 1\n")?;
    answers(&rt, heap, b"0\r\nF\r\n", "refused 58 line 1\n")?;
    answers(&rt, heap, b"0\n", "\nend clean\n")?;
    answers(&rt, heap, b"0\nA%B]D", "A\nend fault 23 0 4\n")
}

// The lines of a book: the first that is refused is told, whatever the digit is.
#[test]
fn books(rt: HostRuntime) -> Result<(), Fail> {
    let heap = rt.alloc();
    answers(&rt, heap, b"0\nF%A\n\n1: F -> FF\n", "F\nend clean\n")?;
    answers(&rt, heap, b"1\nF\n1: F -> FF\n", "FF\nend clean\n")?;
    answers(
        &rt,
        heap,
        b"1\nF\n1: F -> FF\n\n2: F -> \n1: F ->",
        "refused 11 line 6\n",
    )?;
    answers(&rt, heap, b"0\nA%B]D\nF\n", "refused 2 line 3\n")?;
    answers(&rt, heap, b"0\nA%B]D\n1: A -> B\n", "A\nend fault 23 0 4\n")
}

// The jobs of the folder `jobs` that grow.
#[test]
fn vines(rt: HostRuntime) -> Result<(), Fail> {
    let heap = rt.alloc();
    answers(
        &rt,
        heap,
        b"8\nS(3)A(1)\n~F+-\n1: S(n) < I ? n = 0 -> S(0)\n2: S(n) ? n = 0 -> I\n3: S(n) ? n > 0 -> S(n-1)\n4: S(n) < A(m) ? n = 0 -> C(m)\n5: A(m) ? m < 9 -> F(8)I[+L(1)][-L(1)]A(m+1)\n6: L(x) ? x < 4 -> F(x)L(x+1)\n7: S(n) < L(x) ? n = 0 -> [+B]F(x)\n",
        "IF(8)I[+F(1)F(2)F(3)[+B]F(4)][-F(1)F(2)F(3)[+B]F(4)]F(8)I[+F(1)F(2)F(3)[+B]F(4)][-F(1)F(2)F(3)[+B]F(4)]F(8)I[+F(1)F(2)F(3)[+B]F(4)][-F(1)F(2)F(3)[+B]F(4)]F(8)I[+F(1)F(2)F(3)[+B]F(4)][-F(1)F(2)F(3)[+B]F(4)]F(8)S(0)[+F(1)F(2)F(3)L(4)][-F(1)F(2)F(3)L(4)]F(8)I[+F(1)F(2)L(3)][-F(1)F(2)L(3)]F(8)I[+F(1)L(2)][-F(1)L(2)]F(8)I[+L(1)][-L(1)]A(9)\nend clean\n",
    )?;
    answers(
        &rt,
        heap,
        b"6\nA(6)\n1: A(x) ? x > 1 -> F(2*x)[+B(x-1)][-B(x-1)]A(x-1)\n2: A(x) ? x <= 1 -> F\n3: B(x) ? x > 2 & x != 4 -> F(x)[+B(x/2)]B(x-2)\n4: B(x) ? x <= 2 -> F(x)\n5: B(x) ? x = 4 -> F(4)%[+B(1)]B(3)\n",
        "F(12)[+F(5)[+F(2)]F(3)[+F(1)]F(1)][-F(5)[+F(2)]F(3)[+F(1)]F(1)]F(10)[+F(4)][-F(4)]F(8)[+F(3)[+F(1)]F(1)][-F(3)[+F(1)]F(1)]F(6)[+F(2)][-F(2)]F(4)[+F(1)][-F(1)]F\nend clean\n",
    )?;
    answers(
        &rt,
        heap,
        b"4\nBF(8)A[+F(4)A[-F(2)A]]F(8)A[-F(4)A]F(8)AF(8)A\n~F+-\n1: B < A -> B\n2: B -> A\n",
        "AF(8)A[+F(4)A[-F(2)A]]F(8)A[-F(4)A]F(8)AF(8)B\nend clean\n",
    )?;
    answers(
        &rt,
        heap,
        b"4\nAF(8)A[+F(4)A]F(8)A[-F(4)A[+F(2)B]F(2)A]F(8)AF(8)B\n~F+-\n1: A > B -> B\n2: B -> A\n",
        "BF(8)A[+F(4)A]F(8)A[-F(4)A[+F(2)A]F(2)A]F(8)AF(8)A\nend clean\n",
    )?;
    answers(
        &rt,
        heap,
        b"1\nF(8)A++++++++++++++++++++++++++++++++++++++++++++++++++++++++++++++++C\n~+\n1: A > C -> D\n",
        "F(8)\nend fault 30 1 2\n",
    )?;
    answers(
        &rt,
        heap,
        b"3\nA(2)\n1: A(x) -> F(12/x)A(x-1)\n",
        "F(6)F(12)\nend fault 31 3 3\n",
    )?;
    answers(
        &rt,
        heap,
        b"2\nA(1000)\n1: A(x) -> F(x)A(x*x)\n",
        "F(1000)\nend fault 32 2 2\n",
    )?;
    answers(
        &rt,
        heap,
        b"4\n[[[[[[[[[[[[[[[[[[[[[[[[A]]]]]]]]]]]]]]]]]]]]]]]]\n1: A -> F[[[A]]]\n",
        "[[[[[[[[[[[[[[[[[[[[[[[[F[[[F[[[\nend fault 33 3 33\n",
    )
}

// A left neighbour is taken from the word below, not from the word that grows.
#[test]
fn left_neighbour_is_of_the_word_below(rt: HostRuntime) -> Result<(), Fail> {
    let heap = rt.alloc();
    answers(&rt, heap, b"1\nBAAA\n1: B < A -> B\n", "BBAA\nend clean\n")?;
    answers(&rt, heap, b"3\nBAAA\n1: B < A -> B\n", "BBBB\nend clean\n")?;
    answers(
        &rt,
        heap,
        b"2\nBA[+A]AA\n~+\n1: B < A -> B\n2: B -> A\n",
        "AA[+B]BA\nend clean\n",
    )
}

// The last module of a closed branch is no neighbour of the stem behind it, nor is the stem one of it.
#[test]
fn closed_branch_signals_nothing(rt: HostRuntime) -> Result<(), Fail> {
    let heap = rt.alloc();
    answers(
        &rt,
        heap,
        b"1\nA[B]A\n1: B < A -> C\n",
        "A[B]A\nend clean\n",
    )?;
    answers(
        &rt,
        heap,
        b"1\nA[B[A]]A\n1: B < A -> C\n",
        "A[B[C]]A\nend clean\n",
    )?;
    answers(&rt, heap, b"1\n[A]C\n1: A > C -> D\n", "[A]C\nend clean\n")?;
    answers(
        &rt,
        heap,
        b"1\nA[B]C\n1: A > C -> D\n",
        "D[B]C\nend clean\n",
    )
}

// A fault below that lies past what settles the right neighbour, or behind what does not look ahead, ends nothing early.
#[test]
fn fault_past_the_neighbour_waits(rt: HostRuntime) -> Result<(), Fail> {
    let heap = rt.alloc();
    answers(
        &rt,
        heap,
        b"1\nAC]\n1: A > C -> D\n",
        "DC\nend fault 23 0 3\n",
    )?;
    answers(
        &rt,
        heap,
        b"1\n[A]]C\n1: A > C -> D\n",
        "[A]\nend fault 23 0 4\n",
    )?;
    answers(&rt, heap, b"1\nB]\n1: B -> BB\n", "BB\nend fault 23 0 2\n")?;
    answers(&rt, heap, b"1\nA]\n1: A > C -> D\n", "\nend fault 23 0 2\n")?;
    answers(
        &rt,
        heap,
        b"2\nB]\n1: B -> BB\n2: B > C -> D\n",
        "\nend fault 23 0 2\n",
    )
}

// The winner hangs on no order of the lines.
#[test]
fn winners(rt: HostRuntime) -> Result<(), Fail> {
    let heap = rt.alloc();
    answers(
        &rt,
        heap,
        b"1\nABA\n7: A -> X\n3: A -> Y\n9: B < A -> Z\n",
        "YBZ\nend clean\n",
    )?;
    answers(
        &rt,
        heap,
        b"1\nABA\n9: B < A -> Z\n3: A -> Y\n7: A -> X\n",
        "YBZ\nend clean\n",
    )?;
    answers(
        &rt,
        heap,
        b"1\nABA\n3: A -> Y\n9: B < A -> Z\n7: A -> X\n",
        "YBZ\nend clean\n",
    )?;
    answers(
        &rt,
        heap,
        b"1\nBAC\n1: A > C -> X\n2: B < A -> Y\n",
        "BYC\nend clean\n",
    )?;
    answers(
        &rt,
        heap,
        b"1\nBAC\n1: A > C -> X\n2: B < A -> Y\n3: B < A > C -> Z\n",
        "BZC\nend clean\n",
    )
}
