// Lines of an input, and what is answered to each.
use super::books::new_book;
use protocol::{lines_in, read_input, respond};
use std::alloc::Global;
use std::test::Fail;

fn answers(heap: Global, input: &[u8], expected: &str) -> Result<(), Fail> {
    let mut book = new_book(heap)?;
    let mut all = String::new(heap);
    for line in lines_in(input) {
        let answer = format!(in heap; "{}\n", respond(&mut book, &heap, line))?;
        all.push_str(answer.as_str())?;
    }
    if all.as_str() == expected {
        Ok(())
    } else {
        Err(Fail::new(all.as_str()))
    }
}

#[test]
fn lines_end_at_a_feed_or_at_the_end(rt: HostRuntime) -> Result<(), Fail> {
    answers(rt.alloc(), b"", "")?;
    answers(rt.alloc(), b"signal p\nsignal q", "ok\nok\n")?;
    answers(rt.alloc(), b"signal p\nsignal q\n", "ok\nok\n")?;
    answers(rt.alloc(), b"signal p\n\n", "ok\nrefused 23 0\n")
}

#[test]
fn forms_of_signal(rt: HostRuntime) -> Result<(), Fail> {
    answers(rt.alloc(), b"signal ", "refused 12 0\n")?;
    answers(rt.alloc(), b"signal", "refused 23 0\n")?;
    answers(rt.alloc(), b"signal  p", "refused 23 0\n")?;
    answers(rt.alloc(), b"signal p ", "refused 23 0\n")?;
    answers(rt.alloc(), b" signal p", "refused 23 0\n")?;
    answers(rt.alloc(), b"signalp", "refused 23 0\n")
}

#[test]
fn forms_of_rule_and_drop(rt: HostRuntime) -> Result<(), Fail> {
    answers(
        rt.alloc(),
        b"rule 0 true\ndrop 0\ndrop 0\n",
        "ok\nok\nrefused 9 0\n",
    )?;
    answers(
        rt.alloc(),
        b"rule 0 \nrule 0\nrule  0 true\n",
        "refused 4 0\nrefused 23 0\nrefused 23 0\n",
    )?;
    answers(
        rt.alloc(),
        b"rule 0007 true\nrule 00007 true\n",
        "ok\nrefused 23 0\n",
    )?;
    answers(
        rt.alloc(),
        b"rule 9999 true\nrule x true\n",
        "refused 7 0\nrefused 23 0\n",
    )?;
    answers(
        rt.alloc(),
        b"rule 0true\nrule 0  true\n",
        "refused 23 0\nok\n",
    )?;
    answers(
        rt.alloc(),
        b"drop 0 \ndrop\ndrop \ndrop 8\n",
        "refused 23 0\nrefused 23 0\nrefused 23 0\nrefused 7 0\n",
    )
}

#[test]
fn no_more_than_65536_bytes_are_read(rt: HostRuntime) -> Result<(), Fail> {
    let heap = rt.alloc();
    let long = vec![in heap; b'a'; 65_537]?;
    let all = read_input(heap, long.as_slice())?;
    assert_eq!(rt; all.len(), 65_536);
    assert!(rt; long.len() == 65_537);
    let most = read_input(heap, &long[1..])?;
    assert_eq!(rt; most.len(), 65_536);
    Ok(())
}
