// Examples of how rule texts are cut into tokens, by their listings.
#![tactic(auto)]

#[cfg(test)]
mod tests {
    use protocol::listing;
    use std::alloc::Global;
    use std::test::Fail;

    fn lists(heap: Global, text: &[u8], expected: &[u8]) -> Result<(), Fail> {
        let lines = listing(heap, text)?;
        if lines.as_slice() == expected {
            Ok(())
        } else {
            Err(Fail::new("another listing"))
        }
    }

    #[test]
    fn every_symbol(rt: HostRuntime) -> Result<(), Fail> {
        lists(
            rt.alloc(),
            b"()&|->",
            b"0 open\n1 close\n2 and\n3 or\n4 implies\n6 end\n",
        )
    }

    #[test]
    fn every_reserved_word(rt: HostRuntime) -> Result<(), Fail> {
        lists(
            rt.alloc(),
            b"not next always eventually",
            b"0 not\n4 next\n9 always\n16 eventually\n26 end\n",
        )?;
        lists(
            rt.alloc(),
            b"until true false",
            b"0 until\n6 true\n11 false\n16 end\n",
        )
    }

    #[test]
    fn names(rt: HostRuntime) -> Result<(), Fail> {
        lists(
            rt.alloc(),
            b"nothing untilx a_1",
            b"0 name nothing\n8 name untilx\n15 name a_1\n18 end\n",
        )?;
        lists(rt.alloc(), b"p&q", b"0 name p\n1 and\n2 name q\n3 end\n")
    }

    #[test]
    fn long_words(rt: HostRuntime) -> Result<(), Fail> {
        lists(
            rt.alloc(),
            b"abcdefghijklmno6",
            b"0 name abcdefghijklmno6\n16 end\n",
        )?;
        lists(rt.alloc(), b" abcdefghijklmno67", b"refused 2 1\n")
    }

    #[test]
    fn blanks(rt: HostRuntime) -> Result<(), Fail> {
        lists(rt.alloc(), b"", b"0 end\n")?;
        lists(rt.alloc(), b" \n  ", b"4 end\n")?;
        lists(rt.alloc(), b"p\nq ", b"0 name p\n2 name q\n4 end\n")
    }

    #[test]
    fn arrows(rt: HostRuntime) -> Result<(), Fail> {
        lists(rt.alloc(), b"p -", b"0 name p\nrefused 1 2\n")?;
        lists(rt.alloc(), b"p -q", b"0 name p\nrefused 1 2\n")?;
        lists(rt.alloc(), b"p >", b"0 name p\nrefused 1 2\n")
    }

    #[test]
    fn bytes_that_begin_no_token(rt: HostRuntime) -> Result<(), Fail> {
        for b in [0, 9, 13, 35, 48, 65, 95, 127, 128, 255] {
            lists(rt.alloc(), &[b' ', b], b"refused 1 1\n")?;
        }
        Ok(())
    }
}
