// Scripts that `nodeline` cannot be run on beside its own: refused makings, inputs without a node, and each algorithm over each
// hash.
#![tactic(auto)]

#[cfg(test)]
mod tests {
    use scripts::answer_script;
    use std::alloc::Global;
    use std::process::Abort;
    use std::test::Fail;

    fn replies(rt: &impl Abort, heap: Global, script: &[u8], expected: &[u8]) -> Result<(), Fail> {
        let replies = answer_script(heap, script)?;
        assert!(rt; replies.as_slice() == expected);
        Ok(())
    }

    // Scripts, each with the replies to it.
    fn replies_to(rt: &impl Abort, heap: Global, scripts: &[(&[u8], &[u8])]) -> Result<(), Fail> {
        for (script, expected) in scripts {
            replies(rt, heap, script, expected)?;
        }
        Ok(())
    }

    // Every call is refused alike; a second node line, a line of another form and an empty one are not.
    const REFUSED_BY_1: [(&[u8], &[u8]); 6] = [
        (
            b"node 0 1 10 1\ninstall 0 00112233445566778899AABBCCDDEEFF\nclear 0\nopen 0 0\nfeed 0 00\nfinish 0 32\njudge 0 00\ndrop 0\nseal 0 1 0 00 295\ntake 00\ncarry 0 1 0 0 8 1\ndecline 0 1 0 0 8 1\nmeter\nstate\nnode 2 1 10 1\nmeter 0\n\n",
            b"no 1\nno 1\nno 1\nno 1\nno 1\nno 1\nno 1\nno 1\nno 1\nno 1\nno 1\nno 1\nno 1\nno 1\n?\n?\n?\n",
        ),
        (b"node 4 1 10 1\nmeter\n", b"no 1\nno 1\n"),
        (b"node 1 0 10 1\nmeter\n", b"no 1\nno 1\n"),
        (b"node 1 2 10 1\nmeter\n", b"no 1\nno 1\n"),
        (b"node 2 5 0 65535\nmeter\n", b"no 1\nno 1\n"),
        (b"node 999 999 999 65535\nmeter\n", b"no 1\nno 1\n"),
    ];

    #[test]
    fn makings_refused_by_1(rt: HostRuntime) -> Result<(), Fail> {
        replies_to(&rt, rt.alloc(), &REFUSED_BY_1)
    }

    const REFUSED_BY_2: [(&[u8], &[u8]); 3] = [
        (
            b"node 1 4 10 1\ninstall 0 00112233445566778899AABBCCDDEEFF\nclear 0\nopen 0 0\nfeed 0 00\nfinish 0 32\njudge 0 00\ndrop 0\nseal 0 1 0 00 295\ntake 00\ncarry 0 1 0 0 8 1\ndecline 0 1 0 0 8 1\nmeter\nstate\nnode 2 1 10 1\nmeter 0\n\n",
            b"no 2\nno 2\nno 2\nno 2\nno 2\nno 2\nno 2\nno 2\nno 2\nno 2\nno 2\nno 2\nno 2\nno 2\n?\n?\n?\n",
        ),
        (b"node 3 4 16 1\nmeter\n", b"no 2\nno 2\n"),
        (b"node 3 4 0 65535\nmeter\n", b"no 2\nno 2\n"),
    ];

    #[test]
    fn makings_refused_by_2(rt: HostRuntime) -> Result<(), Fail> {
        replies_to(&rt, rt.alloc(), &REFUSED_BY_2)
    }

    const REFUSED_BY_4: [(&[u8], &[u8]); 5] = [
        (
            b"node 2 1 0 1\ninstall 0 00112233445566778899AABBCCDDEEFF\nclear 0\nopen 0 0\nfeed 0 00\nfinish 0 32\njudge 0 00\ndrop 0\nseal 0 1 0 00 295\ntake 00\ncarry 0 1 0 0 8 1\ndecline 0 1 0 0 8 1\nmeter\nstate\nnode 2 1 10 1\nmeter 0\n\n",
            b"no 4\nno 4\nno 4\nno 4\nno 4\nno 4\nno 4\nno 4\nno 4\nno 4\nno 4\nno 4\nno 4\nno 4\n?\n?\n?\n",
        ),
        (b"node 2 1 21 1\nmeter\n", b"no 4\nno 4\n"),
        (b"node 2 4 33 1\nmeter\n", b"no 4\nno 4\n"),
        (b"node 3 1 11 1\nmeter\n", b"no 4\nno 4\n"),
        (b"node 1 3 999 65535\nmeter\n", b"no 4\nno 4\n"),
    ];

    #[test]
    fn makings_refused_by_4(rt: HostRuntime) -> Result<(), Fail> {
        replies_to(&rt, rt.alloc(), &REFUSED_BY_4)
    }

    const REFUSED_BY_23: [(&[u8], &[u8]); 2] = [
        (
            b"node 2 1 20 65535\ninstall 0 00112233445566778899AABBCCDDEEFF\nclear 0\nopen 0 0\nfeed 0 00\nfinish 0 32\njudge 0 00\ndrop 0\nseal 0 1 0 00 295\ntake 00\ncarry 0 1 0 0 8 1\ndecline 0 1 0 0 8 1\nmeter\nstate\nnode 2 1 10 1\nmeter 0\n\n",
            b"no 23\nno 23\nno 23\nno 23\nno 23\nno 23\nno 23\nno 23\nno 23\nno 23\nno 23\nno 23\nno 23\nno 23\n?\n?\n?\n",
        ),
        (b"node 1 1 1 65535\nmeter\n", b"no 23\nno 23\n"),
    ];

    #[test]
    fn makings_refused_by_23(rt: HostRuntime) -> Result<(), Fail> {
        replies_to(&rt, rt.alloc(), &REFUSED_BY_23)
    }

    const ACCEPTED: [(&[u8], &[u8]); 5] = [
        (b"node 2 1 20 65534\nmeter\n", b"ok\n0\n"),
        (b"node 2 4 32 0\nmeter\n", b"ok\n0\n"),
        (b"node 3 3 10 65534\nmeter\n", b"ok\n0\n"),
        (b"node 1 3 1 1\nmeter\n", b"ok\n0\n"),
        (b"node 2 4 1 1\nmeter\n", b"ok\n0\n"),
    ];

    #[test]
    fn accepted_at_the_edges(rt: HostRuntime) -> Result<(), Fail> {
        replies_to(&rt, rt.alloc(), &ACCEPTED)
    }

    // An empty rest after the last newline is no line.
    const WITHOUT: [(&[u8], &[u8]); 7] = [
        (b"", b""),
        (b"\n", b"?\n"),
        (b"meter", b"?\n"),
        (b"\n\n", b"?\n?\n"),
        (b"node 2 1 20", b"?\n"),
        (b"meter\nnode 2 1 20 1", b"?\nok\n"),
        (b"node 2 1 20 1\n\nmeter", b"ok\n?\n0\n"),
    ];

    #[test]
    fn without_a_node(rt: HostRuntime) -> Result<(), Fail> {
        replies_to(&rt, rt.alloc(), &WITHOUT)
    }

    // A tag, a frame, and the frame taken and carried.
    const COMBINATIONS: [(&[u8], &[u8]); 9] = [
        (
            b"node 1 1 20 7\ninstall 5 00112233445566778899AABBCCDDEEFF\nopen 2 5\nfeed 2 616263\nfinish 2 32\nseal 5 7 0 0A 295\nmeter\ntake 34010007000000010AE0535F34985228CC408D8D0C85C702E0B6A9A3EF\ncarry 5 1 0 10 8 1\nmeter\nstate\n",
            b"ok\nok\nok\nok\ntag 6300DC20E97A5AA29DB9C7D607D23D126FA36863\nframe 34010007000000010AE0535F34985228CC408D8D0C85C702E0B6A9A3EF\n10\norder 5 1 0 10 8 1\nok\n12\n10 1 1 0\n",
        ),
        (
            b"node 1 3 20 7\ninstall 5 00112233445566778899AABBCCDDEEFF\nopen 2 5\nfeed 2 616263\nfinish 2 32\nseal 5 7 0 0A 295\nmeter\ntake 34010007000000010A16FEA4467201CC29EA4B1DBDA375B4ED65254827\ncarry 5 1 0 10 8 1\nmeter\nstate\n",
            b"ok\nok\nok\nok\ntag A738B26A8BD318184E76707A99CAE14C670B9711\nframe 34010007000000010A16FEA4467201CC29EA4B1DBDA375B4ED65254827\n10\norder 5 1 0 10 8 1\nok\n12\n10 1 1 0\n",
        ),
        (
            b"node 1 4 16 7\ninstall 5 00112233445566778899AABBCCDDEEFF\nopen 2 5\nfeed 2 616263\nfinish 2 32\nseal 5 7 0 0A 295\nmeter\n",
            b"no 2\nno 2\nno 2\nno 2\nno 2\nno 2\nno 2\n",
        ),
        (
            b"node 2 1 20 7\ninstall 5 00112233445566778899AABBCCDDEEFF\nopen 2 5\nfeed 2 616263\nfinish 2 32\nseal 5 7 0 0A 295\nmeter\ntake 34010007000000010A39FD05BE771D620539D1145DF6C2A20291D83AF4\ncarry 5 1 0 10 8 1\nmeter\nstate\n",
            b"ok\nok\nok\nok\ntag 5B48C1749DDED71EDFE0ADE2B944E808E4A65820\nframe 34010007000000010A39FD05BE771D620539D1145DF6C2A20291D83AF4\n6\norder 5 1 0 10 8 1\nok\n8\n10 1 1 0\n",
        ),
        (
            b"node 2 3 20 7\ninstall 5 00112233445566778899AABBCCDDEEFF\nopen 2 5\nfeed 2 616263\nfinish 2 32\nseal 5 7 0 0A 295\nmeter\ntake 34010007000000010ADAD7BB481E6231DF8952D7E69CFFFFDF321E8B46\ncarry 5 1 0 10 8 1\nmeter\nstate\n",
            b"ok\nok\nok\nok\ntag 6EE2A25F943E3F3EC05225FBB86BA73E2E5D51D2\nframe 34010007000000010ADAD7BB481E6231DF8952D7E69CFFFFDF321E8B46\n6\norder 5 1 0 10 8 1\nok\n8\n10 1 1 0\n",
        ),
        (
            b"node 2 4 32 7\ninstall 5 00112233445566778899AABBCCDDEEFF\nopen 2 5\nfeed 2 616263\nfinish 2 32\nseal 5 7 0 0A 295\nmeter\ntake 34010007000000010ACE8752293AE77FBD0D9ECF8012C0A8D935394465E8C9414AD9327BE11E9EBB17\ncarry 5 1 0 10 8 1\nmeter\nstate\n",
            b"ok\nok\nok\nok\ntag 02581EA39A6CF2D752793FD782CFB9CF965BE72B32B322C9551D03510645FB31\nframe 34010007000000010ACE8752293AE77FBD0D9ECF8012C0A8D935394465E8C9414AD9327BE11E9EBB17\n6\norder 5 1 0 10 8 1\nok\n8\n10 1 1 0\n",
        ),
        (
            b"node 3 1 10 7\ninstall 5 00112233445566778899AABBCCDDEEFF\nopen 2 5\nfeed 2 616263\nfinish 2 32\nseal 5 7 0 0A 295\nmeter\ntake 34010007000000010AE73ECA7D68EE572A80CF\ncarry 5 1 0 10 8 1\nmeter\nstate\n",
            b"ok\nok\nok\nok\ntag 7720FD23925B854F963E\nframe 34010007000000010AE73ECA7D68EE572A80CF\n8\norder 5 1 0 10 8 1\nok\n9\n10 1 1 0\n",
        ),
        (
            b"node 3 3 10 7\ninstall 5 00112233445566778899AABBCCDDEEFF\nopen 2 5\nfeed 2 616263\nfinish 2 32\nseal 5 7 0 0A 295\nmeter\ntake 34010007000000010AE1611F19770913C8324D\ncarry 5 1 0 10 8 1\nmeter\nstate\n",
            b"ok\nok\nok\nok\ntag C1BD6F9C908132FEF518\nframe 34010007000000010AE1611F19770913C8324D\n8\norder 5 1 0 10 8 1\nok\n9\n10 1 1 0\n",
        ),
        (
            b"node 3 4 16 7\ninstall 5 00112233445566778899AABBCCDDEEFF\nopen 2 5\nfeed 2 616263\nfinish 2 32\nseal 5 7 0 0A 295\nmeter\n",
            b"no 2\nno 2\nno 2\nno 2\nno 2\nno 2\nno 2\n",
        ),
    ];

    #[test]
    fn each_algorithm_over_each_hash(rt: HostRuntime) -> Result<(), Fail> {
        replies_to(&rt, rt.alloc(), &COMBINATIONS)
    }
}
