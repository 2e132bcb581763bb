//! Histories whose marks are those of `sha256sum`.

use record_judge::{Flaw, Judge};
use std::alloc::Global;

/// A judge who has taken two rows: a class is added, and a message is captured in it and in `unfiled`.
fn judge_of_two(alloc: Global) -> Result<Judge, Flaw> {
    let Ok(mut judge) = Judge::new(alloc) else {
        return Err(Flaw::NoMemory);
    };
    judge.take(
        1,
        b"1 2031-01-01T09:30:00Z ann added class finance",
        b"05b449bcd7a5122729dbfbff66b2b8564e484974f52cf71cea77cc57b6e7beda",
    )?;
    judge.take(
        2,
        b"2 2031-01-01T09:30:00Z ann captured 1 on 2031-01-01 message 17 9c6c8eb5e1aadf9965b891e6b38b9eaaa685400b5a6f4e755ee91c0695514d09 in finance,unfiled",
        b"db18e5877cfbeb1ebbed9d34cede50b3928ea6b02070535aaee796f06694cbbe",
    )?;
    Ok(judge)
}

/// What stands against a third row; `None` where it is taken.
fn flaw_of(alloc: Global, number: u32, line: &[u8], mark: &[u8]) -> Option<Flaw> {
    match judge_of_two(alloc) {
        Ok(mut judge) => judge.take(number, line, mark).err(),
        Err(flaw) => Some(flaw),
    }
}

#[test]
fn lawful_rows_are_taken(rt: HostRuntime) {
    let alloc = rt.alloc();
    let rows = [
        (
            b"3 2031-01-01T09:30:00Z ann held audit 1 : order 12/3".as_slice(),
            b"3d1e9958a7c4fcdb5a998b7dbdc6bed9a39c2708c59f795077dc30fa06f9fcee".as_slice(),
        ),
        (
            b"3 2031-01-01T09:30:00Z ann replaced plan (root permanent; finance, 1 years destroy; unfiled)".as_slice(),
            b"df573997db837fae3241ccb661a3100cdfc87129e0ca38949b1048c451549162".as_slice(),
        ),
        (
            b"3 2031-01-01T09:30:00Z ann refiled 1 to unfiled : order 12/3".as_slice(),
            b"c4cd9715f1cea1eaf75c95f3f9404e2f29964c716d357ecf0bb351cfc4e49a15".as_slice(),
        ),
        (
            b"3 2031-01-01T09:30:00Z ann titled finance 13:Tax documents 6:AO 147".as_slice(),
            b"c343a22a8e6ba0d403237634d4571fc0291668503345c2d8cfb1274a5af920d5".as_slice(),
        ),
        (
            b"3 2031-01-01T09:30:00Z ann made reasons required : order 12/3".as_slice(),
            b"b39d9b5d3dd291adab5647a6184b0356f872e1857a5c2ca74de3f0b2a8d2f192".as_slice(),
        ),
        (
            b"3 2031-01-01T09:30:00Z ann made reasons optional".as_slice(),
            b"34dc505ed46f383b753c19e736d92d26e3f78b0759d90db02920a425ebaa874a".as_slice(),
        ),
        (
            b"3 2031-01-01T09:30:00Z ann accepted findings note=1 : seen with ben".as_slice(),
            b"5f7e2f9cb3586a9a0e66689875bf418a25284b02f1f4c2104db6592291c93ec6".as_slice(),
        ),
        (
            b"3 2031-01-01T09:30:00Z ann found plan (root permanent; unfiled)".as_slice(),
            b"0bd9e90a4ad19b78119f3d44d00fd0c8bd043d7adfd75be6af004e5de97a282b".as_slice(),
        ),
        (
            b"3 2031-01-01T09:30:00Z ann found message 9 17 9c6c8eb5e1aadf9965b891e6b38b9eaaa685400b5a6f4e755ee91c0695514d09".as_slice(),
            b"ca13a5a94279637aa90f560d907dabad1df454fa187438f46a0656a589e2b20e".as_slice(),
        ),
        (
            b"3 2031-01-01T09:30:00Z ann found hold audit 9".as_slice(),
            b"1f00ea4692f8b80b7ad4723560fe45f50d051db803a89b09960aa545b5d89569".as_slice(),
        ),
        (
            b"3 2031-01-01T09:30:00Z ann found record 9 of message 9 in finance on 2031-01-01 live".as_slice(),
            b"2cf2a7e6a29298f84969c4ac4513966ed609ba60ab8f02f21b8493cd1f9fe3af".as_slice(),
        ),
    ];
    for (line, mark) in rows {
        assert!(rt; flaw_of(alloc, 3, line, mark).is_none());
    }
}

#[test]
fn unlawful_deeds_are_refused(rt: HostRuntime) {
    let alloc = rt.alloc();
    let rows = [
        (
            b"3 2031-01-01T09:30:00Z ann held audit 9".as_slice(),
            b"784a1c17f5aea262863b1994378f31f1f3a9347d307b72aa80034984b9af7497".as_slice(),
        ),
        (
            b"3 2031-01-01T09:30:00Z ann released audit 1".as_slice(),
            b"995674958e555c99c94cdffd250051d76212f46838846be3d7b8d134957e586e".as_slice(),
        ),
        (
            b"3 2031-01-01T09:30:00Z ann captured 4 on 2031-01-01 message 17 9c6c8eb5e1aadf9965b891e6b38b9eaaa685400b5a6f4e755ee91c0695514d09 in finance".as_slice(),
            b"a18555acaa10910ae5ba24ea8b5029a04d9b3e45f3e0f0a13e72de7a7ba2dc13".as_slice(),
        ),
        (
            b"3 2031-01-01T09:30:00Z ann destroyed 1 as due by 2032-01-01 (permanent)".as_slice(),
            b"6f061fe9c7df305bf4524289e86f5a32033c5cd31db868624e9251df7f75e1cb".as_slice(),
        ),
        (
            b"3 2031-01-01T09:30:00Z ann refiled 9 to finance".as_slice(),
            b"b226e94a28508147da4a8af49587bb7c5d809c4abe4a91e7cb62657d9228965e".as_slice(),
        ),
        (
            b"3 2031-01-01T09:30:00Z ann refiled 1 to rent".as_slice(),
            b"7c6580ef29e7be5ea19303e89899062b64fe052573c5f0a2ec61146f57a84ad9".as_slice(),
        ),
        (
            b"3 2031-01-01T09:30:00Z ann added class finance".as_slice(),
            b"0c37430ec14c70e65dc0b4527a3830f97657cb648da27fe237317e006ac4b9f7".as_slice(),
        ),
    ];
    for (line, mark) in rows {
        assert!(rt; matches!(flaw_of(alloc, 3, line, mark), Some(Flaw::Refused)));
    }
}

#[test]
fn destructions_under_another_schedule_are_refused(rt: HostRuntime) {
    let line =
        b"3 2031-01-01T09:30:00Z ann destroyed 1 as due by 2032-01-01 (1 years destroy)".as_slice();
    let mark = b"d84cf821eb013d398f8aed08700a1e851d99353d3314d7b963ee92b7e0bb3796".as_slice();
    assert!(rt;
        matches!(
            flaw_of(rt.alloc(), 3, line, mark),
            Some(Flaw::OtherSchedule)
        )
    );
}

#[test]
fn altered_rows_are_refused(rt: HostRuntime) {
    let alloc = rt.alloc();
    let line = b"3 2031-01-01T09:30:00Z ann held audit 1 : order 12/3".as_slice();
    let mark = b"3d1e9958a7c4fcdb5a998b7dbdc6bed9a39c2708c59f795077dc30fa06f9fcee".as_slice();
    assert!(rt; matches!(flaw_of(alloc, 4, line, mark), Some(Flaw::OutOfTurn)));
    assert!(rt;
        matches!(
            flaw_of(
                alloc,
                3,
                line,
                b"db18e5877cfbeb1ebbed9d34cede50b3928ea6b02070535aaee796f06694cbbe"
            ),
            Some(Flaw::OtherMark)
        )
    );
    let altered = b"3 2031-01-01T09:30:00Z ann held audit 2 : order 12/3".as_slice();
    assert!(rt; matches!(flaw_of(alloc, 3, altered, mark), Some(Flaw::OtherMark)));
    let other = b"4 2031-01-01T09:30:00Z ann held audit 1".as_slice();
    let its_mark = b"4f6cdc6e5208df384a43d08821205d655f50ad117cae4cef61b679132b5ab8e0".as_slice();
    assert!(rt; matches!(flaw_of(alloc, 3, other, its_mark), Some(Flaw::OtherNumber)));
    let none = b"3 2031-01-01T09:30:00Z ann titled 1".as_slice();
    let its_mark = b"490cecf658b98900e9ed04c498370709e54c44b0e25a8b1c0b521b72c674fa98".as_slice();
    assert!(rt; matches!(flaw_of(alloc, 3, none, its_mark), Some(Flaw::NotALine)));
    let no_plan = b"3 2031-01-01T09:30:00Z ann replaced plan (root permanent; finance)".as_slice();
    let its_mark = b"0903563afd36e01b51d67fca3cce2d4ed1e220825e4963553e1b96c057d91f58".as_slice();
    assert!(rt; matches!(flaw_of(alloc, 3, no_plan, its_mark), Some(Flaw::NoPlan)));
}
