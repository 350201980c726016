// Runs over files in memory: what is printed, and what is told of a fault.
use fixture::{NONE, run_on};
use std::test::Fail;

mod faults;
mod fixture;
mod lone;
mod rooms;
mod words;
mod workers;

const IDS: [&str; 6] = ["dedup", "--room", "1000", "--list", "ids", "f"];

#[test]
fn prints_each_id_once(rt: HostRuntime) -> Result<(), Fail> {
    let cases: [(&[&str], &[u8], &[u8], &[u8]); 13] = [
        (&IDS, b"3\n1\n3\n", b"", b"1\n3\n"),
        (&IDS, b"", b"", b""),
        (&IDS, b"007\n \t\n\n7\r\n9", b"", b"7\n9\n"),
        (
            &IDS,
            b"18446744073709551615\n0\n",
            b"",
            b"0\n18446744073709551615\n",
        ),
        (
            &["dedup", "--workers", "1", "f"],
            b"5\n5\n7\n",
            b"",
            b"5 1:1\n7 1:3\n",
        ),
        (
            &["dedup", "--list", "ids", "f", "g"],
            b"1726482093751209984\n1726482093751209985\n",
            b"1726482093751209985\n42\n",
            b"42\n1726482093751209984\n1726482093751209985\n",
        ),
        (
            &[
                "dedup",
                "--way",
                "try",
                "--workers=1",
                "--room",
                "1000",
                "f",
                "g",
            ],
            b"98\n99\n",
            b"99\n42\n",
            b"42 2:2\n98 1:1\n99 1:2\n",
        ),
        (
            &["dedup", "--workers", "1", "f"],
            b"1\n \t\n2",
            b"",
            b"1 1:1\n2 1:3\n",
        ),
        (
            &["dedup", "--workers", "1", "f", "g"],
            b"5\n5\n7\n",
            b"007\r\n9",
            b"5 1:1\n7 1:3\n9 2:2\n",
        ),
        (
            &["dedup", "--workers", "1", "--room", "1000", "f", "g"],
            b"9\n\n5\n",
            b"5\n2\n9\n",
            b"2 2:2\n5 1:3\n9 1:1\n",
        ),
        (
            &[
                "dedup",
                "g",
                "--list=keep",
                "--room=1000",
                "--workers",
                "1",
                "f",
            ],
            b"9\n",
            b"9\n",
            b"9 1:1\n",
        ),
        (
            &["dedup", "f", "f", "--room", "1000", "--list", "count"],
            b"5\n6\n",
            b"",
            b"records 4 distinct 2\n",
        ),
        (
            &["dedup", "--list", "count", "--workers", "1", "f"],
            b"",
            b"",
            b"records 0 distinct 0\n",
        ),
    ];
    for (words, f, g, output) in cases {
        let outcome = run_on(&rt, rt.alloc(), words, f, g, &NONE)?;
        assert_eq!(rt; outcome.ended.status, 0, "at {words:?}");
        assert_eq!(rt; outcome.out.bytes(), output, "at {words:?}");
        assert!(rt; outcome.faults.bytes().is_empty());
    }
    Ok(())
}

#[test]
fn the_first_fault_of_the_files_is_told(rt: HostRuntime) -> Result<(), Fail> {
    let both = ["dedup", "f", "g"];
    let cases: [(&[&str], &[u8], &[u8], u8, &[u8]); 7] = [
        (
            &["dedup", "f"],
            b"1\n18446744073709551616\n",
            b"",
            3,
            b"dedup: bad line 1:2\n",
        ),
        (&both, b"1\n2\n", b"1\n\n1 1\n", 3, b"dedup: bad line 2:3\n"),
        (&both, b"+5\n", b"x\n", 3, b"dedup: bad line 1:1\n"),
        (&IDS, b"7\r \n", b"", 3, b"dedup: bad line 1:1\n"),
        (
            &["dedup", "h", "f"],
            b"x\n",
            b"",
            4,
            b"dedup: read fault in file 1\n",
        ),
        (
            &["dedup", "f", "h"],
            b"1\n",
            b"",
            4,
            b"dedup: read fault in file 2\n",
        ),
        (
            &["dedup", "--", ""],
            b"1\n",
            b"",
            4,
            b"dedup: read fault in file 1\n",
        ),
    ];
    for (words, f, g, status, line) in cases {
        let outcome = run_on(&rt, rt.alloc(), words, f, g, &NONE)?;
        assert_eq!(rt; outcome.ended.status, status, "at {line:?}");
        assert!(rt; outcome.out.bytes().is_empty());
        assert_eq!(rt; outcome.faults.bytes(), line);
    }
    Ok(())
}

#[test]
fn words_that_are_not_the_command_are_bad(rt: HostRuntime) -> Result<(), Fail> {
    let cases: [&[&str]; 8] = [
        &[],
        &["dedup"],
        &["dedup", "--help"],
        &["dedup", "--workers", "0", "f"],
        &["dedup", "--make", "5:1", "f"],
        &["dedup", "--room", "x", "f"],
        &["dedup", "--way", "helped", "f"],
        &["dedup", "--calls", "--list", "ids", "f"],
    ];
    for words in cases {
        let outcome = run_on(&rt, rt.alloc(), words, b"1\n", b"", &NONE)?;
        assert_eq!(rt; outcome.ended.status, 2, "at {words:?}");
        assert!(rt; outcome.out.bytes().is_empty());
        assert_eq!(rt; outcome.faults.bytes(), b"dedup: bad words\n".as_slice());
    }
    Ok(())
}
