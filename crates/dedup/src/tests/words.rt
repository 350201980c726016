// What words ask for, as `clap` reads them.
use crate::fault::Fault;
use crate::words::read_words;
use std::alloc::{AllocError, Global};
use std::test::Fail;

// The program's name, and these words behind it.
fn words_of_run(alloc: Global, words: &[&str]) -> Result<Vec<String>, Fail> {
    let mut owned = Vec::new(alloc);
    owned.push(String::from_str(alloc, "dedup")?)?;
    for word in words {
        owned.push(String::from_str(alloc, word)?)?;
    }
    Ok(owned)
}

// The list and the files that these words behind the program's name ask for, or that they are bad.
fn answer_to(alloc: Global, words: &[&str]) -> Result<String, Fail> {
    match read_words(alloc, &words_of_run(alloc, words)?) {
        Ok(asked) => {
            let files = asked.files.join(alloc, " ")?;
            Ok(format!(in alloc; "{:?}: {files}", asked.listing)?)
        }
        Err(Fault::BadWords) => Ok(String::from_str(alloc, "bad words")?),
        Err(_) => Err(AllocError.into()),
    }
}

// The number of workers that these words behind the program's name ask for, none where bad.
fn workers_of(alloc: Global, words: &[&str]) -> Result<Option<u32>, Fail> {
    match read_words(alloc, &words_of_run(alloc, words)?) {
        Ok(asked) => Ok(Some(asked.workers)),
        Err(Fault::BadWords) => Ok(None),
        Err(_) => Err(AllocError.into()),
    }
}

// The room that these words behind the program's name ask for, none where they are bad.
fn room_of(alloc: Global, words: &[&str]) -> Result<Option<u64>, Fail> {
    match read_words(alloc, &words_of_run(alloc, words)?) {
        Ok(asked) => Ok(Some(asked.room)),
        Err(Fault::BadWords) => Ok(None),
        Err(_) => Err(AllocError.into()),
    }
}

#[test]
fn reads_the_command_and_nothing_else(rt: HostRuntime) -> Result<(), Fail> {
    let cases: [(&[&str], &str); 41] = [
        (&["f"], "Keep: f"),
        (&["g", "f", "g"], "Keep: g f g"),
        (&["--list", "keep", "f"], "Keep: f"),
        (&["--list", "count", "f"], "Count: f"),
        (&["--list=ids", "f"], "Ids: f"),
        (&["f", "--list", "ids", "g", "--workers", "1"], "Ids: f g"),
        (&["--workers", "1", "f"], "Keep: f"),
        (&["--workers", "01", "f"], "Keep: f"),
        (&["--workers=001", "f"], "Keep: f"),
        (&["--", "-x"], "Keep: -x"),
        (&["f", "--", "--list", "ids"], "Keep: f --list ids"),
        (&["-"], "Keep: -"),
        (&[""], "Keep: "),
        (&["help"], "Keep: help"),
        (&[], "bad words"),
        (&["--"], "bad words"),
        (&["--list", "ids"], "bad words"),
        (&["f", "--list"], "bad words"),
        (&["--list", "ids", "--list", "ids", "f"], "bad words"),
        (&["--list", "all", "f"], "bad words"),
        (&["--list=", "f"], "bad words"),
        (&["--workers", "0001", "f"], "bad words"),
        (&["--workers", "0", "f"], "bad words"),
        (&["--workers", "64", "f"], "Keep: f"),
        (&["--workers", "1x", "f"], "bad words"),
        (&["--workers", "+1", "f"], "bad words"),
        (&["--workers", "", "f"], "bad words"),
        (&["--workers=", "f"], "bad words"),
        (&["--help", "f"], "bad words"),
        (&["-h", "f"], "bad words"),
        (&["--version", "f"], "bad words"),
        (&["--way", "try", "f"], "Keep: f"),
        (&["--way=try", "--list", "ids", "f"], "Ids: f"),
        (&["--way", "helped", "f"], "bad words"),
        (&["--way", "Try", "f"], "bad words"),
        (&["--way", "", "f"], "bad words"),
        (&["--way", "try", "--way", "try", "f"], "bad words"),
        (&["f", "--way"], "bad words"),
        (&["--room", "5", "f", "g"], "Keep: f g"),
        (&["--room", "5"], "bad words"),
        (&["--check", "g", "f"], "bad words"),
    ];
    for (words, answer) in cases {
        assert_eq!(rt;
            answer_to(rt.alloc(), words)?.as_str(),
            answer,
            "at {words:?}"
        );
    }
    Ok(())
}

#[test]
fn workers_are_1_to_64_in_3_digits_at_most(rt: HostRuntime) -> Result<(), Fail> {
    let cases: [(&[&str], Option<u32>); 24] = [
        (&["f"], Some(4)),
        (&["--workers", "1", "f"], Some(1)),
        (&["--workers=5", "f"], Some(5)),
        (&["f", "--workers", "12", "--list", "ids", "g"], Some(12)),
        (&["--workers", "63", "f"], Some(63)),
        (&["--workers", "64", "f"], Some(64)),
        (&["--workers", "001", "f"], Some(1)),
        (&["--workers", "064", "f"], Some(64)),
        (&["--", "--workers", "5"], Some(4)),
        (&["--workers", "0", "f"], None),
        (&["--workers", "000", "f"], None),
        (&["--workers", "65", "f"], None),
        (&["--workers", "257", "f"], None),
        (&["--workers", "999", "f"], None),
        (&["--workers", "0001", "f"], None),
        (&["--workers", "4294967297", "f"], None),
        (&["--workers", "x", "f"], None),
        (&["--workers", "5x", "f"], None),
        (&["--workers", "+1", "f"], None),
        (&["--workers=-1", "f"], None),
        (&["--workers", "", "f"], None),
        (&["--workers=", "f"], None),
        (&["f", "--workers"], None),
        (&["--workers", "5", "--workers", "5", "f"], None),
    ];
    for (words, workers) in cases {
        assert_eq!(rt; workers_of(rt.alloc(), words)?, workers, "at {words:?}");
    }
    Ok(())
}

#[test]
fn a_room_is_0_to_134217728_in_9_digits_at_most(rt: HostRuntime) -> Result<(), Fail> {
    let cases: [(&[&str], Option<u64>); 25] = [
        (&["f"], Some(16777216)),
        (&["--room", "0", "f"], Some(0)),
        (&["--room", "1", "f"], Some(1)),
        (&["--room=5", "f"], Some(5)),
        (&["f", "--room", "4096", "--list", "ids", "g"], Some(4096)),
        (&["--room", "16777217", "f"], Some(16777217)),
        (&["--room", "134217727", "f"], Some(134217727)),
        (&["--room", "134217728", "f"], Some(134217728)),
        (&["--room", "000000000", "f"], Some(0)),
        (&["--room", "000000007", "f"], Some(7)),
        (&["--", "--room", "5"], Some(16777216)),
        (&["--room", "134217729", "f"], None),
        (&["--room", "999999999", "f"], None),
        (&["--room", "0000000000", "f"], None),
        (&["--room", "0000000007", "f"], None),
        (&["--room", "18446744073709551621", "f"], None),
        (&["--room", "x", "f"], None),
        (&["--room", "5x", "f"], None),
        (&["--room", "+1", "f"], None),
        (&["--room=-1", "f"], None),
        (&["--room", " 5", "f"], None),
        (&["--room", "", "f"], None),
        (&["--room=", "f"], None),
        (&["f", "--room"], None),
        (&["--room", "5", "--room", "5", "f"], None),
    ];
    for (words, room) in cases {
        assert_eq!(rt; room_of(rt.alloc(), words)?, room, "at {words:?}");
    }
    Ok(())
}

#[test]
fn a_command_has_64_files_at_most(rt: HostRuntime) -> Result<(), Fail> {
    let files = ["f"; 65];
    let most = answer_to(rt.alloc(), &files[..64])?;
    assert_eq!(rt; most.len(), "Keep:".len() + 64 * " f".len());
    assert_eq!(rt; answer_to(rt.alloc(), &files)?.as_str(), "bad words");
    Ok(())
}

#[test]
fn the_first_word_is_the_name_whatever_it_is(rt: HostRuntime) -> Result<(), Fail> {
    let alloc = rt.alloc();
    let no_words: [String; 0] = [];
    assert!(rt; matches!(read_words(alloc, &no_words), Err(Fault::BadWords)));
    let words = [
        String::from_str(alloc, "--help")?,
        String::from_str(alloc, "f")?,
    ];
    assert!(rt; read_words(alloc, &words).is_ok());
    Ok(())
}
