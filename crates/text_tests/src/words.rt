use command_words::{four_positionals, no_positionals, three_positionals, two_positionals};
use std::alloc::Global;
use std::test::Fail;

fn words_of(alloc: Global, words: &[&str]) -> Result<Vec<String>, Fail> {
    let mut strings: Vec<String> = Vec::new(alloc);
    for word in words {
        strings.push(String::from_str(alloc, word)?)?;
    }
    Ok(strings)
}

#[test]
fn so_many_words_are_found_in_their_order(rt: HostRuntime) -> Result<(), Fail> {
    let alloc = rt.alloc();
    let words = words_of(alloc, &["check"])?;
    assert!(rt; no_positionals(alloc, &words)?);
    let words = words_of(alloc, &["import", "12", "units"])?;
    assert!(rt; two_positionals(alloc, &words)? == Some(("12", "units")));
    let words = words_of(alloc, &["show", "due", "2", "2024-02-20"])?;
    assert!(rt; three_positionals(alloc, &words)? == Some(("due", "2", "2024-02-20")));
    let words = words_of(alloc, &["show", "route", "2", "2024-02-20", "40"])?;
    let found = four_positionals(alloc, &words)?;
    assert!(rt; found == Some(("route", "2", "2024-02-20", "40")));
    Ok(())
}

// Words that clap would take as options, skip, or answer with help are not positionals here, and neither are fewer or more words.
#[test]
fn other_words_are_no_positionals(rt: HostRuntime) -> Result<(), Fail> {
    let alloc = rt.alloc();
    let cases: [&[&str]; 10] = [
        &[],
        &["import"],
        &["import", "12"],
        &["import", "12", "units", "units"],
        &["import", "-1", "units"],
        &["import", "12", "-units"],
        &["import", "12", "-"],
        &["import", "--", "12"],
        &["import", "12", "--help"],
        &["import", "-h", "units"],
    ];
    for case in cases {
        let words = words_of(alloc, case)?;
        assert!(rt; two_positionals(alloc, &words)?.is_none());
    }
    Ok(())
}

// An empty word is a word, a hyphen inside a word makes no option, and the name of a command may be any word.
#[test]
fn odd_words_are_positionals(rt: HostRuntime) -> Result<(), Fail> {
    let alloc = rt.alloc();
    let words = words_of(alloc, &["", "", "a-b"])?;
    assert!(rt; two_positionals(alloc, &words)? == Some(("", "a-b")));
    let words = words_of(alloc, &["--help", "help", "caf\u{e9}"])?;
    assert!(rt; two_positionals(alloc, &words)? == Some(("help", "caf\u{e9}")));
    let words = words_of(alloc, &["-"])?;
    assert!(rt; no_positionals(alloc, &words)?);
    let words = words_of(alloc, &["check", ""])?;
    assert!(rt; !no_positionals(alloc, &words)?);
    Ok(())
}
