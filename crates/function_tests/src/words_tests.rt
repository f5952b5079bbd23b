use command_words::{Command, ServeWords, command_of};
use std::alloc::Global;
use std::test::*;

// Words, a `|` between two, and what they ask for; expected by the rules of the words.
const CASES: [(&str, &str); 42] = [
    ("serve|a.do|data", "serve a.do data 16 4 1073741824"),
    ("check|a.do", "check a.do"),
    ("dump|data", "dump data 16"),
    (
        "serve|a.do|data|--slots|3",
        "serve a.do data 3 4 1073741824",
    ),
    (
        "serve|--slots=3|a.do|data",
        "serve a.do data 3 4 1073741824",
    ),
    (
        "serve|a.do|--workers|2|data|--journal-bytes=4096",
        "serve a.do data 16 2 4096",
    ),
    ("dump|--slots|256|data", "dump data 256"),
    ("serve|a.do|--|--data", "serve a.do --data 16 4 1073741824"),
    ("serve|--|--a|--b", "serve --a --b 16 4 1073741824"),
    ("check|--|help", "check help"),
    ("dump|-", "dump - 16"),
    (
        "serve|a.do|data|--journal-bytes|1099511627776",
        "serve a.do data 16 4 1099511627776",
    ),
    ("serve|a.do|data|--slots|3|--slots|3", "usage"),
    ("serve|a.do|data|--slots=3|--slots=4", "usage"),
    ("serve|a.do|data|--slots|03", "usage"),
    ("serve|a.do|data|--slots|+3", "usage"),
    ("serve|a.do|data|--slots|0", "usage"),
    ("serve|a.do|data|--slots|257", "usage"),
    ("serve|a.do|data|--workers=17", "usage"),
    ("serve|a.do|data|--journal-bytes|4095", "usage"),
    (
        "serve|a.do|data|--journal-bytes|99999999999999999999999",
        "usage",
    ),
    ("serve|a.do|data|--slots", "usage"),
    ("serve|a.do|data|--slots|--workers|2", "usage"),
    ("serve|a.do|--data", "usage"),
    ("serve|a.do|-x|data", "usage"),
    ("serve|a.do", "usage"),
    ("serve|a.do|data|more", "usage"),
    ("dump|data|--workers|2", "usage"),
    ("gen|7|2000|data", "gen 7 2000 data"),
    (
        "gen|18446744073709551615|1000000|data",
        "gen 18446744073709551615 1000000 data",
    ),
    ("gen|0|0|--|--data", "gen 0 0 --data"),
    ("gen|18446744073709551616|1|data", "usage"),
    ("gen|0|1000001|data", "usage"),
    ("gen|00|1|data", "usage"),
    ("gen|0|-1|data", "usage"),
    ("gen|1|data", "usage"),
    ("gen|0|1|data|more", "usage"),
    ("gen|0|1|data|--slots|16", "usage"),
    ("help", "usage"),
    ("--help", "usage"),
    ("serve|--help", "usage"),
    ("--|check|a.do", "usage"),
];

// The command in words.
fn shown(alloc: Global, command: &Command) -> Result<String, Fail> {
    let text = match command {
        Command::Serve(told) => {
            let ServeWords {
                script,
                folder,
                slots,
                workers,
                journal,
            } = told;
            format!(in alloc; "serve {script} {folder} {slots} {workers} {journal}")?
        }
        Command::Check { script } => format!(in alloc; "check {script}")?,
        Command::Dump { folder, slots } => format!(in alloc; "dump {folder} {slots}")?,
        Command::Gen {
            seed,
            count,
            folder,
        } => format!(in alloc; "gen {seed} {count} {folder}")?,
        Command::Usage => String::from_str(alloc, "usage")?,
    };
    Ok(text)
}

fn words_of(alloc: Global, line: &str) -> Result<Vec<String>, Fail> {
    let mut words = Vec::new(alloc);
    for word in line.split('|') {
        words.push(String::from_str(alloc, word)?)?;
    }
    Ok(words)
}

#[test]
fn words_ask_for_what_the_table_says(rt: HostRuntime) -> Result<(), Fail> {
    let alloc = rt.alloc();
    for (line, expected) in &CASES {
        let words = words_of(alloc, line)?;
        let Ok(command) = command_of(alloc, words.as_slice()) else {
            return Err(std::alloc::AllocError.into());
        };
        let text = shown(alloc, &command)?;
        assert!(rt; text.as_str() == *expected);
    }
    Ok(())
}

#[test]
fn no_words_are_no_command(rt: HostRuntime) -> Result<(), Fail> {
    let words: Vec<String> = Vec::new(rt.alloc());
    assert!(rt; matches!(command_of(rt.alloc(), words.as_slice()), Ok(Command::Usage)));
    Ok(())
}
