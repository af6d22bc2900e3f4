//! Words that are a command, and words that are none.

use command_words::{Command, read_words, usage_line};
use std::alloc::{AllocError, Global};
use std::test::Fail;

const RUN: Command = Command::Run {
    port: 6653,
    rounds: 5,
};

const RECORD: Command = Command::Record {
    port: 6653,
    rounds: 5,
};

const GEN: Command = Command::Gen { start: 7, count: 0 };

/// The last numbers that are taken.
const LAST: Command = Command::Gen {
    start: u64::MAX,
    count: 100_000,
};

/// Words, and the command that they are (docs/SESSION.md).
const WORDS: [(&[&str], Option<Command>); 29] = [
    (&["replay"], Some(Command::Replay)),
    (&["--", "replay"], Some(Command::Replay)),
    (&["replay", "--"], Some(Command::Replay)),
    (&["run", "6653", "5"], Some(RUN)),
    (&["run", "--", "6653", "5"], Some(RUN)),
    (&["record", "6653", "5"], Some(RECORD)),
    (&["gen", "7", "0"], Some(GEN)),
    (&["--", "gen", "7", "0"], Some(GEN)),
    (&["gen", "18446744073709551615", "100000"], Some(LAST)),
    (&["replay", "x"], None),
    (&["run", "0", "5"], None),
    (&["gen", "07", "1"], None),
    (&["gen", "18446744073709551616", "1"], None),
    (&["gen", "7", "100001"], None),
    (&["gen", "7"], None),
    (&["gen", "7", "0", "0"], None),
    (&["--help"], None),
    (&["-h"], None),
    (&["run", "65536", "1"], None),
    (&["run", "6653", "1000000001"], None),
    (&["run", "6653", "05"], None),
    (&["run", "6653", "+5"], None),
    (&["run", "6653", "-5"], None),
    (&["record", "6653"], None),
    (&["record", "6653", "0"], None),
    (&["replay", "--", "--"], None),
    (&["-"], None),
    (&[""], None),
    (&[], None),
];

/// Whether words are read as this command.
fn is_read_as(alloc: Global, words: &[&str], command: Option<Command>) -> Result<bool, AllocError> {
    let mut all = Vec::new(alloc);
    for word in words {
        all.push(String::from_str(alloc, word)?)?;
    }
    Ok(read_words(alloc, &all)? == command)
}

#[test]
fn reads_commands_alone(rt: HostRuntime) -> Result<(), Fail> {
    for (words, command) in &WORDS {
        assert!(rt; is_read_as(rt.alloc(), words, *command)?, "{words:?}");
    }
    assert!(rt;
        usage_line()
            == "usage: legosdn replay, run PORT ROUNDS, record PORT ROUNDS, gen START COUNT"
    );
    Ok(())
}
