//! Lines of words, taken and refused.

use crate::seeing::assert_same;
use frame_layout::Choice;
use offload_words::{
    Command, MergeOptions, SegmentOptions, WordsFault, every_faultless_line_is_a_command,
    parse_words,
};
use std::alloc::{AllocError, Global};
use std::process::Abort;
use tap_filter::Instr;

// A word of a line, in which ~ stands for a space.
fn word_of(alloc: Global, text: &str) -> Result<String, AllocError> {
    let mut word = String::new(alloc);
    for c in text.chars() {
        word.push(if c == '~' { ' ' } else { c })?;
    }
    Ok(word)
}

// The words of a line, one space between two of them, and ~ for one within a word; at a space at the end the last word
// is empty.
pub fn words(alloc: Global, line: &str) -> Result<Vec<String>, AllocError> {
    let mut words = Vec::new(alloc);
    for word in line.split(' ') {
        words.push(word_of(alloc, word)?)?;
    }
    Ok(words)
}

// What is made of a line.
fn parsed(rt: &impl Abort, alloc: Global, line: &str) -> Result<Command, WordsFault> {
    let words = words(alloc, line).expect(rt, "no memory");
    parse_words(alloc, &words)
}

/// The options of `merge` that take a number.
#[derive(Clone, Copy, PartialEq)]
struct Numbers {
    queues: u32,
    budget: u32,
    blocks: u32,
    taps: u32,
    snap: u32,
    segs: u32,
}

/// What `merge` has where no option is given.
const DEFAULTS: Numbers = Numbers {
    queues: 1,
    budget: 64,
    blocks: 8384,
    taps: 0,
    snap: 64,
    segs: 4096,
};

/// Whether these are the numbers, flows go to queues by a fold, and taps are shown all.
fn has_numbers(options: &MergeOptions, want: Numbers) -> bool {
    let numbers = Numbers {
        queues: options.queues,
        budget: options.budget,
        blocks: options.blocks,
        taps: options.taps,
        snap: options.snap,
        segs: options.segs,
    };
    let is_fold = match &options.choice {
        Choice::Fold => true,
        Choice::Toeplitz { .. } => false,
    };
    numbers == want && is_fold && options.filter.is_none()
}

fn is_merge(command: &Result<Command, WordsFault>, want: Numbers) -> bool {
    match command {
        Ok(Command::Merge(options)) => has_numbers(options, want),
        _ => false,
    }
}

fn is_usage(command: &Result<Command, WordsFault>) -> bool {
    match command {
        Err(fault) => *fault == WordsFault::Usage,
        Ok(_) => false,
    }
}

fn is_segment(command: &Result<Command, WordsFault>, want: u32) -> bool {
    match command {
        Ok(Command::Segment(SegmentOptions { blocks })) => *blocks == want,
        _ => false,
    }
}

fn is_make(command: &Result<Command, WordsFault>, seed: u64, count: u32) -> bool {
    match command {
        Ok(Command::Make(options)) => options.seed == seed && options.count == count,
        _ => false,
    }
}

fn is_check(
    command: &Result<Command, WordsFault>,
    want: Numbers,
    seed: Option<u64>,
    count: u32,
) -> bool {
    match command {
        Ok(Command::Check(options)) => {
            has_numbers(&options.merge, want) && options.seed == seed && options.count == count
        }
        _ => false,
    }
}

/// The key with which the Toeplitz hash is shown in most descriptions.
const KEY: &str =
    "6d5a56da255b0ec24167253d43a38fb0d0ca2bcbae7b30b477cb2da38030f20c6a42b73bbeac01fa";

/// What a line comes to.
enum Wanted {
    Merge(Numbers),
    Segment(u32),
    Make(u64, u32),
    Check(Numbers, Option<u64>, u32),
}

static LINES: [(&str, Wanted); 33] = [
    ("offload merge", Wanted::Merge(DEFAULTS)),
    ("offload merge --queues 1", Wanted::Merge(DEFAULTS)),
    (
        "offload merge --queues 64",
        Wanted::Merge(Numbers {
            queues: 64,
            ..DEFAULTS
        }),
    ),
    (
        "offload merge --budget 1",
        Wanted::Merge(Numbers {
            budget: 1,
            ..DEFAULTS
        }),
    ),
    (
        "offload merge --budget 4096",
        Wanted::Merge(Numbers {
            budget: 4096,
            ..DEFAULTS
        }),
    ),
    ("offload merge --budget=64", Wanted::Merge(DEFAULTS)),
    (
        "offload merge --budget +7",
        Wanted::Merge(Numbers {
            budget: 7,
            ..DEFAULTS
        }),
    ),
    (
        "offload merge --budget 007",
        Wanted::Merge(Numbers {
            budget: 7,
            ..DEFAULTS
        }),
    ),
    (
        "offload merge --blocks 1",
        Wanted::Merge(Numbers {
            blocks: 1,
            ..DEFAULTS
        }),
    ),
    (
        "offload merge --blocks=65536",
        Wanted::Merge(Numbers {
            blocks: 65536,
            ..DEFAULTS
        }),
    ),
    ("offload merge --taps 0", Wanted::Merge(DEFAULTS)),
    (
        "offload merge --taps 8",
        Wanted::Merge(Numbers {
            taps: 8,
            ..DEFAULTS
        }),
    ),
    (
        "offload merge --snap 1",
        Wanted::Merge(Numbers {
            snap: 1,
            ..DEFAULTS
        }),
    ),
    (
        "offload merge --snap 2048",
        Wanted::Merge(Numbers {
            snap: 2048,
            ..DEFAULTS
        }),
    ),
    (
        "offload merge --segs 1",
        Wanted::Merge(Numbers {
            segs: 1,
            ..DEFAULTS
        }),
    ),
    ("offload merge --segs=4096", Wanted::Merge(DEFAULTS)),
    ("offload merge --", Wanted::Merge(DEFAULTS)),
    (
        "offload merge --budget 2 --",
        Wanted::Merge(Numbers {
            budget: 2,
            ..DEFAULTS
        }),
    ),
    (
        "offload merge --segs 11 --snap 9 --taps 2 --blocks 7 --budget 5 --queues 3",
        Wanted::Merge(Numbers {
            queues: 3,
            budget: 5,
            blocks: 7,
            taps: 2,
            snap: 9,
            segs: 11,
        }),
    ),
    ("offload segment", Wanted::Segment(8384)),
    ("offload segment --", Wanted::Segment(8384)),
    ("offload segment --blocks 1", Wanted::Segment(1)),
    ("offload make", Wanted::Make(1, 1000)),
    ("another-name make --seed 0 --count 0", Wanted::Make(0, 0)),
    ("offload make --count 10000000", Wanted::Make(1, 10000000)),
    (
        "offload make --seed=18446744073709551615",
        Wanted::Make(u64::MAX, 1000),
    ),
    ("offload make --count 5 --seed +07", Wanted::Make(7, 5)),
    ("offload check", Wanted::Check(DEFAULTS, None, 1000)),
    (
        "offload check --seed 0",
        Wanted::Check(DEFAULTS, Some(0), 1000),
    ),
    (
        "offload check --seed=18446744073709551615",
        Wanted::Check(DEFAULTS, Some(u64::MAX), 1000),
    ),
    ("offload check --count 0", Wanted::Check(DEFAULTS, None, 0)),
    (
        "offload check --count 10000000 --seed 1",
        Wanted::Check(DEFAULTS, Some(1), 10000000),
    ),
    (
        "offload check --queues 4 --taps 2 --segs 17 --seed 7 --count 5",
        Wanted::Check(
            Numbers {
                queues: 4,
                taps: 2,
                segs: 17,
                ..DEFAULTS
            },
            Some(7),
            5,
        ),
    ),
];

fn is_wanted(command: &Result<Command, WordsFault>, wanted: &Wanted) -> bool {
    match wanted {
        Wanted::Merge(numbers) => is_merge(command, *numbers),
        Wanted::Segment(blocks) => is_segment(command, *blocks),
        Wanted::Make(seed, count) => is_make(command, *seed, *count),
        Wanted::Check(numbers, seed, count) => is_check(command, *numbers, *seed, *count),
    }
}

// The first line that comes to something else.
fn first_other(rt: &impl Abort, alloc: Global) -> &'static str {
    for (line, wanted) in &LINES {
        if !is_wanted(&parsed(rt, alloc, line), wanted) {
            return line;
        }
    }
    "none"
}

#[test]
fn commands_and_their_numbers(rt: HostRuntime) {
    assert_same(&rt, &first_other(&rt, rt.alloc()), &"none");
}

/// The options of `merge`, or of the merging of `check`.
fn merging(command: &Result<Command, WordsFault>) -> Option<&MergeOptions> {
    match command {
        Ok(Command::Merge(options)) => Some(options),
        Ok(Command::Check(options)) => Some(&options.merge),
        _ => None,
    }
}

/// Whether flows go to queues by this key, and by a table of so many entries that begins with these.
fn has_table(command: &Result<Command, WordsFault>, len: usize, front: &[u8]) -> bool {
    let Some(options) = merging(command) else {
        return false;
    };
    match &options.choice {
        Choice::Fold => false,
        Choice::Toeplitz { key, table } => {
            let has_key = key.hash(&[1, 0, 0, 0, 0, 0, 0, 0, 0, 0, 0, 0]) == 0xad2b6d12;
            has_key && table.len() == len && table.as_slice().starts_with(front)
        }
    }
}

/// A line, and its table's length and first entries.
static TABLES: [(&str, usize, &[u8]); 7] = [
    ("merge --rss KEY", 128, &[0; 128]),
    ("merge --rss KEY --queues 3", 128, &[0, 1, 2, 0, 1, 2, 0]),
    (
        "check --queues=64 --rss=6d5a56da255b0ec24167253d43a38fb0d0ca2bcbae7b30b477cb2da38030f20c6a42b73bbeac01fa",
        128,
        &[0, 1, 2, 3, 4, 5, 6],
    ),
    ("merge --table 0 --rss KEY", 1, &[0]),
    (
        "check --queues 4 --rss KEY --table 3,0,003,1",
        4,
        &[3, 0, 3, 1],
    ),
    (
        "merge --queues 64 --rss KEY --table=63,00,1",
        3,
        &[63, 0, 1],
    ),
    ("merge --table LONG --rss KEY", 128, &[0; 128]),
];

/// So many zeros, with commas between them.
fn push_zeros(line: &mut String, count: u32) -> Result<(), AllocError> {
    for _ in 1..count {
        line.push_str("0,")?;
    }
    line.push('0')
}

fn push_word(line: &mut String, word: &str) -> Result<(), AllocError> {
    match word {
        "KEY" => line.push_str(KEY),
        "LONG" => push_zeros(line, 128),
        "TOO" => push_zeros(line, 129),
        _ => line.push_str(word),
    }
}

/// A line in which KEY, LONG and TOO stand for the key and for tables of 128 and of 129 entries.
fn rss_line(alloc: Global, line: &str) -> Result<String, AllocError> {
    let mut whole = String::from_str(alloc, "offload")?;
    for word in line.split(' ') {
        whole.push(' ')?;
        push_word(&mut whole, word)?;
    }
    Ok(whole)
}

/// What is made of such a line.
fn rss_parsed(rt: &impl Abort, alloc: Global, line: &str) -> Result<Command, WordsFault> {
    let line = rss_line(alloc, line).expect(rt, "no memory");
    parsed(rt, alloc, &line)
}

/// The first line that has another table.
fn first_other_table(rt: &impl Abort, alloc: Global) -> &'static str {
    for (line, len, front) in &TABLES {
        if !has_table(&rss_parsed(rt, alloc, line), *len, front) {
            return line;
        }
    }
    "none"
}

#[test]
fn keys_and_tables(rt: HostRuntime) {
    assert_same(&rt, &first_other_table(&rt, rt.alloc()), &"none");
}

/// Keys and tables that are none, and tables without a key.
static REFUSED_KEYS: [&str; 22] = [
    "merge --table 0",
    "check --queues 2 --table 0,1",
    "merge --rss KEY --table 1",
    "merge --queues 2 --rss KEY --table 2",
    "merge --queues 64 --rss KEY --table 64",
    "merge --queues 64 --rss KEY --table 1,2,256",
    "merge --rss KEY --table TOO",
    "merge --rss KEY --table ",
    "merge --rss KEY --table=",
    "merge --rss KEY --table 0,",
    "merge --rss KEY --table ,0",
    "merge --rss KEY --table 0,,0",
    "merge --rss KEY --table 0000",
    "merge --rss KEY --table +0",
    "merge --rss KEY --table 0,~0",
    "merge --rss KEY --table 0x0",
    "merge --rss KEY --rss KEY",
    "merge --rss KEY --table 0 --table 0",
    "merge --rss",
    "merge --rss ",
    "segment --rss KEY",
    "make --rss KEY",
];

/// What stands in the place of the key: it is a digit short, a digit too long, has a capital, a letter behind f, and a
/// character of two bytes.
static NO_KEYS: [&str; 5] = [
    "offload merge --rss 6d5a56da255b0ec24167253d43a38fb0d0ca2bcbae7b30b477cb2da38030f20c6a42b73bbeac01f",
    "offload merge --rss 6d5a56da255b0ec24167253d43a38fb0d0ca2bcbae7b30b477cb2da38030f20c6a42b73bbeac01fa0",
    "offload merge --rss 6D5a56da255b0ec24167253d43a38fb0d0ca2bcbae7b30b477cb2da38030f20c6a42b73bbeac01fa",
    "offload merge --rss 6d5a56da255b0ec24167253d43a38fb0d0ca2bcbae7b30b477cb2da38030f20c6a42b73bbeac01fg",
    "offload merge --rss 6d5a56da255b0ec24167253d43a38fb0d0ca2bcbae7b30b477cb2da38030f20c6a42b73bbeac01é",
];

/// The first line of keys and tables that is taken.
fn first_taken_key(rt: &impl Abort, alloc: Global) -> &'static str {
    for line in &REFUSED_KEYS {
        if !is_usage(&rss_parsed(rt, alloc, line)) {
            return line;
        }
    }
    "none"
}

/// The first of these lines that is taken.
fn first_taken<'a>(rt: &impl Abort, alloc: Global, lines: &[&'a str]) -> &'a str {
    for line in lines {
        if !is_usage(&parsed(rt, alloc, line)) {
            return line;
        }
    }
    "none"
}

#[test]
fn refused_keys_and_tables(rt: HostRuntime) {
    let alloc = rt.alloc();
    let first = (
        first_taken_key(&rt, alloc),
        first_taken(&rt, alloc, &NO_KEYS),
    );
    assert_same(&rt, &first, &("none", "none"));
}

fn has_filter(command: &Result<Command, WordsFault>, want: &[Instr]) -> bool {
    let Some(options) = merging(command) else {
        return false;
    };
    match &options.filter {
        Some(program) => program.code() == want,
        None => false,
    }
}

const FORTY: [Instr; 1] = [Instr {
    code: 6,
    jt: 0,
    jf: 0,
    k: 40,
}];

/// Whether byte 23 of a frame is 6, as in a TCP segment over IPv4: then 262,144, else 0.
const TCP: [Instr; 4] = [
    Instr {
        code: 48,
        jt: 0,
        jf: 0,
        k: 23,
    },
    Instr {
        code: 21,
        jt: 0,
        jf: 1,
        k: 6,
    },
    Instr {
        code: 6,
        jt: 0,
        jf: 0,
        k: 262144,
    },
    Instr {
        code: 6,
        jt: 0,
        jf: 0,
        k: 0,
    },
];

static FILTERS: [(&str, &[Instr]); 3] = [
    ("offload merge --filter 1,6~0~0~40", &FORTY),
    ("offload check --filter=1,6~0~0~40 --taps 1", &FORTY),
    (
        "offload merge --filter 4,48~0~0~23,21~0~1~6,6~0~0~262144,6~0~0~0",
        &TCP,
    ),
];

static REFUSED_FILTERS: [&str; 14] = [
    "offload merge --filter 0",
    "offload merge --filter 1,255~0~0~0",
    "offload merge --filter 1,21~0~0~6",
    "offload merge --filter 1,52~0~0~0",
    "offload merge --filter 1,2~0~0~16",
    "offload merge --filter 1,135~0~0~0",
    "offload merge --filter 1,6~0~0",
    "offload check --filter 2,6~0~0~40",
    "offload check --filter ",
    "offload check --filter tcp",
    "offload merge --filter",
    "offload merge --filter 1,6~0~0~40 --filter 1,6~0~0~40",
    "offload segment --filter 1,6~0~0~40",
    "offload make --filter 1,6~0~0~40",
];

// The first line that has another filter.
fn first_other_filter(rt: &impl Abort, alloc: Global) -> &'static str {
    for (line, want) in &FILTERS {
        if !has_filter(&parsed(rt, alloc, line), want) {
            return line;
        }
    }
    "none"
}

#[test]
fn filters(rt: HostRuntime) {
    let alloc = rt.alloc();
    let first = (
        first_other_filter(&rt, alloc),
        first_taken(&rt, alloc, &REFUSED_FILTERS),
    );
    assert_same(&rt, &first, &("none", "none"));
}

static REFUSED_LINES: [&str; 61] = [
    "offload make --count 10000001",
    "offload make --seed 18446744073709551616",
    "offload make --seed -1",
    "offload make --budget 2",
    "offload make --blocks 2",
    "offload make 1",
    "offload make --help",
    "offload",
    "offload --help",
    "offload --version",
    "offload help",
    "offload merge --help",
    "offload merge -h",
    "offload merge --version",
    "offload frobnicate",
    "offload segment --budget 2",
    "offload segment --queues 2",
    "offload segment --blocks 0",
    "offload segment --help",
    "offload segment merge",
    "offload merge --queues 0",
    "offload merge --queues 65",
    "offload merge --budget 0",
    "offload merge --budget 4097",
    "offload merge --blocks 0",
    "offload merge --blocks 65537",
    "offload merge --taps 9",
    "offload merge --taps -1",
    "offload merge --snap 0",
    "offload merge --snap 2049",
    "offload merge --segs 0",
    "offload merge --segs 4097",
    "offload merge --segs -1",
    "offload merge --segs 2 --segs 2",
    "offload segment --segs 2",
    "offload make --segs 2",
    "offload merge --budget 18446744073709551616",
    "offload merge --budget -0",
    "offload merge --budget",
    "offload merge --budget ",
    "offload merge --budget=",
    "offload merge --budget 0x1",
    "offload merge --budget 1_0",
    "offload merge --queues 2 --queues 2",
    "offload merge --budget 2 --budget 2",
    "offload merge --blocks 2 --blocks 3",
    "offload merge --taps 1 --taps=1",
    "offload merge --snap 64 --taps 1 --snap 64",
    "offload merge --seed 1",
    "offload check --queues 65",
    "offload check --snap 0",
    "offload check --count 10000001",
    "offload check --seed 18446744073709551616",
    "offload check --seed",
    "offload check --seed 1 --seed 1",
    "offload check --help",
    "offload merge --budget 2 3",
    "offload merge -- 2",
    "offload merge merge",
    "offload --budget 2 merge",
    "offload ",
];

#[test]
fn refused_lines(rt: HostRuntime) {
    let alloc = rt.alloc();
    let none: Vec<String> = Vec::new(alloc);
    let is_refused = is_usage(&parse_words(alloc, &none));
    assert_same(
        &rt,
        &(first_taken(&rt, alloc, &REFUSED_LINES), is_refused),
        &("none", true),
    );
    every_faultless_line_is_a_command();
}
