//! Values of filters, each code at least once, their faults, and frames in two pieces. The values are those of
//! `bpf_filter` of libpcap 1.10 on the same frame, and the last texts are what tcpdump 4.99 prints by `-ddd`.
ghost use Rattle.std.specs.Prelude.{◌≡◌, ◌+◌, ◌<◌, ◌^◌, ◌++◌, length};

use crate::seeing::assert_same;
use std::alloc::Global;
use std::process::Abort;
use tap_filter::{Bytes, FilterFault, Instr, Program, never_stuck, parse_filter};
use worked_captures::FIRST;

static LOADS: [(&str, u32); 17] = [
    // a word
    ("2,32 0 0 26,22 0 0 0", 167772161),
    // the last word
    ("2,32 0 0 54,22 0 0 0", 1633837924),
    // a word beyond the end by a byte
    ("2,32 0 0 55,22 0 0 0", 0),
    // a word from far behind
    ("2,32 0 0 4294967295,22 0 0 0", 0),
    // a half
    ("2,40 0 0 16,22 0 0 0", 44),
    // the last half
    ("2,40 0 0 56,22 0 0 0", 25444),
    // a half beyond the end by a byte
    ("2,40 0 0 57,22 0 0 0", 0),
    // a byte
    ("2,48 0 0 23,22 0 0 0", 6),
    // the last byte
    ("2,48 0 0 57,22 0 0 0", 100),
    // a byte behind the end
    ("2,48 0 0 58,22 0 0 0", 0),
    // a word by X
    ("3,1 0 0 20,64 0 0 6,22 0 0 0", 167772161),
    // the last word by X
    ("3,1 0 0 50,64 0 0 4,22 0 0 0", 1633837924),
    // a word by X beyond the end
    ("3,1 0 0 50,64 0 0 5,22 0 0 0", 0),
    // a half by X
    ("3,1 0 0 12,72 0 0 4,22 0 0 0", 44),
    // a byte by X
    ("3,1 0 0 20,80 0 0 3,22 0 0 0", 6),
    // X and k add exactly
    ("3,1 0 0 4294967295,80 0 0 24,22 0 0 0", 0),
    // and in the other order
    ("3,1 0 0 24,80 0 0 4294967295,22 0 0 0", 0),
];

static REGISTERS: [(&str, u32); 12] = [
    // A is k
    ("2,0 0 0 4294967295,22 0 0 0", 4294967295),
    // A is 0 at first
    ("1,22 0 0 0", 0),
    // A is the length
    ("2,128 0 0 0,22 0 0 0", 58),
    // X is the length
    ("3,129 0 0 0,135 0 0 0,22 0 0 0", 58),
    // X is 0 at first
    ("3,0 0 0 5,135 0 0 0,22 0 0 0", 0),
    // X is a header's length
    ("3,177 0 0 14,135 0 0 0,22 0 0 0", 20),
    // of the high half of a byte nothing is read
    ("3,177 0 0 46,135 0 0 0,22 0 0 0", 0),
    // a header's length behind the end
    ("2,177 0 0 58,6 0 0 1", 0),
    // A to memory and back
    ("5,0 0 0 7,2 0 0 15,0 0 0 0,96 0 0 15,22 0 0 0", 7),
    // X to memory and back
    ("6,1 0 0 8,3 0 0 0,1 0 0 0,97 0 0 0,135 0 0 0,22 0 0 0", 8),
    // A to memory, X from it
    ("5,0 0 0 9,2 0 0 3,97 0 0 3,135 0 0 0,22 0 0 0", 9),
    // X is A, which stays
    ("4,0 0 0 77,7 0 0 0,12 0 0 0,22 0 0 0", 154),
];

static ARITHMETIC: [(&str, u32); 29] = [
    // add
    ("3,0 0 0 4294967295,4 0 0 3,22 0 0 0", 2),
    // add X
    ("4,1 0 0 9,0 0 0 4294967290,12 0 0 0,22 0 0 0", 3),
    // subtract
    ("3,0 0 0 2,20 0 0 3,22 0 0 0", 4294967295),
    // subtract X
    ("4,1 0 0 9,0 0 0 5,28 0 0 0,22 0 0 0", 4294967292),
    // multiply
    ("3,0 0 0 65537,36 0 0 65537,22 0 0 0", 131073),
    // multiply by X
    ("4,1 0 0 3,0 0 0 5,44 0 0 0,22 0 0 0", 15),
    // divide
    ("3,0 0 0 17,52 0 0 5,22 0 0 0", 3),
    // divide by X
    ("4,1 0 0 4,0 0 0 4294967295,60 0 0 0,22 0 0 0", 1073741823),
    // divide by an X of 0
    ("3,0 0 0 17,60 0 0 0,6 0 0 1", 0),
    // or
    ("3,0 0 0 160,68 0 0 15,22 0 0 0", 175),
    // or X
    ("4,1 0 0 5,0 0 0 9,76 0 0 0,22 0 0 0", 13),
    // and
    ("3,0 0 0 255,84 0 0 60,22 0 0 0", 60),
    // and X
    ("4,1 0 0 12,0 0 0 10,92 0 0 0,22 0 0 0", 8),
    // shift left
    ("3,0 0 0 3,100 0 0 31,22 0 0 0", 2147483648),
    // shift left by X
    ("4,1 0 0 4,0 0 0 3,108 0 0 0,22 0 0 0", 48),
    // shift left by an X of 31
    ("4,1 0 0 31,0 0 0 3,108 0 0 0,22 0 0 0", 2147483648),
    // of 32
    ("4,1 0 0 32,0 0 0 3,108 0 0 0,22 0 0 0", 0),
    // of the most
    ("4,1 0 0 4294967295,0 0 0 3,108 0 0 0,22 0 0 0", 0),
    // shift right
    ("3,0 0 0 4026531840,116 0 0 28,22 0 0 0", 15),
    // shift right by X
    ("4,1 0 0 4,0 0 0 255,124 0 0 0,22 0 0 0", 15),
    // shift right by an X of 32
    ("4,1 0 0 32,0 0 0 255,124 0 0 0,22 0 0 0", 0),
    // of 33
    ("4,1 0 0 33,0 0 0 255,124 0 0 0,22 0 0 0", 0),
    // remainder
    ("3,0 0 0 17,148 0 0 5,22 0 0 0", 2),
    // remainder by X
    ("4,1 0 0 10,0 0 0 4294967295,156 0 0 0,22 0 0 0", 5),
    // remainder by an X of 0
    ("3,0 0 0 17,156 0 0 0,6 0 0 1", 0),
    // exclusive or
    ("3,0 0 0 255,164 0 0 15,22 0 0 0", 240),
    // exclusive or with X
    ("4,1 0 0 6,0 0 0 5,172 0 0 0,22 0 0 0", 3),
    // negate
    ("3,0 0 0 1,132 0 0 0,22 0 0 0", 4294967295),
    // negate 0
    ("2,132 0 0 0,22 0 0 0", 0),
];

static JUMPS: [(&str, u32); 22] = [
    // go on
    ("3,5 0 0 1,6 0 0 1,6 0 0 2", 2),
    // go on to the next
    ("3,5 0 0 0,6 0 0 1,6 0 0 2", 1),
    // jt is skipped where it holds
    ("5,0 0 0 5,21 2 0 5,6 0 0 1,6 0 0 2,6 0 0 3", 3),
    // jf where it doesn't
    ("5,0 0 0 5,21 0 2 6,6 0 0 1,6 0 0 2,6 0 0 3", 3),
    // equal
    ("4,0 0 0 5,21 0 1 5,6 0 0 1,6 0 0 2", 1),
    // not equal
    ("4,0 0 0 5,21 0 1 6,6 0 0 1,6 0 0 2", 2),
    // equal to X
    ("5,1 0 0 5,0 0 0 5,29 0 1 0,6 0 0 1,6 0 0 2", 1),
    // not equal to X
    ("5,1 0 0 6,0 0 0 5,29 0 1 0,6 0 0 1,6 0 0 2", 2),
    // above
    ("4,0 0 0 6,37 0 1 5,6 0 0 1,6 0 0 2", 1),
    // not above
    ("4,0 0 0 5,37 0 1 5,6 0 0 1,6 0 0 2", 2),
    // above X
    ("5,1 0 0 5,0 0 0 4294967295,45 0 1 0,6 0 0 1,6 0 0 2", 1),
    // not above X
    ("5,1 0 0 5,0 0 0 5,45 0 1 0,6 0 0 1,6 0 0 2", 2),
    // at least
    ("4,0 0 0 5,53 0 1 5,6 0 0 1,6 0 0 2", 1),
    // not at least
    ("4,0 0 0 4,53 0 1 5,6 0 0 1,6 0 0 2", 2),
    // at least X
    ("5,1 0 0 5,0 0 0 5,61 0 1 0,6 0 0 1,6 0 0 2", 1),
    // not at least X
    ("5,1 0 0 5,0 0 0 4,61 0 1 0,6 0 0 1,6 0 0 2", 2),
    // a bit in common
    ("4,0 0 0 6,69 0 1 4,6 0 0 1,6 0 0 2", 1),
    // no bit
    ("4,0 0 0 6,69 0 1 9,6 0 0 1,6 0 0 2", 2),
    // a bit in common with X
    ("5,1 0 0 2,0 0 0 6,77 0 1 0,6 0 0 1,6 0 0 2", 1),
    // no bit of X
    ("5,1 0 0 8,0 0 0 6,77 0 1 0,6 0 0 1,6 0 0 2", 2),
    // a value
    ("1,6 0 0 40", 40),
    // the greatest value
    ("1,6 0 0 4294967295", 4294967295),
];

static EXPRESSIONS: [(&str, u32); 9] = [
    // tcp port 5001
    (
        "20,40 0 0 12,21 0 6 34525,48 0 0 20,21 0 15 6,40 0 0 54,21 12 0 5001,40 0 0 56,\
         21 10 11 5001,21 0 10 2048,48 0 0 23,21 0 8 6,40 0 0 20,69 6 0 8191,177 0 0 14,72 0 0 14,\
         21 2 0 5001,72 0 0 16,21 0 1 5001,6 0 0 262144,6 0 0 0",
        262144,
    ),
    // ip6
    ("4,40 0 0 12,21 0 1 34525,6 0 0 262144,6 0 0 0", 0),
    // vlan
    (
        "6,40 0 0 12,21 2 0 33024,21 1 0 34984,21 0 1 37120,6 0 0 262144,6 0 0 0",
        0,
    ),
    // host 10.0.0.2
    (
        "14,40 0 0 12,21 0 4 2048,32 0 0 26,21 8 0 167772162,32 0 0 30,21 6 7 167772162,21 1 0 2054,\
         21 0 5 32821,32 0 0 28,21 2 0 167772162,32 0 0 38,21 0 1 167772162,6 0 0 262144,6 0 0 0",
        262144,
    ),
    // greater 100
    ("4,128 0 0 0,53 0 1 100,6 0 0 262144,6 0 0 0", 0),
    // less 100
    ("4,128 0 0 0,37 0 1 100,6 0 0 0,6 0 0 262144", 262144),
    // tcp[13] & 8 != 0
    (
        "11,40 0 0 12,21 0 8 2048,48 0 0 23,21 0 6 6,40 0 0 20,69 4 0 8191,177 0 0 14,80 0 0 27,\
         69 0 1 8,6 0 0 262144,6 0 0 0",
        0,
    ),
    // src port 1024
    (
        "20,40 0 0 12,21 0 6 34525,48 0 0 20,21 2 0 132,21 1 0 6,21 0 13 17,40 0 0 54,21 10 11 1024,\
         21 0 10 2048,48 0 0 23,21 2 0 132,21 1 0 6,21 0 6 17,40 0 0 20,69 4 0 8191,177 0 0 14,\
         72 0 0 14,21 0 1 1024,6 0 0 262144,6 0 0 0",
        0,
    ),
    // ip[2:2] - ((ip[0] & 0xf) << 2) - ((tcp[12] & 0xf0) >> 2) > 0
    (
        "21,40 0 0 12,21 0 18 2048,40 0 0 16,2 0 0 1,48 0 0 14,84 0 0 15,100 0 0 2,7 0 0 5,96 0 0 1,\
         28 0 0 0,2 0 0 5,177 0 0 14,80 0 0 26,84 0 0 240,116 0 0 2,7 0 0 9,96 0 0 5,28 0 0 0,\
         37 0 1 0,6 0 0 262144,6 0 0 0",
        262144,
    ),
];

/// The value of a text on the frame. None where it is no program.
fn value_of(alloc: Global, text: &str) -> Option<u32> {
    match Program::of_text(alloc, text) {
        Ok(program) => {
            let frame: &[u8] = &FIRST;
            Some(program.value(&frame))
        }
        Err(_) => None,
    }
}

/// The text of the first row whose value is another.
fn first_wrong<'a>(alloc: Global, rows: &[(&'a str, u32)]) -> &'a str {
    for (text, value) in rows {
        if value_of(alloc, text) != Some(*value) {
            return text;
        }
    }
    ""
}

#[test]
fn loads_of_the_frame(rt: HostRuntime) {
    assert_same(&rt, &first_wrong(rt.alloc(), &LOADS), &"");
}

#[test]
fn registers_and_memory(rt: HostRuntime) {
    assert_same(&rt, &first_wrong(rt.alloc(), &REGISTERS), &"");
}

#[test]
fn arithmetic_modulo_2_to_32(rt: HostRuntime) {
    assert_same(&rt, &first_wrong(rt.alloc(), &ARITHMETIC), &"");
}

#[test]
fn jumps_and_returns(rt: HostRuntime) {
    assert_same(&rt, &first_wrong(rt.alloc(), &JUMPS), &"");
}

#[test]
fn expressions_of_tcpdump(rt: HostRuntime) {
    assert_same(&rt, &first_wrong(rt.alloc(), &EXPRESSIONS), &"");
    never_stuck();
}

/// What is wrong with a text. None where it is a program.
fn fault_of(alloc: Global, text: &str) -> Option<FilterFault> {
    Program::of_text(alloc, text).err()
}

/// The tests in their order, the first place that fails, and jumps to the end and over it.
static FAULTS: [(&str, FilterFault); 19] = [
    ("0", FilterFault::BadLength { count: 0 }),
    ("1,255 0 0 0", FilterFault::BadCode { at: 0 }),
    // the codes of a sum with neither k nor X, of a negation with X, and of a load of a byte with X alone
    ("2,140 0 0 0,6 0 0 0", FilterFault::BadCode { at: 0 }),
    ("2,0 0 0 0,49 0 0 0", FilterFault::BadCode { at: 1 }),
    ("1,21 0 0 6", FilterFault::BadJump { at: 0 }),
    ("3,21 1 2 0,6 0 0 0,6 0 0 0", FilterFault::BadJump { at: 0 }),
    ("3,21 2 1 0,6 0 0 0,6 0 0 0", FilterFault::BadJump { at: 0 }),
    ("2,5 0 0 1,6 0 0 0", FilterFault::BadJump { at: 0 }),
    // a jump back
    ("2,5 0 0 4294967295,6 0 0 0", FilterFault::BadJump { at: 0 }),
    ("1,2 0 0 16", FilterFault::BadMemory { at: 0 }),
    (
        "2,0 0 0 0,97 0 0 4294967295",
        FilterFault::BadMemory { at: 1 },
    ),
    ("1,52 0 0 0", FilterFault::BadConstant { at: 0 }),
    ("1,148 0 0 0", FilterFault::BadConstant { at: 0 }),
    ("1,100 0 0 32", FilterFault::BadConstant { at: 0 }),
    ("1,116 0 0 4294967295", FilterFault::BadConstant { at: 0 }),
    // the first fault of three
    (
        "3,0 0 0 0,100 0 0 32,255 0 0 0",
        FilterFault::BadConstant { at: 1 },
    ),
    ("1,135 0 0 0", FilterFault::NoReturn),
    // a return that isn't the last
    ("2,6 0 0 0,7 0 0 0", FilterFault::NoReturn),
    ("1,6 0 0", FilterFault::BadText),
];

static NO_TEXTS: [&str; 20] = [
    "",
    "1",
    "0,",
    "1,6 0 0 1,",
    "2,6 0 0 1",
    "1,6 0 0 1,6 0 0 1",
    "1,6  0 0 1",
    "1,6 0 0 1 ",
    " 1,6 0 0 1",
    "1, 6 0 0 1",
    "1,6 0 0 1 1",
    "1,6 0 0 +1",
    "1,6 0 0 -1",
    "1,0x6 0 0 1",
    "1,65536 0 0 1",
    "1,6 256 0 1",
    "1,6 0 256 1",
    "1,6 0 0 4294967296",
    "1,6 0 0 00000000001",
    "00000000001,6 0 0 1",
];

/// Jumps to the last instruction; the greatest numbers; ten digits. Where nothing jumps, jt and jf count for nothing.
static TAKEN: [&str; 4] = [
    "3,21 1 1 0,6 0 0 0,6 0 0 0",
    "2,100 255 255 31,22 255 255 4294967295",
    "0000000001,0000000006 00 0 0000000001",
    "2,5 0 0 0,6 0 0 0",
];

/// The first text with another fault.
fn first_other<'a>(alloc: Global, rows: &[(&'a str, FilterFault)]) -> &'a str {
    for (text, fault) in rows {
        if fault_of(alloc, text) != Some(*fault) {
            return text;
        }
    }
    "none"
}

/// The first text that is read otherwise: refused as no text, or taken.
fn first_unlike<'a>(alloc: Global, texts: &[&'a str], fault: Option<FilterFault>) -> &'a str {
    for text in texts {
        if fault_of(alloc, text) != fault {
            return text;
        }
    }
    "none"
}

#[test]
fn faults_in_their_order(rt: HostRuntime) {
    assert_same(&rt, &first_other(rt.alloc(), &FAULTS), &"none");
}

#[test]
fn texts_that_are_read(rt: HostRuntime) {
    let bad = Some(FilterFault::BadText);
    let first_taken = first_unlike(rt.alloc(), &NO_TEXTS, bad);
    let first_refused = first_unlike(rt.alloc(), &TAKEN, None);
    assert_same(&rt, &(first_taken, first_refused), &("none", "none"));
}

/// What is wrong with so many times the same return, and how many instructions come back.
fn fault_of_returns(rt: &impl Abort, alloc: Global, count: usize) -> Option<(usize, FilterFault)> {
    let one = Instr {
        code: 6,
        jt: 0,
        jf: 0,
        k: 7,
    };
    let code = vec![in alloc; one; count].expect(rt, "no memory");
    match Program::validate(code) {
        Ok(_) => None,
        Err((code, fault)) => Some((code.len(), fault)),
    }
}

#[test]
fn the_longest_program(rt: HostRuntime) {
    let alloc = rt.alloc();
    let faults = [
        fault_of_returns(&rt, alloc, 4096),
        fault_of_returns(&rt, alloc, 4097),
    ];
    let too_many = FilterFault::BadLength { count: 4097 };
    assert_same(&rt, &faults, &[None, Some((4097, too_many))]);
}

static INSTRUCTIONS: [Instr; 2] = [
    Instr {
        code: 37,
        jt: 1,
        jf: 255,
        k: 4294967295,
    },
    Instr {
        code: 65535,
        jt: 2,
        jf: 3,
        k: 4,
    },
];

#[test]
fn instructions_of_a_text(rt: HostRuntime) {
    let code = parse_filter(rt.alloc(), "2,37 1 255 4294967295,65535 2 3 4").expect(&rt, "a text");
    assert_same(&rt, &code.as_slice(), &INSTRUCTIONS.as_slice());
}

/// Two pieces, one behind the other.
#[derive(Drop)]
struct Pieces<'a> {
    front: &'a [u8],
    back: &'a [u8],
    ghost small: { length front.now + length back.now < 2 ^ 32 },
}

impl<'a> Bytes for Pieces<'a> {
    ghost frame = { λ p. p.front.now ++ p.back.now };

    fn len(&self) -> usize {
        self.front.len() + self.back.len()
    }

    fn byte(&self, at: usize) -> u8 {
        if at < self.front.len() {
            self.front[at]
        } else {
            self.back[at - self.front.len()]
        }
    }
}

/// The first place at which a cut gives the frame another value.
fn first_other_cut(program: &Program) -> Option<usize> {
    for at in 0..59usize {
        let pieces = Pieces {
            front: &FIRST[..at],
            back: &FIRST[at..],
        };
        if program.value(&pieces) != 0x0a000001 {
            return Some(at);
        }
    }
    None
}

/// A frame that is cut anywhere has the value that it has whole.
#[test]
fn a_cut_changes_no_value(rt: HostRuntime) {
    let program = Program::of_text(rt.alloc(), "2,32 0 0 26,22 0 0 0").expect(&rt, "a program");
    assert_same(&rt, &first_other_cut(&program), &None);
}
