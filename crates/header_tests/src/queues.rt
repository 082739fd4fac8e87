//! Receive side scaling: the values of its verification suite by both forms of the hash, what is hashed of a frame, and
//! the queues.
ghost use Rattle.std.specs.Prelude.{◌≤◌, length};
ghost use Rattle.frame_layout.specs.Choice.{IsChoice};

use crate::datagrams::DATAGRAM;
use crate::encapsulated::{KEYED, PLAIN};
use crate::layouts::TUNNEL;
use crate::seeing::assert_same;
use frame_layout::{
    Choice, HashKey, Key, even_table, hash_has_bits, hash_is_linear, key, queue_by, queue_of,
    rss_input, rss_is_of_layers, toeplitz,
};
use worked_captures::FIRST;

/// The key of the verification suite.
const KEY: [u8; 40] = [
    0x6d, 0x5a, 0x56, 0xda, 0x25, 0x5b, 0x0e, 0xc2, 0x41, 0x67, 0x25, 0x3d, 0x43, 0xa3, 0x8f, 0xb0,
    0xd0, 0xca, 0x2b, 0xcb, 0xae, 0x7b, 0x30, 0xb4, 0x77, 0xcb, 0x2d, 0xa3, 0x80, 0x30, 0xf2, 0x0c,
    0x6a, 0x42, 0xb7, 0x3b, 0xbe, 0xac, 0x01, 0xfa,
];

/// Addresses and ports; the hash of the addresses, and of all.
static OVER_IP4: [([u8; 12], u32, u32); 5] = [
    // 66.9.149.187 port 2794 to 161.142.100.80 port 1766
    (
        [
            0x42, 0x09, 0x95, 0xbb, 0xa1, 0x8e, 0x64, 0x50, 0x0a, 0xea, 0x06, 0xe6,
        ],
        0x323e8fc2,
        0x51ccc178,
    ),
    // 199.92.111.2 port 14230 to 65.69.140.83 port 4739
    (
        [
            0xc7, 0x5c, 0x6f, 0x02, 0x41, 0x45, 0x8c, 0x53, 0x37, 0x96, 0x12, 0x83,
        ],
        0xd718262a,
        0xc626b0ea,
    ),
    // 24.19.198.95 port 12898 to 12.22.207.184 port 38024
    (
        [
            0x18, 0x13, 0xc6, 0x5f, 0x0c, 0x16, 0xcf, 0xb8, 0x32, 0x62, 0x94, 0x88,
        ],
        0xd2d0a5de,
        0x5c2b394a,
    ),
    // 38.27.205.30 port 48228 to 209.142.163.6 port 2217
    (
        [
            0x26, 0x1b, 0xcd, 0x1e, 0xd1, 0x8e, 0xa3, 0x06, 0xbc, 0x64, 0x08, 0xa9,
        ],
        0x82989176,
        0xafc7327f,
    ),
    // 153.39.163.191 port 44251 to 202.188.127.2 port 1303
    (
        [
            0x99, 0x27, 0xa3, 0xbf, 0xca, 0xbc, 0x7f, 0x02, 0xac, 0xdb, 0x05, 0x17,
        ],
        0x5d1809c5,
        0x10e828a2,
    ),
];

static OVER_IP6: [([u8; 36], u32, u32); 3] = [
    // 3ffe:2501:200:1fff::7 port 2794 to 3ffe:2501:200:3::1 port 1766
    (
        [
            0x3f, 0xfe, 0x25, 0x01, 0x02, 0x00, 0x1f, 0xff, 0x00, 0x00, 0x00, 0x00, 0x00, 0x00,
            0x00, 0x07, 0x3f, 0xfe, 0x25, 0x01, 0x02, 0x00, 0x00, 0x03, 0x00, 0x00, 0x00, 0x00,
            0x00, 0x00, 0x00, 0x01, 0x0a, 0xea, 0x06, 0xe6,
        ],
        0x2cc18cd5,
        0x40207d3d,
    ),
    // 3ffe:501:8::260:97ff:fe40:efab port 14230 to ff02::1 port 4739
    (
        [
            0x3f, 0xfe, 0x05, 0x01, 0x00, 0x08, 0x00, 0x00, 0x02, 0x60, 0x97, 0xff, 0xfe, 0x40,
            0xef, 0xab, 0xff, 0x02, 0x00, 0x00, 0x00, 0x00, 0x00, 0x00, 0x00, 0x00, 0x00, 0x00,
            0x00, 0x00, 0x00, 0x01, 0x37, 0x96, 0x12, 0x83,
        ],
        0x0f0c461c,
        0xdde51bbf,
    ),
    // 3ffe:1900:4545:3:200:f8ff:fe21:67cf port 44251 to fe80::200:f8ff:fe21:67cf port 38024
    (
        [
            0x3f, 0xfe, 0x19, 0x00, 0x45, 0x45, 0x00, 0x03, 0x02, 0x00, 0xf8, 0xff, 0xfe, 0x21,
            0x67, 0xcf, 0xfe, 0x80, 0x00, 0x00, 0x00, 0x00, 0x00, 0x00, 0x02, 0x00, 0xf8, 0xff,
            0xfe, 0x21, 0x67, 0xcf, 0xac, 0xdb, 0x94, 0x88,
        ],
        0x4b61e985,
        0x02d1feef,
    ),
];

/// Whether both forms give this hash.
fn has_hash(hash_key: &HashKey, input: &[u8], hash: u32) -> bool
    requires short { length input.now ≤ 36 }
{
    toeplitz(&KEY, input) == hash && hash_key.hash(input) == hash
}

/// The first row with another hash, by the hash of all, of addresses of so many bytes.
fn first_other<const N: usize>(
    hash_key: &HashKey,
    rows: &[([u8; N], u32, u32)],
    addresses: usize,
) -> Option<u32>
    requires short { (addresses ≤ N) × (N ≤ 36) }
{
    for (input, of_addresses, of_all) in rows {
        if !has_hash(hash_key, &input[..addresses], *of_addresses)
            || !has_hash(hash_key, input, *of_all)
        {
            return Some(*of_all);
        }
    }
    None
}

#[test]
fn hashes_of_the_verification_suite(rt: HostRuntime) {
    let hash_key = HashKey::of(&KEY);
    let others = [
        first_other(&hash_key, &OVER_IP4, 8),
        first_other(&hash_key, &OVER_IP6, 32),
    ];
    let mut one = [0u8; 12];
    one[0] = 1;
    let are_so = [
        has_hash(&hash_key, &[0; 12], 0),
        has_hash(&hash_key, &[], 0),
        has_hash(&hash_key, &one, 0xad2b6d12),
    ];
    assert_same(&rt, &(others, are_so), &([None; 2], [true; 3]));
    hash_has_bits();
    hash_is_linear();
    rss_is_of_layers();
}

/// Whether just this is hashed of a frame.
fn has_input(frame: &[u8], input: &[u8]) -> bool {
    let mut into = [0xff; 36];
    let len = rss_input(&key(frame), &mut into) as usize;
    &into[..len] == input
}

/// The ports are those of a header directly behind the outermost IP header.
#[test]
fn what_is_hashed(rt: HostRuntime) {
    let are_hashed = [
        has_input(&FIRST, &[10, 0, 0, 1, 10, 0, 0, 2, 0x9c, 0x40, 0x13, 0x89]),
        has_input(
            &DATAGRAM,
            &[10, 0, 0, 1, 10, 0, 0, 2, 0xc3, 0x50, 0x13, 0x89],
        ),
        has_input(&PLAIN, &[10, 0, 0, 1, 10, 0, 0, 2]),
        has_input(&KEYED, &[10, 0, 0, 1, 10, 0, 0, 2]),
        // Two tags, IPv6, and the UDP header of a tunnel.
        has_input(&TUNNEL, &TUNNEL[30..66]),
        has_input(&FIRST[..53], &[]),
    ];
    assert_same(&rt, &are_hashed, &[true; 6]);
}

/// The first frame, from and to the ends of the suite's first row.
fn of_the_suite() -> [u8; 58] {
    let mut frame = FIRST;
    frame[26..38].copy_from_slice(&OVER_IP4[0].0);
    frame
}

fn choice_of(queues: u32) -> Choice
    requires some { 1 ≤ queues }
    requires few { queues ≤ 64 }
    ensures choice { IsChoice queues result }
{
    Choice::Toeplitz {
        key: HashKey::of(&KEY),
        table: even_table(queues),
    }
}

/// 51ccc178 is 120 modulo 128, at which place of the table stands queue 0 of 4, and 1 of 7.
#[test]
fn queues_by_hash(rt: HostRuntime) {
    let flow = key(&of_the_suite());
    let queues = [
        queue_by(&flow, &choice_of(4), 4),
        queue_by(&flow, &choice_of(7), 7),
        queue_by(&flow, &Choice::Fold, 7),
        queue_by(&Key::other(), &choice_of(7), 7),
    ];
    let table = even_table(3);
    assert_same(
        &rt,
        &(queues, table.len(), table[0], table[127]),
        &([0, 1, queue_of(&flow, 7), 0], 128, 0, 1),
    );
}
