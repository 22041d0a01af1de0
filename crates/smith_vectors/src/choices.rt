//! What reads return.

use smith_input::{Unstructured, choose_offered};

// An input, among how many is chosen, the choice, and what is left of the input.
const CHOICES: &[(&[u8], usize, usize, &[u8])] = &[
    (b"\x01\x00", 257, 256, b""),
    (b"\x01", 257, 256, b""),
    (b"", 257, 0, b""),
    (b"\x05", 1, 0, b"\x05"),
];

#[test]
fn choices_among_so_many(rt: HostRuntime) {
    for (input, many, choice, left) in CHOICES {
        let mut u = Unstructured::new(input);
        assert!(rt; 0 < *many);
        assert_eq!(rt; u.choose_index(*many), *choice, "{many} of {input:?}");
        assert_eq!(rt; u.left(), *left, "{many} of {input:?}");
    }
}

#[test]
fn items_ranges_ratios_and_loops(rt: HostRuntime) {
    let mut u = Unstructured::new(b"\x04");
    assert_eq!(rt; *u.choose(&[10u8, 20, 30]), 20, "an item");
    let mut u = Unstructured::new(b"\x01\x01");
    let offers = [(false, 10u8), (true, 20), (true, 30)];
    assert_eq!(rt; choose_offered(&mut u, &offers), Some(30));
    assert_eq!(rt; choose_offered(&mut u, &[(false, 10u8)]), None);
    assert_eq!(rt; u.left(), b"\x01".as_slice(), "nothing is offered");
    let mut u = Unstructured::new(b"\xff\xff\xff\xff\xff\xff\xff\xfe\x2a");
    assert_eq!(rt;
        u.int_in_range(0, u64::MAX),
        u64::MAX - 1,
        "the widest range"
    );
    assert_eq!(rt; u.left(), b"\x2a".as_slice(), "the widest range");
    let mut u = Unstructured::new(b"\x62\x63");
    assert!(rt; u.ratio(99, 100), "a ratio is a range from one");
    assert!(rt; !u.ratio(99, 100), "a ratio is a range from one");
    let mut u = Unstructured::new(b"\x00\x01");
    // Between a minimum of 1 and a maximum of 2.
    assert!(rt; u.more(0, 1, 2));
    assert!(rt; !u.more(1, 1, 2));
    assert!(rt; u.more(1, 1, 2));
    assert!(rt; !u.more(2, 1, 2));
    assert!(rt; u.is_empty());
    assert_eq!(rt; u.arbitrary_u8(), 0);
    assert!(rt; !u.arbitrary_bool());
}
