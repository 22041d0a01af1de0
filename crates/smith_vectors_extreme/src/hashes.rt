//! Function types that a hasher with a known seed distinguishes badly.

use smith_component::{Component, Config, Unstructured};
use std::alloc::AllocError;
use std::test::Fail;

// Parameters come in pairs: a name and the rank of its type, and then the name of a parameter of type bool that is the
// state of `FoldHasher` before it, so that it becomes zero. So function types that begin with the first pair have the
// same hash, whatever the order of the pairs after it.
type Pair = (&'static [u8; 8], u8, &'static [u8; 8]);

const FIRST: Pair = (b"amsxaaaa", 3, b"adir8z3q");

const PAIRS: [Pair; 8] = [
    (b"tgtoaaaa", 12, b"nl5q1qoq"),
    (b"brlxaaaa", 7, b"c8iwozps"),
    (b"fcfqcaaa", 1, b"u1g5kzjw"),
    (b"qwsbdaaa", 5, b"htxg5m3c"),
    (b"upbddaaa", 1, b"y97difyi"),
    (b"yjggeaaa", 12, b"l8y3ut8j"),
    (b"xsnlfaaa", 0, b"bkd-mybf"),
    (b"sjgyhaaa", 12, b"lqw22n3p"),
];

// The choices of a name of eight characters, and of the primitive type after it.
fn push_parameter(input: &mut Vec<u8>, name: &[u8; 8], ty: u8) -> Result<(), AllocError> {
    input.extend_from_slice(&[1, 8])?;
    for character in name {
        let choice = match *character {
            b'a'..=b'z' => *character - b'a',
            b'0'..=b'9' => *character - b'0' + 26,
            _ => 36,
        };
        input.push(choice)?;
    }
    input.push(ty)?;
    Ok(())
}

fn push_pair(input: &mut Vec<u8>, pair: &Pair) -> Result<(), AllocError> {
    push_parameter(input, pair.0, pair.1)?;
    push_parameter(input, pair.2, 0)
}

// The script of a function type of the first pair and seven of the eight others, in the order of that number.
fn push_function(input: &mut Vec<u8>, number: usize) -> Result<(), AllocError> {
    input.extend_from_slice(&[1, 1])?;
    push_pair(input, &FIRST)?;
    let mut pairs = PAIRS;
    let mut rest = number;
    for done in 0..7usize {
        let unused = 8 - done;
        let place = (done + rest % unused).min(7);
        rest /= unused;
        pairs.swap(done, place);
        push_pair(input, &pairs[done])?;
    }
    input.push(0)?;
    Ok(())
}

// 20,000 function types of 16 parameters, 3.6 MB of input. With the default hasher of a map this took time by the
// square of their number: 86 seconds for 100,000 shorter ones, 118 times as long as others.
#[test]
fn function_types_of_one_hash_are_told_apart_in_time(rt: HostRuntime) -> Result<(), Fail> {
    let config = Config {
        max_types: 20_000,
        ..Config::default()
    };
    let mut input = Vec::from_slice(rt.alloc(), b"\x03")?;
    for number in 0..20_000 {
        push_function(&mut input, number)?;
    }
    let mut u = Unstructured::new(&input);
    let component = Component::new(rt.alloc(), config, &mut u)?;
    assert!(rt; u.is_empty());
    let length = 8 + 1 + 4 + 3 + 20_000 * (2 + 16 * 10 + 2);
    assert_eq!(rt; component.measure()?, length);
    Ok(())
}
