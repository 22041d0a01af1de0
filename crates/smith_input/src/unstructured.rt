//! The reader.

ghost use Rattle.std.specs.Prelude.{◌≡◌, ℕ, ◌+◌, ◌-◌, ◌/◌, ◌%◌, ◌<◌, ◌≤◌, ◌↔◌, IsTrue, [], length, Some, slice_get};
ghost use Rattle.std.specs.Prelude.{slice_index, drop};
ghost use Rattle.smith_input.specs.Reading.{IsWidth, Reads, Flips, GoesOn, More, one_ends_in, spelled};

use std::marker::Model;

/// A reader of bytes from the front. Contracts see the remaining bytes. A byte past the end counts as zero, and nothing
/// is taken for it. No call fails or allocates.
#[derive(Drop)]
pub struct Unstructured<'a> {
    bytes: &'a [u8],
}

impl<'a> Model for Unstructured<'a> {
    ghost use Rattle.std.specs.Prelude.{List, ℕ};

    ghost Value = { List ℕ };

    ghost view = { λ u. u.bytes.now };
}

// For each number from 1 to 256 the quotient of 65,536 by it, and one: a byte times that, by 65,536, is the quotient of
// the byte by the number. No processor multiplies as slowly as it divides.
static RECIPROCALS: [u32; 256] = [
    65537, 32769, 21846, 16385, 13108, 10923, 9363, 8193, 7282, 6554, 5958, 5462, 5042, 4682, 4370,
    4097, 3856, 3641, 3450, 3277, 3121, 2979, 2850, 2731, 2622, 2521, 2428, 2341, 2260, 2185, 2115,
    2049, 1986, 1928, 1873, 1821, 1772, 1725, 1681, 1639, 1599, 1561, 1525, 1490, 1457, 1425, 1395,
    1366, 1338, 1311, 1286, 1261, 1237, 1214, 1192, 1171, 1150, 1130, 1111, 1093, 1075, 1058, 1041,
    1025, 1009, 993, 979, 964, 950, 937, 924, 911, 898, 886, 874, 863, 852, 841, 830, 820, 810,
    800, 790, 781, 772, 763, 754, 745, 737, 729, 721, 713, 705, 698, 690, 683, 676, 669, 662, 656,
    649, 643, 637, 631, 625, 619, 613, 607, 602, 596, 591, 586, 580, 575, 570, 565, 561, 556, 551,
    547, 542, 538, 533, 529, 525, 521, 517, 513, 509, 505, 501, 497, 493, 490, 486, 482, 479, 475,
    472, 469, 465, 462, 459, 456, 452, 449, 446, 443, 440, 437, 435, 432, 429, 426, 423, 421, 418,
    415, 413, 410, 408, 405, 403, 400, 398, 395, 393, 391, 388, 386, 384, 382, 379, 377, 375, 373,
    371, 369, 367, 365, 363, 361, 359, 357, 355, 353, 351, 349, 347, 345, 344, 342, 340, 338, 337,
    335, 333, 331, 330, 328, 327, 325, 323, 322, 320, 319, 317, 316, 314, 313, 311, 310, 308, 307,
    305, 304, 303, 301, 300, 298, 297, 296, 294, 293, 292, 290, 289, 288, 287, 285, 284, 283, 282,
    281, 279, 278, 277, 276, 275, 274, 272, 271, 270, 269, 268, 267, 266, 265, 264, 263, 262, 261,
    260, 259, 258, 257,
];

// The quotient of 65,536 by `last + 1`, and one.
fn reciprocal_of(last: u8) -> u32
    ensures { result ≡ 65536 / (last + 1) + 1 }
{
    RECIPROCALS[usize::from(last)]
}

// The remainder of a byte by `last + 1`.
fn remainder(byte: u8, last: u8) -> u32
    requires { 0 < last }
    ensures { result ≡ byte % (last + 1) }
{
    let dividend = u32::from(byte);
    let quotient = dividend * reciprocal_of(last) / 65536;
    dividend - quotient * (u32::from(last) + 1)
}

// Is one of the lowest bits of a byte 1, of so many of them and at least one?
fn has_low_bit(byte: u8, bits: usize) -> bool
    ensures { IsTrue result ↔ (0 < byte % one_ends_in bits) }
{
    let lowest = bits.max(1).min(8);
    let mask: u32 = (1 << lowest) - 1;
    u32::from(byte) & mask != 0
}

// How many bytes distinguish `last + 1` things.
fn width_of(last: u64) -> u32
    ensures width { IsWidth (last + 1) result }
    ensures small { result ≤ 8 }
{
    let mut reach: u128 = 1;
    for width in 0..8 {
        if u128::from(last) < reach {
            return width;
        }
        reach *= 256;
    }
    8
}

impl<'a> Unstructured<'a> {
    /// A reader of all these bytes.
    pub fn new(bytes: &'a [u8]) -> Unstructured<'a>
        ensures { result ≡ bytes.now }
    {
        Unstructured { bytes }
    }

    /// The remaining bytes, borrowed for the life of the slice.
    pub fn left(&self) -> &'a [u8]
        ensures { result.now ≡ self.now }
    {
        self.bytes
    }

    /// Whether no byte is left.
    pub fn is_empty(&self) -> bool
        ensures { IsTrue result ↔ (self.now ≡ []) }
    {
        self.bytes.is_empty()
    }

    /// A byte: the next one, or zero past the end.
    pub fn arbitrary_u8(&mut self) -> u8
        ensures value { result ≡ slice_index self.old 0 }
        ensures left { self.new ≡ drop 1 self.old }
    {
        let Some((first, rest)) = self.bytes.split_first() else {
            return 0;
        };
        self.bytes = rest;
        *first
    }

    // Skips the next bytes.
    pub(crate) fn skip(&mut self, count: usize)
        requires { count ≤ length self.old }
        ensures { self.new ≡ drop count self.old }
    {
        self.bytes = &self.bytes[count..];
    }

    // The number that the next bytes spell.
    fn number(&mut self, width: u32) -> u64
        requires { width ≤ 8 }
        ensures value { result ≡ spelled width self.old }
        ensures left { self.new ≡ drop width self.old }
    {
        let mut number: u64 = 0;
        for done in 0..width {
            let byte = self.arbitrary_u8();
            number = number * 256 + u64::from(byte);
        }
        number
    }

    // A choice among `last + 1`, which may exceed 64 bits. It is not inlined, so that the others stay small.
    #[cold]
    #[inline(never)]
    #[tactic(auto, using(crate::proofs::Widths::reads_rest))]
    fn pick_wide(&mut self, last: u64) -> u64
        ensures { Reads (last + 1) self.old result self.new }
    {
        let width = width_of(last);
        let number = self.number(width);
        if last == u64::MAX {
            number
        } else {
            number % (last + 1)
        }
    }

    // A choice among `last + 1`: one byte or none for most, which takes no loop and no division.
    #[tactic(auto, using(crate::proofs::Widths::one_byte_chosen))]
    fn pick(&mut self, last: u64) -> u64
        ensures { Reads (last + 1) self.old result self.new }
    {
        if last == 0 {
            return 0;
        }
        if last > 255 {
            return self.pick_wide(last);
        }
        u64::from(remainder(self.arbitrary_u8(), last as u8))
    }

    /// A choice among `n`, from 0 to `n - 1`: the fewest bytes that tell `n` things apart are read, the most
    /// significant first, and their number is taken modulo `n`. No byte is read if `n` is 1.
    pub fn choose_index(&mut self, n: usize) -> usize
        requires { 0 < n }
        ensures { Reads n self.old result self.new }
    {
        self.pick(n as u64 - 1) as usize
    }

    /// One of the items, by a choice among their places.
    pub fn choose<'b, T>(&mut self, items: &'b [T]) -> &'b T
        requires { 0 < length items.now }
        ensures { (k : ℕ) × Reads (length items.now) self.old k self.new × (slice_get items.now k ≡ Some result.now) }
    {
        let place = self.choose_index(items.len());
        &items[place]
    }

    /// A number from `a` to `b`: `a` and a choice among `b - a + 1`.
    pub fn int_in_range(&mut self, a: u64, b: u64) -> u64
        requires { a ≤ b }
        ensures { (k : ℕ) × (result ≡ a + k) × Reads (b - a + 1) self.old k self.new }
    {
        a + self.pick(b - a)
    }

    /// True for `p` of `q` choices: whether a number from 1 to `q` is at most `p`.
    pub fn ratio(&mut self, p: u32, q: u32) -> bool
        requires { 1 ≤ q }
        ensures { (k : ℕ) × Reads q self.old k self.new × (IsTrue result ↔ (1 + k ≤ p)) }
    {
        self.int_in_range(1, u64::from(q)) <= u64::from(p)
    }

    /// A boolean: the lowest bit of one byte.
    pub fn arbitrary_bool(&mut self) -> bool
        ensures { Flips self.old result self.new }
    {
        self.arbitrary_u8() % 2 == 1
    }

    // Whether a loop goes on: whether one of the lowest bits of one byte is 1, of so many of them and at least one.
    fn goes_on(&mut self, bits: usize) -> bool
        ensures { GoesOn bits self.old result self.new }
    {
        let byte = self.arbitrary_u8();
        if bits == 1 {
            return byte % 2 == 1;
        }
        has_low_bit(byte, bits)
    }

    /// Whether a loop that has made `done` turns makes another, by the lowest bit of a byte: `more_of` with one bit.
    pub fn more(&mut self, done: usize, min: usize, max: usize) -> bool
        requires { min ≤ max }
        ensures { More 1 done min max self.old result self.new }
    {
        self.more_of(1, done, min, max)
    }

    /// Whether a loop that has made `done` turns makes another: never from `max` on and always below `min`, in both
    /// cases without a read. Otherwise one byte is read, and the loop ends if its lowest bits are all 0, so many of
    /// them as `bits` says. No bits count as one.
    pub fn more_of(&mut self, bits: usize, done: usize, min: usize, max: usize) -> bool
        requires { min ≤ max }
        ensures { More bits done min max self.old result self.new }
    {
        if done >= max {
            return false;
        }
        if done < min {
            return true;
        }
        self.goes_on(bits)
    }
}
