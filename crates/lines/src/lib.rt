// Lines of numbers as text: read from bytes, and put into them.
#![tactic(auto)]

ghost use Rattle.std.specs.Prelude.{◌≡◌, ◌<◌, ◌≤◌, ◌+◌, ◌*◌, length, get_or, MatchOption};
ghost use Rattle.std.proofs.lemmas.List.Edits.{sets};
ghost use Rattle.lines.specs.Text.{is_digit, decimal};
ghost use Rattle.lines.specs.Reads.{NoNumber, ReadsNumber, NoLine, ReadsLine, PutsLine};
ghost use Rattle.lines.specs.Breaks.{break_behind};

// The digits at a place, read as a number, and the place behind them.
#[derive(Clone, Copy, Debug, PartialEq, Eq)]
pub struct Number {
    pub value: u32,
    pub next: usize,
}

// A line of up to four numbers, and where the next line stands.
#[derive(Clone, Copy, Debug, PartialEq, Eq)]
pub struct Line {
    pub numbers: [u32; 4],
    pub next: usize,
}

// Byte i, or 0 past the end: no digit and no break.
pub fn byte_at(text: &[u8], i: usize) -> u8
    ensures { result ≡ get_or text.now i 0 }
{
    text.get(i).copied().unwrap_or(0)
}

fn is_digit(b: u8) -> bool
    ensures { result ≡ is_digit b }
{
    b.is_ascii_digit()
}

// The number at a place where a 0 stands: 0 itself, and none where a digit follows.
fn read_zero(text: &[u8], at: usize) -> Option<Number>
    requires { get_or text.now at 0 ≡ 48 }
    ensures { MatchOption result (NoNumber text.now at) (λ n. ReadsNumber text.now at n.value n.next) }
{
    let next = at + 1;
    if is_digit(byte_at(text, next)) {
        return None;
    }
    Some(Number { value: 0, next })
}

// The number at a place: all digits that stand there. Reading ends where the number is too large, so that no more than eleven bytes are looked at.
pub fn read_number(text: &[u8], at: usize) -> Option<Number>
    ensures { MatchOption result (NoNumber text.now at) (λ n. ReadsNumber text.now at n.value n.next) }
{
    let mut b = byte_at(text, at);
    if b == 48 {
        return read_zero(text, at);
    }
    let mut v: usize = 0;
    let mut i = at;
    // No count of an index: what ends it is a byte that is no digit.
    while is_digit(b) {
        v = 10 * v + ((b - 48) as usize);
        if 4294967295 < v {
            return None;
        }
        i += 1;
        b = byte_at(text, i);
    }
    if i == at {
        return None;
    }
    Some(Number {
        value: v as u32,
        next: i,
    })
}

// What stands behind a number of a line that so many others follow: a space, or the newline behind the last.
pub fn break_behind(left: usize) -> u8
    ensures { result ≡ break_behind left }
{
    if left == 0 { 10 } else { 32 }
}

// The line of k numbers at a place.
pub fn read_line(text: &[u8], at: usize, k: usize) -> Option<Line>
    requires { (1 ≤ k) × (k ≤ 4) }
    ensures { MatchOption result (NoLine text.now at k) (λ l. ReadsLine text.now at k l.numbers l.next) }
{
    let mut numbers = [0u32; 4];
    let mut next = at;
    for i in 0..k {
        let n = read_number(text, next)?;
        if byte_at(text, n.next) != break_behind(k - (i + 1)) {
            return None;
        }
        numbers[i] = n.value;
        next = n.next + 1;
    }
    Some(Line { numbers, next })
}

// How many digits a number takes: the powers of ten up to it, and one.
fn places(n: u32) -> usize
    ensures { result ≡ length (decimal n) }
{
    let m = n as usize;
    let mut k: usize = 1;
    let mut power: usize = 10;
    // No count of an index: it follows the powers of ten.
    while power <= m {
        power *= 10;
        k += 1;
    }
    k
}

fn digit(d: u32) -> u8
    requires { d < 10 }
    ensures { result ≡ 48 + d }
{
    48 + (d as u8)
}

// Puts a number's digits at a place, the last one first, and answers the place behind them.
pub fn put_number(out: &mut [u8], at: usize, n: u32) -> usize
    requires { at + 10 ≤ length out.old }
    ensures { (out.new ≡ sets out.old at (decimal n)) × (result ≡ at + length (decimal n)) × (result ≤ at + 10) }
{
    let end = at + places(n);
    let mut rest = n;
    for i in (at..end).rev() {
        out[i] = digit(rest % 10);
        rest /= 10;
    }
    end
}

// Puts the line of the first k numbers at a place, and answers the place behind it.
pub fn put_line(out: &mut [u8], at: usize, numbers: [u32; 4], k: usize) -> usize
    requires { (1 ≤ k) × (k ≤ 4) × (at + 11 * k ≤ length out.old) }
    ensures { PutsLine out.old at k numbers result out.new }
{
    let mut place = at;
    for i in 0..k {
        place = put_number(out, place, numbers[i]);
        out[place] = break_behind(k - (i + 1));
        place += 1;
    }
    place
}
