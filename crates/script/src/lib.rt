// The commands of a script, and the reader of a line.
#![tactic(auto)]

ghost use Rattle.std.specs.Prelude.{◌≤◌, length};

use lines::Number;

// What a command does.
#[derive(Clone, Copy, Debug, PartialEq, Eq)]
pub enum Call {
    Open,
    Save,
    Delete,
    Ancestors,
    Steps,
    Parent,
    Descendants,
    Children,
    Join,
    Desk,
    Seat,
    Close,
    Round,
    Part,
    Word,
    Size,
    Place,
    Around,
    AroundSteps,
    Give,
    Batch,
}

// What a command is put to: one image, two images, the desk, or the store itself.
#[derive(Clone, Copy, Debug, PartialEq, Eq)]
pub enum Group {
    Image,
    Pair,
    Desk,
    Store,
}

// The numbers of a line; 0 behind the last one.
pub type Numbers = [u32; 18];

// A line that was read as a command: which, what it is put to, and its numbers.
#[derive(Clone, Copy, Debug, PartialEq, Eq)]
pub struct Command {
    pub call: Call,
    pub group: Group,
    pub numbers: Numbers,
}

// Where the line ends that starts at a place: its newline, or the end of the text.
pub fn line_end(text: &[u8], at: usize) -> usize
    requires { at ≤ length text.now }
    ensures { (at ≤ result) × (result ≤ length text.now) }
{
    match text[at..].iter().position(|b| *b == b'\n') {
        Some(n) => at + n,
        None => text.len(),
    }
}

// How many bytes the name in front of a line has.
fn name_length(line: &[u8]) -> usize
    ensures { result ≤ length line.now }
{
    match line.iter().position(|b| *b == b' ') {
        Some(n) => n,
        None => line.len(),
    }
}

// What a number has to be below, by its letter: s a set, k a kind, c a choice, f a flag, g a word of the given buffer, r how many words of it or of the answer buffer are lent, a a word of an image,
// z an image's size, i a seat that is written directly, and n any number.
fn bound(letter: u8) -> usize {
    match letter {
        b's' | b'c' | b'f' => 2,
        b'k' => 3,
        b'g' => 4096,
        b'r' => 4097,
        b'a' => 12300,
        b'z' => 12301,
        b'i' => 8,
        _ => 4294967296,
    }
}

// The number behind the space at a place, below its letter's bound.
fn next_number(line: &[u8], place: usize, letter: u8) -> Option<Number> {
    match line.get(place) {
        Some(b' ') => {
            lines::read_number(line, place + 1).filter(|n| (n.value as usize) < bound(letter))
        }
        _ => None,
    }
}

// A command whose name has n bytes, its numbers read behind it: one for each letter, and nothing behind them.
fn read_command(line: &[u8], n: usize, call: Call, group: Group, letters: &[u8]) -> Option<Command>
    requires { length letters.now ≤ 18 }
{
    let mut numbers = [0u32; 18];
    let mut place = n;
    for i in 0..letters.len() {
        let number = next_number(line, place, letters[i])?;
        numbers[i] = number.value;
        place = number.next;
    }
    if place != line.len() {
        return None;
    }
    Some(Command {
        call,
        group,
        numbers,
    })
}

// The command on a line. The table has each one's name, what it is put to, and a letter for each of its numbers.
pub fn read(line: &[u8]) -> Option<Command> {
    let n = name_length(line);
    match &line[..n] {
        b"open" => read_command(line, n, Call::Open, Group::Image, b"snnnnnnnnnnnnnnnn"),
        b"save" => read_command(line, n, Call::Save, Group::Image, b"snnnnn"),
        b"delete" => read_command(line, n, Call::Delete, Group::Image, b"snn"),
        b"ancestors" => read_command(line, n, Call::Ancestors, Group::Image, b"snnr"),
        b"steps" => read_command(line, n, Call::Steps, Group::Image, b"snn"),
        b"parent" => read_command(line, n, Call::Parent, Group::Image, b"snnn"),
        b"descendants" => read_command(line, n, Call::Descendants, Group::Image, b"snnnnr"),
        b"children" => read_command(line, n, Call::Children, Group::Image, b"snnnnnr"),
        b"join" => read_command(line, n, Call::Join, Group::Pair, b"ssnkr"),
        b"desk" => read_command(line, n, Call::Desk, Group::Desk, b""),
        b"seat" => read_command(line, n, Call::Seat, Group::Desk, b"nnkn"),
        b"close" => read_command(line, n, Call::Close, Group::Desk, b"n"),
        b"round" => read_command(line, n, Call::Round, Group::Pair, b"ss"),
        b"part" => read_command(line, n, Call::Part, Group::Desk, b"nn"),
        b"word" => read_command(line, n, Call::Word, Group::Store, b"san"),
        b"size" => read_command(line, n, Call::Size, Group::Store, b"sz"),
        b"place" => read_command(line, n, Call::Place, Group::Desk, b"ifnknfnn"),
        b"around" => read_command(line, n, Call::Around, Group::Image, b"snncr"),
        b"aroundsteps" => read_command(line, n, Call::AroundSteps, Group::Image, b"snnc"),
        b"give" => read_command(line, n, Call::Give, Group::Store, b"gn"),
        b"batch" => read_command(line, n, Call::Batch, Group::Image, b"srr"),
        _ => None,
    }
}
