// Runs the audit on an image and on many changed ones, as standard input has them, and writes a digit for each: 1 for valid, 0 for not.
// The input is words of four bytes, low byte first: an image of 12,288; the number of cases; for each case the number of its changes, at most 8, and then each
// change, a place and a word. A case's changes are made, the image is audited, and the words that were there are put back.
#![tactic(auto)]

use std::io;
use std::io::Read;

#[derive(Clone, Copy, Debug, PartialEq, Eq)]
pub struct Changes {
    pub places: [u32; 8],
    pub words: [u32; 8],
}

// A case's changes; the places that are not used lie past every image.
fn read_changes(input: &mut impl Read) -> io::Result<Changes> {
    let used = console::next_word(input)?.min(8) as usize;
    let mut places = [4294967295u32; 8];
    let mut words = [0u32; 8];
    for i in 0..used {
        places[i] = console::next_word(input)?;
        words[i] = console::next_word(input)?;
    }
    Ok(Changes { places, words })
}

// Puts a word at a place, and answers the word that was there; past the end nothing happens.
fn swap(img: &mut [u32], place: usize, word: u32) -> u32 {
    if place < img.len() {
        let was = img[place];
        img[place] = word;
        was
    } else {
        word
    }
}

// Changes the words, and answers the same changes with the words that were there: so a second call undoes the first.
fn change(img: &mut [u32], c: Changes) -> Changes {
    let mut words = c.words;
    for i in 0..8 {
        words[i] = swap(img, c.places[i] as usize, words[i]);
    }
    Changes { words, ..c }
}

fn tell(rt: &impl Print, img: &[u32]) -> io::Result<()> {
    if audit::is_valid(img) {
        console::text(rt, b"1")
    } else {
        console::text(rt, b"0")
    }
}

fn case(rt: &impl Print, input: &mut impl Read, img: &mut [u32]) -> io::Result<()> {
    let c = read_changes(input)?;
    let was = change(img, c);
    tell(rt, img)?;
    change(img, was);
    Ok(())
}

fn main(rt: HostRuntime) -> io::Result<()> {
    let mut input = rt.reader();
    let mut img = [0u32; pages::IMAGE_WORDS];
    console::next_words(&mut input, &mut img)?;
    tell(&rt, &img)?;
    let cases = console::next_word(&mut input)?;
    for _ in 0..cases {
        case(&rt, &mut input, &mut img)?;
    }
    console::text(&rt, b"\n")
}
