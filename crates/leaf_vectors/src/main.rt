// Runs the scan and the units over the paper's lines that concern them. What it writes is compared with the file stdout, which was made from the paper alone.
#![tactic(auto)]

ghost use Rattle.std.specs.Prelude.{◌≤◌, length};

use rules::Refusal;
use scan::Filled;
use token_table::{Kind, Token};
use units::{Fault, Word};

// The descriptor of standard output.
const STDOUT_FILENO: i32 = 1;
// Room for the tokens and the contents of every line below.
const ROOM: usize = 128;
// What a table holds before it is filled.
const NO_TOKEN: Token = Token {
    kind: Kind::AmpAmpDash,
    place: 0,
    start: 0,
    len: 0,
};

// Writes bytes to standard output.
fn say(bytes: &[u8]) {
    io::write_all(STDOUT_FILENO, bytes);
}

// Writes a number to standard output.
fn say_number(n: u64) {
    io::print_decimal(STDOUT_FILENO, n);
}

// A token: its kind, its place and its content, as ` 10@0=A`.
fn say_token(t: Token, contents: &[u8]) {
    say(b" ");
    say_number(t.kind as u64);
    say(b"@");
    say_number(u64::from(t.place));
    let content = t.content(contents);
    if !content.is_empty() {
        say(b"=");
        say(content);
    }
}

// The first n tokens of a table.
fn say_tokens(toks: &[Token], n: usize, contents: &[u8]) {
    for t in toks.iter().take(n) {
        say_token(*t, contents);
    }
}

// A refusal, as ` 5 at 0`.
fn say_refusal(refusal: Refusal) {
    say(b" ");
    say_number(u64::from(refusal.reason.number()));
    say(b" at ");
    say_number(u64::from(refusal.place));
}

// A text, and what the scan makes of it.
fn text(line: &[u8]) {
    say(line);
    say(b" ->");
    if line.len() <= ROOM {
        tokens_of(line);
    }
    say(b"\n");
}

// The tokens of a text that has room, or its refusal.
fn tokens_of(line: &[u8])
    requires { length line.now ≤ 128 }
{
    let mut toks = [NO_TOKEN; ROOM];
    let mut contents = [0u8; ROOM];
    match scan::tokens(line, &mut toks, &mut contents) {
        Ok(Filled { tokens, .. }) => say_tokens(&toks, tokens, &contents),
        Err(refusal) => say_refusal(refusal),
    }
}

// A numeral: its base's letter, its fraction digits and its value.
fn say_numeral(letter: u8, fraction: u8, value: u32) {
    say(&[b' ', letter, b' ']);
    say_number(fraction as u64);
    say(b" ");
    say_number(value as u64);
}

// A word without its first bytes.
fn say_rest(spelling: &[u8], skip: usize) {
    if skip <= spelling.len() {
        say(&spelling[skip..]);
    }
}

// A word under a base, and the unit that it is, or 12 or 13.
fn word(spelling: &[u8], base: u8) {
    say(spelling);
    say(b" under ");
    say(&[base]);
    say(b" ->");
    match units::read_word(spelling, base) {
        Ok(
            Word::Numeral {
                letter,
                fraction,
                value,
            },
        ) => say_numeral(letter, fraction, value),
        Ok(Word::Keyed { skip }) => {
            say(b" keyed ");
            say_rest(spelling, skip);
        }
        Ok(Word::Identifier) => {
            say(b" identifier ");
            say(spelling);
        }
        Ok(Word::Symbolic) => {
            say(b" symbolic ");
            say(spelling);
        }
        Err(Fault::Unreadable) => say(b" 12"),
        Err(Fault::TooBig) => say(b" 13"),
    }
    say(b"\n");
}

// Lines of the paper and of its readings that the scan decides, part 1.
fn texts_1() {
    text(b"A;");
    text(b"A:5&&9++2&10;");
    text(b"U/*x*/P;");
    text(b"U P;");
    text(b"+ +");
    text(b"+/**/+");
    text(b"/ *x*/A;");
    text(b"/*x* /A;");
    text(b"A:\"a\" \"b\";");
    text(b"/*/A;");
    text(b"/***/A;");
    text(b"A*/B;");
    text(b"A:1*/*c*/;");
    text(b"A$B;");
    text(b"A:(1);");
    text(b"A:5&&9+++2;");
}

// Lines of the paper and of its readings that the scan decides, part 2.
fn texts_2() {
    text(b"A:5&&9++++2;");
    text(b"A:X+ +Y;");
    text(b"A:+;");
    text(b"A:5&&&9;");
    text(b"A:7-1& & - 3;");
    text(b"A:7-1&/**/-3;");
    text(b"A;$");
    text(b";A;");
    text(b"A/B;");
    text(b"A:\"open;");
    text(b"A:\"it\"\"s\",\"\";");
    text(b"/* open");
    text(b"A:D '00;");
    text(b"A:5 & & 9;");
    text(b"A:1&-2&&-3;");
}

// Words under a base, part 1.
fn words_1() {
    word(b"3.50", b'D');
    word(b"007", b'D');
    word(b"4294967295", b'D');
    word(b"4294967296", b'D');
    word(b"42949672.96", b'D');
    word(b"429496729.5", b'D');
    word(b"0.123456789", b'D');
    word(b"0.1234567890", b'D');
    word(b"1.", b'D');
    word(b".5", b'D');
    word(b"1.2.3", b'D');
    word(b"CAFE", b'D');
    word(b"CAFE", b'H');
    word(b"FFFFFFFFF", b'H');
    word(b"D'19.5", b'H');
    word(b"1.5", b'H');
    word(b"9", b'O');
}

// Words under a base, part 2.
fn words_2() {
    word(b"9%", b'O');
    word(b"12", b'B');
    word(b"101", b'B');
    word(b"D'1", b'K');
    word(b"K'12#", b'K');
    word(b"*9A", b'K');
    word(b"E", b'K');
    word(b"007", b'K');
    word(b"A+B", b'D');
    word(b"+", b'D');
    word(b"9A", b'D');
    word(b"A'B", b'D');
    word(b"Z'1", b'D');
    word(b"H'CAFE", b'D');
    word(b"B'101", b'O');
    word(b"D'5", b'D');
    word(b"1A", b'H');
}

// Words under a base whose letters are small.
fn words_3() {
    word(b"cafe", b'H');
    word(b"cafe", b'D');
    word(b"cafg", b'H');
    word(b"fffffffff", b'H');
    word(b"h'fF", b'D');
    word(b"h'g", b'D');
    word(b"d'19.5", b'H');
    word(b"d'1", b'K');
    word(b"abe", b'K');
    word(b"1a", b'D');
}

fn main() {
    texts_1();
    texts_2();
    words_1();
    words_2();
    words_3();
}
