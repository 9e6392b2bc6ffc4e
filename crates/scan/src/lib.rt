// A text into its tokens. The stretches of a text (a comment, a word, a string, a separator that begins with `&`), each with a promise of what the
// rules' automaton does over it; one token, by the class of its first byte (4, 5, and 15 for words and strings); and the whole text (2, 3,
// then what is refused first of its tokens and comments), as a table of tokens with their contents one behind the other.
#![tactic(auto)]

ghost use Rattle.std.specs.Prelude.{◌≡◌, ◌+◌, ◌<◌, ◌≤◌, length, get_or, [], ◌∷◌};
ghost use Rattle.scan.specs.Along.{Skipped, IsComment, IsWord, IsString, IsAmp, IsPassed, run_at, Begins};
ghost use Rattle.rules.specs.Characters.{byte};
ghost use Rattle.chars.specs.Classes.{number};
ghost use Rattle.rules.specs.Tokens.{idle, in_word, run, scan};
ghost use Rattle.token_table.specs.Table.{number as kind_number};
ghost use Rattle.scan.specs.Scanned.{IsScanned, IsSep};
ghost use Rattle.rules.specs.Refusals.{most_text};
ghost use Rattle.scan.specs.Filled.{IsFilled};

use chars::Class;
use rules::{MOST_PREFIXED, MOST_STRING, MOST_TEXT, MOST_WORD, Reason, Refusal};
use token_table::{Kind, Token};

// The byte at a place, and 0 behind the end.
pub fn byte(text: &[u8], at: usize) -> u8
    ensures { result ≡ get_or text.now at 0 }
{
    text.get(at).copied().unwrap_or(0)
}

// The first place from `from` on that holds no format effector.
pub fn skip(text: &[u8], from: usize) -> usize
    requires { from ≤ length text.now }
    ensures { Skipped text.now from result }
{
    for i in from..text.len() {
        if Class::of(text[i]) != Class::Effector {
            return i;
        }
    }
    text.len()
}

// The end of a comment, behind its closing bytes, if it has one; `from` is behind its opening bytes.
fn comment(text: &[u8], from: usize) -> Option<usize>
    ensures { IsComment text.now from result }
{
    for i in from..text.len() {
        if text[i] == b'*' && byte(text, i + 1) == b'/' {
            return Some(i + 2);
        }
    }
    None
}

// How many bytes the content of a word or a string has, and where the word or the string ends.
#[derive(Clone, Copy)]
struct Content {
    len: usize,
    end: usize,
}

// The rest of a word whose first byte is `first`, from `from` on: its bytes, format effectors not counted, into `out`.
fn word(text: &[u8], first: u8, from: usize, out: &mut [u8]) -> Content
    requires { (from ≤ length text.now) × (length text.now < length out.old + from) }
    ensures { IsWord text.now from first out.new result.len result.end }
{
    out[0] = first;
    let mut len: usize = 1;
    let mut i = from;
    // How far a turn goes is found in it, so a `for` over the places would be no plainer.
    while i < text.len() {
        let class = Class::of(text[i]);
        if class == Class::Word {
            out[len] = text[i];
            len += 1;
            i += 1;
        } else if class == Class::Effector {
            // the word goes on behind it
            i += 1;
        } else if class == Class::Plus {
            let j = skip(text, i + 1);
            if byte(text, j) == b'+' {
                return Content { len, end: i };
            }
            out[len] = b'+';
            len += 1;
            i = j;
        } else {
            return Content { len, end: i };
        }
    }
    Content { len, end: i }
}

// The content of a string, from behind its opening mark on, into `out`; or the string does not end.
fn string(text: &[u8], from: usize, out: &mut [u8]) -> Option<Content>
    requires { length text.now ≤ length out.old + from }
    ensures { IsString text.now from out.new result }
{
    let mut len: usize = 0;
    let mut i = from;
    // How far a turn goes is found in it, so a `for` over the places would be no plainer.
    while i < text.len() {
        let b = text[i];
        if b != b'"' {
            out[len] = b;
            len += 1;
            i += 1;
        } else if byte(text, i + 1) == b'"' {
            out[len] = b'"';
            len += 1;
            i += 2;
        } else {
            return Some(Content { len, end: i + 1 });
        }
    }
    None
}

// A separator that begins with `&`: its kind, and where it ends.
#[derive(Clone, Copy)]
struct AmpEnd {
    kind: Kind,
    end: usize,
}

// The separator that begins with the `&` before `from`, the longest that fits.
fn ampersand(text: &[u8], from: usize) -> AmpEnd
    requires { from ≤ length text.now }
    ensures { IsAmp text.now from (kind_number result.kind) result.end }
{
    let j = skip(text, from);
    match byte(text, j) {
        b'-' => AmpEnd {
            kind: Kind::AmpDash,
            end: j + 1,
        },
        b'&' => {
            let k = skip(text, j + 1);
            if byte(text, k) == b'-' {
                return AmpEnd {
                    kind: Kind::AmpAmpDash,
                    end: k + 1,
                };
            }
            AmpEnd {
                kind: Kind::AmpAmp,
                end: k,
            }
        }
        _ => AmpEnd {
            kind: Kind::Amp,
            end: j,
        },
    }
}

// The end of the comment that begins with the `/` at `place`.
fn comment_end(text: &[u8], place: usize) -> Result<usize, Refusal>
    requires { (length text.now ≤ most_text) × (get_or text.now place 0 ≡ byte "/") }
    ensures { IsPassed text.now place result }
{
    if byte(text, place + 1) != b'*' {
        return Err(Reason::NoToken.at(place as u32));
    }
    let Some(end) = comment(text, place + 2) else {
        return Err(Reason::Unclosed.at(place as u32));
    };
    Ok(end)
}

// A place in the text that no token is in the midst of.
#[derive(Clone, Copy)]
struct Cursor {
    at: usize,
}

// A token, the length of its content, and the cursor behind it.
#[derive(Clone, Copy)]
struct Scanned {
    kind: Kind,
    len: usize,
    next: Cursor,
}

// A word whose first byte stands at `place`, the others from `from` on.
fn word_token(text: &[u8], place: usize, from: usize, out: &mut [u8]) -> Result<Scanned, Reason>
    requires { (place < from) × (from ≤ length text.now) × (length text.now < length out.old + from) }
    ensures { IsScanned (run_at (in_word place (get_or text.now place 0 ∷ [])) text.now from) text.now place out.new result }
{
    let Content { len, end } = word(text, text[place], from, out);
    let scanned = Scanned {
        kind: Kind::Word,
        len,
        next: Cursor { at: end },
    };
    if len <= MOST_WORD {
        return Ok(scanned);
    }
    if len <= MOST_PREFIXED && out[1] == b'\'' {
        return Ok(scanned);
    }
    Err(Reason::TooMany)
}

// A separator up to `end`.
fn separator(kind: Kind, end: usize) -> Scanned
    ensures { result ≡ record { kind = kind; len = 0; next = record { at = end } } }
{
    Scanned {
        kind,
        len: 0,
        next: Cursor { at: end },
    }
}

// A word that begins with the `+` at `place`, or a `++`.
fn plus_token(text: &[u8], place: usize, out: &mut [u8]) -> Result<Scanned, Reason>
    requires { (get_or text.now place 0 ≡ byte "+") × (length text.now ≤ length out.old + place) }
    ensures { IsScanned (run_at idle text.now place) text.now place out.new result }
{
    let j = skip(text, place + 1);
    if byte(text, j) == b'+' {
        return Ok(separator(Kind::PlusPlus, j + 1));
    }
    word_token(text, place, j, out)
}

// A string whose opening mark stands at `place`.
fn string_token(text: &[u8], place: usize, out: &mut [u8]) -> Result<Scanned, Reason>
    requires { (get_or text.now place 0 ≡ byte "\"") × (length text.now ≤ length out.old + place) }
    ensures { IsScanned (run_at idle text.now place) text.now place out.new result }
{
    let Some(Content { len, end }) = string(text, place + 1, out) else {
        return Err(Reason::Unclosed);
    };
    if MOST_STRING < len {
        return Err(Reason::TooMany);
    }
    Ok(Scanned {
        kind: Kind::String,
        len,
        next: Cursor { at: end },
    })
}

// A separator that begins with the `&` at `place`.
fn amp_token(text: &[u8], place: usize) -> Scanned
    requires { get_or text.now place 0 ≡ byte "&" }
    ensures { IsSep (run_at idle text.now place) text.now place result }
{
    let AmpEnd { kind, end } = ampersand(text, place + 1);
    separator(kind, end)
}

impl Cursor {
    // The token that begins at the cursor with a byte of class `class`, neither a format effector nor a `/`, its content at the start of `out`.
    fn next(self, text: &[u8], class: Class, out: &mut [u8]) -> Result<Scanned, Reason>
        requires { Begins text.now self.at (number class) × (length text.now ≤ length out.old + self.at) }
        ensures { IsScanned (run_at idle text.now self.at) text.now self.at out.new result }
    {
        let place = self.at;
        match class {
            Class::Word => word_token(text, place, place + 1, out),
            Class::Dash => Ok(separator(Kind::Dash, place + 1)),
            Class::Comma => Ok(separator(Kind::Comma, place + 1)),
            Class::Colon => Ok(separator(Kind::Colon, place + 1)),
            Class::Equals => Ok(separator(Kind::Equals, place + 1)),
            Class::Semicolon => Ok(separator(Kind::Semicolon, place + 1)),
            Class::Mark => string_token(text, place, out),
            Class::Ampersand => Ok(amp_token(text, place)),
            Class::Plus => plus_token(text, place, out),
            _ => Err(Reason::NoToken),
        }
    }
}

// How many tokens the table holds, and how many bytes their contents take.
#[derive(Clone, Copy, Debug, PartialEq, Eq)]
pub struct Filled {
    pub tokens: usize,
    pub bytes: usize,
}

// 4, 5 and 15: the tokens of a text into the table and the contents. Where the text is refused both are left with parts of it.
fn fill(text: &[u8], toks: &mut [Token], contents: &mut [u8]) -> Result<Filled, Refusal>
    requires { (length text.now ≤ most_text) × (length text.now ≤ length toks.old) × (length text.now ≤ length contents.old) }
    ensures { IsFilled (run idle 0 text.now) toks.new contents.new result }
{
    let mut tokens: usize = 0;
    let mut bytes: usize = 0;
    let mut cursor = Cursor { at: 0 };
    // How far a turn goes is found in it, so a `for` over the places would be no plainer.
    while cursor.at < text.len() {
        let at = cursor.at;
        match Class::of(text[at]) {
            Class::Effector => cursor = Cursor { at: at + 1 },
            Class::Slash => {
                let end = comment_end(text, at)?;
                cursor = Cursor { at: end };
            }
            class => match cursor.next(text, class, &mut contents[bytes..]) {
                Ok(t) => {
                    toks[tokens] = Token::new(t.kind, at, bytes, t.len);
                    tokens += 1;
                    bytes += t.len;
                    cursor = t.next;
                }
                Err(reason) => return Err(reason.at(at as u32)),
            },
        }
    }
    Ok(Filled { tokens, bytes })
}

// 2, 3, then 4, 5 and 15: the tokens of a text into the table and the contents, each as long as the text at least.
pub fn tokens(text: &[u8], toks: &mut [Token], contents: &mut [u8]) -> Result<Filled, Refusal>
    requires { (length text.now ≤ length toks.old) × (length text.now ≤ length contents.old) }
    ensures { IsFilled (scan text.now) toks.new contents.new result }
{
    if MOST_TEXT < text.len() {
        return Err(Reason::TooLong.at(MOST_TEXT as u32));
    }
    if let Some(place) = chars::first_off(text) {
        return Err(Reason::NotPermitted.at(place as u32));
    }
    fill(text, toks, contents)
}
