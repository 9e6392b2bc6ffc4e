// The classes of bytes, by what a byte begins, as one constant table.
#![tactic(auto)]

ghost use Rattle.std.specs.Prelude.{◌≡◌};
ghost use Rattle.chars.specs.Classes.{class_of, number};
ghost use Rattle.chars.specs.Off.{IsOff};

// What a byte begins.
#[derive(Clone, Copy, Debug, PartialEq, Eq)]
pub enum Class {
    // Nothing: the byte is not permitted.
    NotPermitted,
    // A word: a letter, a digit or one of `# % . ' *`.
    Word,
    // `+`
    Plus,
    // `&`
    Ampersand,
    // A format effector.
    Effector,
    // `-`
    Dash,
    // `,`
    Comma,
    // `:`
    Colon,
    // `=`
    Equals,
    // `;`
    Semicolon,
    // `/`
    Slash,
    // A quotation mark.
    Mark,
    // Nothing: the byte stands only in strings and comments.
    Other,
}

// The classes of the bytes 0 to 127.
static CLASSES: [Class; 128] = [
    Class::NotPermitted, // byte 0
    Class::NotPermitted, // byte 1
    Class::NotPermitted, // byte 2
    Class::NotPermitted, // byte 3
    Class::NotPermitted, // byte 4
    Class::NotPermitted, // byte 5
    Class::NotPermitted, // byte 6
    Class::NotPermitted, // byte 7
    Class::NotPermitted, // byte 8
    Class::Effector, // byte 9
    Class::Effector, // byte 10
    Class::Effector, // byte 11
    Class::Effector, // byte 12
    Class::Effector, // byte 13
    Class::NotPermitted, // byte 14
    Class::NotPermitted, // byte 15
    Class::NotPermitted, // byte 16
    Class::NotPermitted, // byte 17
    Class::NotPermitted, // byte 18
    Class::NotPermitted, // byte 19
    Class::NotPermitted, // byte 20
    Class::NotPermitted, // byte 21
    Class::NotPermitted, // byte 22
    Class::NotPermitted, // byte 23
    Class::NotPermitted, // byte 24
    Class::NotPermitted, // byte 25
    Class::NotPermitted, // byte 26
    Class::NotPermitted, // byte 27
    Class::NotPermitted, // byte 28
    Class::NotPermitted, // byte 29
    Class::NotPermitted, // byte 30
    Class::NotPermitted, // byte 31
    Class::Effector, // space
    Class::Other, // !
    Class::Mark, // "
    Class::Word, // #
    Class::Other, // $
    Class::Word, // %
    Class::Ampersand, // &
    Class::Word, // '
    Class::Other, // (
    Class::Other, // )
    Class::Word, // *
    Class::Plus, // +
    Class::Comma, // ,
    Class::Dash, // -
    Class::Word, // .
    Class::Slash, // /
    Class::Word, // 0
    Class::Word, // 1
    Class::Word, // 2
    Class::Word, // 3
    Class::Word, // 4
    Class::Word, // 5
    Class::Word, // 6
    Class::Word, // 7
    Class::Word, // 8
    Class::Word, // 9
    Class::Colon, // :
    Class::Semicolon, // ;
    Class::Other, // <
    Class::Equals, // =
    Class::Other, // >
    Class::Other, // ?
    Class::Other, // @
    Class::Word, // A
    Class::Word, // B
    Class::Word, // C
    Class::Word, // D
    Class::Word, // E
    Class::Word, // F
    Class::Word, // G
    Class::Word, // H
    Class::Word, // I
    Class::Word, // J
    Class::Word, // K
    Class::Word, // L
    Class::Word, // M
    Class::Word, // N
    Class::Word, // O
    Class::Word, // P
    Class::Word, // Q
    Class::Word, // R
    Class::Word, // S
    Class::Word, // T
    Class::Word, // U
    Class::Word, // V
    Class::Word, // W
    Class::Word, // X
    Class::Word, // Y
    Class::Word, // Z
    Class::Other, // [
    Class::Other, // \
    Class::Other, // ]
    Class::Other, // ^
    Class::Other, // _
    Class::Other, // `
    Class::Word, // a
    Class::Word, // b
    Class::Word, // c
    Class::Word, // d
    Class::Word, // e
    Class::Word, // f
    Class::Word, // g
    Class::Word, // h
    Class::Word, // i
    Class::Word, // j
    Class::Word, // k
    Class::Word, // l
    Class::Word, // m
    Class::Word, // n
    Class::Word, // o
    Class::Word, // p
    Class::Word, // q
    Class::Word, // r
    Class::Word, // s
    Class::Word, // t
    Class::Word, // u
    Class::Word, // v
    Class::Word, // w
    Class::Word, // x
    Class::Word, // y
    Class::Word, // z
    Class::Other, // {
    Class::Other, // |
    Class::Other, // }
    Class::Other, // ~
    Class::NotPermitted, // byte 127
];

impl Class {
    // The class of a byte.
    pub fn of(b: u8) -> Self
        ensures { number result ≡ class_of b }
    {
        if b < 128 {
            CLASSES[b as usize]
        } else {
            Class::NotPermitted
        }
    }
}

// 3: where the first byte of the text stands that is not permitted.
pub fn first_off(text: &[u8]) -> Option<usize>
    ensures { IsOff text.now result }
{
    text.iter()
        .position(|b| Class::of(*b) == Class::NotPermitted)
}
