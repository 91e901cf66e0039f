// The inside of a string, byte by byte.

// What a byte is where a character or the closing quote may stand.
#[derive(Clone, Copy)]
pub enum Lead {
    Control,
    Ascii,
    Quote,
    Backslash,
    Stray,
    Two,
    E0,
    Three,
    Ed,
    F0,
    Four,
    F4,
}

// What a letter behind a backslash stands for.
#[derive(Clone, Copy)]
pub enum Letter {
    Means(u8),
    Unicode, // the digits behind it say
}

// What may stand next inside a string.
#[derive(Clone, Copy)]
pub enum InString {
    Plain, // a character or the closing quote
    Escape, // the letter behind a backslash
    Unit, // the first digit behind \u
    UnitD, // the digit behind \uD
    Digit3, // the last three digits
    Digit2,
    Digit1,
    High2, // the last two digits of a pair's first half
    High1,
    Slash, // the backslash of the second half
    LetterU, // its u
    SecondD, // its D
    SecondC, // its digit C to F
    Tail3, // the last three bytes of a UTF-8 sequence
    Tail2,
    Tail1,
    AfterE0,
    AfterEd,
    AfterF0,
    AfterF4,
}

#[derive(Clone, Copy)]
pub enum CharStep {
    Goes(InString),
    Closes,
    Refuses,
}
