// A posology's head as it is read (document 01, "Objects": Posology): of it and of the records' words the table is made.
use document::table::Date;
use document::terms::Used;

// A string of the head: its quote in the text, and its bytes in the buffer to come.
#[derive(Clone, Copy)]
pub struct Piece {
    pub quote: usize,
    pub start: usize,
    pub len: usize,
}

// A head as it is read.
#[derive(Clone, Copy)]
pub struct HeadRead {
    pub from: Date,
    pub to: Date,
    pub reserve: bool,
    pub meal: u8,
    pub unit: Piece,
    pub instructions: Piece,
    pub roa: Piece,
    pub moa: Piece,
    pub used: Used,
}
