// A number, byte by byte.

// What may stand next in a number.
#[derive(Clone, Copy)]
pub enum InNumber {
    Start,
    Minus, // behind a minus sign
    Zero, // behind a leading zero
    Whole, // behind a digit before the point
    Point, // behind the decimal point
    Fraction, // behind a digit after it
    Mark, // behind e or E
    Sign, // behind the exponent's sign
    Power, // behind a digit of the exponent
}
