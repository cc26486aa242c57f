// The binary fields of the box widths: a value of m bits is a polynomial over the field of two elements, bit i standing
// for x^i, modulo x^m plus a low part.
#![tactic(auto)]

pub mod field;
