//! The words of a peripheral processor and of central memory: ranges, ones' complement arithmetic,
//! shifts and logic, addresses, operation codes, parts of a central word, and numbers in digits.
#![tactic(auto)]

mod address;
mod bits;
mod central_word;
mod digits;
mod ones_complement;
mod opcode;
mod operands;
mod word12;
mod word18;
mod word6;
mod word60;

pub use address::{PLACES, index_address, next, relative};
pub use bits::{and18, clear18, complement18, shift18, xor18};
pub use central_word::{MOST_CENTRAL_WORDS, join60, split60};
pub use digits::{numeral, numeral_law};
pub use ones_complement::{add18, sub18};
pub use opcode::{Opcode, decode};
pub use operands::Operands;
pub use word6::Word6;
pub use word12::Word12;
pub use word18::Word18;
pub use word60::Word60;
