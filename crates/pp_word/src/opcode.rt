ghost use Rattle.std.specs.Prelude.{◌≡◌, ◌/◌, ◌%◌, ◌^◌, ◌<◌};
ghost use Rattle.pp_word.specs.Opcode.{code_of, is_long, opcode_at, row_of};

use crate::{Operands, Word6, Word12};

/// An operation code, named by the manual's mnemonic. Codes 24 and 25 do nothing, as PSN.
#[derive(Clone, Copy)]
#[rattlefmt::skip]
pub enum Opcode {
    PSN, LJM, RJM, UJN, ZJN, NJN, PJN, MJN,
    SHN, LMN, LPN, SCN, LDN, LCN, ADN, SBN,
    LDC, ADC, LPC, LMC, PSN24, PSN25, EXN, RPN,
    LDD, ADD, SBD, LMD, STD, RAD, AOD, SOD,
    LDI, ADI, SBI, LMI, STI, RAI, AOI, SOI,
    LDM, ADM, SBM, LMM, STM, RAM, AOM, SOM,
    CRD, CRM, CWD, CWM, AJM, IJM, FJM, EJM,
    IAN, IAM, OAN, OAM, ACN, DCN, FAN, FNC,
}

/// The mnemonic of an operation: its name, but that of PSN under the codes 24 and 25.
macro_rules! mnemonic {
    ($operation:ident: $($name:ident)*) => {
        match $operation {
            $(Opcode::$name => stringify!($name),)*
            Opcode::PSN24 | Opcode::PSN25 => "PSN",
        }
    };
}

/// The operation of a code, by the codes below 77.
macro_rules! operation {
    ($code:ident: $($number:literal $name:ident)*) => {
        match $code {
            $($number => Opcode::$name,)*
            _ => Opcode::FNC,
        }
    };
}

impl Opcode {
    /// The code, 00 to 77 (octal).
    pub fn code(self) -> u8
        ensures code { result ≡ code_of self }
        ensures small { result < 2 ^ 6 }
    {
        self as u8
    }

    /// The operands of its instructions.
    pub fn operands(self) -> Operands
        ensures { result ≡ (row_of self).operands }
    {
        match self.code() {
            0o01..=0o02 | 0o50..=0o57 => Operands::IndexedPlace,
            0o03..=0o07 => Operands::JumpPlace,
            0o20..=0o23 => Operands::Constant,
            0o61 | 0o63..=0o67 | 0o71 | 0o73 | 0o77 => Operands::PlaceAndNumber,
            _ => Operands::Number,
        }
    }

    /// Whether the instruction has a second word.
    pub fn is_long(self) -> bool
        ensures { result ≡ is_long self }
    {
        !matches!(self.operands(), Operands::JumpPlace | Operands::Number)
    }

    /// The manual's mnemonic, three letters.
    pub fn mnemonic(self) -> &'static str
        ensures { result.now ≡ (row_of self).mnemonic }
    {
        mnemonic!(self:
            PSN LJM RJM UJN ZJN NJN PJN MJN SHN LMN LPN SCN LDN LCN ADN SBN
            LDC ADC LPC LMC EXN RPN LDD ADD SBD LMD STD RAD AOD SOD
            LDI ADI SBI LMI STI RAI AOI SOI LDM ADM SBM LMM STM RAM AOM SOM
            CRD CRM CWD CWM AJM IJM FJM EJM IAN IAM OAN OAM ACN DCN FAN FNC
        )
    }
}

/// The operation in the upper six bits of an instruction word, and its d, the lower six.
pub fn decode(word: Word12) -> (Opcode, Word6)
    ensures code { code_of result.0 ≡ word / 2 ^ 6 }
    ensures operation { result.0 ≡ opcode_at (word / 2 ^ 6) }
    ensures lower_half { result.1 ≡ word % 2 ^ 6 }
{
    let bits = word.get();
    let d = Word6::truncated((bits & 0o77) as u8);
    (opcode_at((bits / 0o100 % 0o100) as u8), d)
}

/// The operation of a code.
fn opcode_at(code: u8) -> Opcode
    requires { code < 2 ^ 6 }
    ensures { code_of result ≡ code }
{
    operation!(code:
        0o00 PSN 0o01 LJM 0o02 RJM 0o03 UJN 0o04 ZJN 0o05 NJN 0o06 PJN 0o07 MJN
        0o10 SHN 0o11 LMN 0o12 LPN 0o13 SCN 0o14 LDN 0o15 LCN 0o16 ADN 0o17 SBN
        0o20 LDC 0o21 ADC 0o22 LPC 0o23 LMC 0o24 PSN24 0o25 PSN25 0o26 EXN 0o27 RPN
        0o30 LDD 0o31 ADD 0o32 SBD 0o33 LMD 0o34 STD 0o35 RAD 0o36 AOD 0o37 SOD
        0o40 LDI 0o41 ADI 0o42 SBI 0o43 LMI 0o44 STI 0o45 RAI 0o46 AOI 0o47 SOI
        0o50 LDM 0o51 ADM 0o52 SBM 0o53 LMM 0o54 STM 0o55 RAM 0o56 AOM 0o57 SOM
        0o60 CRD 0o61 CRM 0o62 CWD 0o63 CWM 0o64 AJM 0o65 IJM 0o66 FJM 0o67 EJM
        0o70 IAN 0o71 IAM 0o72 OAN 0o73 OAM 0o74 ACN 0o75 DCN 0o76 FAN
    )
}
