//! The table of the instructions: the number, the name and the shape of each.
ghost use Rattle.std.specs.Prelude.{◌≡◌};
ghost use Rattle.std.specs.Prelude.{◌≤◌};
ghost use Rattle.rite_code.specs.Shape as shapes;
ghost use Rattle.rite_code.specs.Table as table;

/// The operands after a number. `B` is a byte (two bytes where wide), `S` a signed number of two bytes (four
/// where wide), `I` a byte (two bytes) that is signed, `SS` a signed number of four bytes, `W` the three bytes
/// of ENTER.
#[derive(Clone, Copy, Debug, PartialEq, Eq)]
pub enum Shape {
    Z,
    B,
    BB,
    BBB,
    BBI,
    S,
    BS,
    BSS,
    W,
}

/// How many bytes an index takes.
#[inline(always)]
pub fn index_size(wide: bool) -> usize
    ensures { result ≡ shapes.index_size wide }
{
    if wide { 2 } else { 1 }
}

/// How many bytes a distance takes.
#[inline(always)]
pub fn distance_size(wide: bool) -> usize
    ensures { result ≡ shapes.distance_size wide }
{
    if wide { 4 } else { 2 }
}

impl Shape {
    /// How many bytes the operands take: from 0 to 8.
    #[inline(always)]
    pub fn operand_size(self, wide: bool) -> usize
        ensures value { result ≡ shapes.operand_size wide self }
        ensures small { result ≤ 8 }
    {
        match self {
            Shape::Z => 0,
            Shape::B => index_size(wide),
            Shape::BB => 2 * index_size(wide),
            Shape::BBB | Shape::BBI => 3 * index_size(wide),
            Shape::S => distance_size(wide),
            Shape::BS => index_size(wide) + distance_size(wide),
            Shape::BSS => index_size(wide) + 4,
            Shape::W => 3,
        }
    }

    /// Whether an operand grows with EXT.
    #[inline(always)]
    pub fn grows(self) -> bool
        ensures { result ≡ shapes.grows self }
    {
        !matches!(self, Shape::Z | Shape::W)
    }
}

/// An instruction without its operands, in the order of the numbers.
#[derive(Clone, Copy, Debug, PartialEq, Eq)]
pub enum Opcode {
    Nop,
    Move,
    LoadL,
    LoadI,
    LoadI16,
    LoadI32,
    LoadSym,
    LoadNil,
    LoadSelf,
    LoadT,
    LoadF,
    GetGv,
    SetGv,
    GetIv,
    SetIv,
    GetConst,
    SetConst,
    GetMCnst,
    SetMCnst,
    GetUpVar,
    SetUpVar,
    Jmp,
    JmpIf,
    JmpNot,
    JmpUw,
    Except,
    Rescue,
    RaiseIf,
    SSend,
    SSendB,
    Send,
    SendB,
    Call,
    Super,
    Enter,
    BlkPush,
    Return,
    ReturnBlk,
    Break,
    Add,
    Sub,
    Mul,
    Div,
    Eq,
    Lt,
    Le,
    Gt,
    Ge,
    Array,
    AryPush,
    AryCat,
    ARef,
    APost,
    Intern,
    String,
    StrCat,
    Hash,
    HashAdd,
    Lambda,
    Block,
    RangeInc,
    RangeExc,
    OClass,
    Class,
    Module,
    Exec,
    Def,
    Alias,
    Undef,
    SClass,
    TClass,
    Defined,
    Stop,
}

/// Each instruction, at its number.
const OPCODES: [Opcode; 73] = [
    Opcode::Nop,
    Opcode::Move,
    Opcode::LoadL,
    Opcode::LoadI,
    Opcode::LoadI16,
    Opcode::LoadI32,
    Opcode::LoadSym,
    Opcode::LoadNil,
    Opcode::LoadSelf,
    Opcode::LoadT,
    Opcode::LoadF,
    Opcode::GetGv,
    Opcode::SetGv,
    Opcode::GetIv,
    Opcode::SetIv,
    Opcode::GetConst,
    Opcode::SetConst,
    Opcode::GetMCnst,
    Opcode::SetMCnst,
    Opcode::GetUpVar,
    Opcode::SetUpVar,
    Opcode::Jmp,
    Opcode::JmpIf,
    Opcode::JmpNot,
    Opcode::JmpUw,
    Opcode::Except,
    Opcode::Rescue,
    Opcode::RaiseIf,
    Opcode::SSend,
    Opcode::SSendB,
    Opcode::Send,
    Opcode::SendB,
    Opcode::Call,
    Opcode::Super,
    Opcode::Enter,
    Opcode::BlkPush,
    Opcode::Return,
    Opcode::ReturnBlk,
    Opcode::Break,
    Opcode::Add,
    Opcode::Sub,
    Opcode::Mul,
    Opcode::Div,
    Opcode::Eq,
    Opcode::Lt,
    Opcode::Le,
    Opcode::Gt,
    Opcode::Ge,
    Opcode::Array,
    Opcode::AryPush,
    Opcode::AryCat,
    Opcode::ARef,
    Opcode::APost,
    Opcode::Intern,
    Opcode::String,
    Opcode::StrCat,
    Opcode::Hash,
    Opcode::HashAdd,
    Opcode::Lambda,
    Opcode::Block,
    Opcode::RangeInc,
    Opcode::RangeExc,
    Opcode::OClass,
    Opcode::Class,
    Opcode::Module,
    Opcode::Exec,
    Opcode::Def,
    Opcode::Alias,
    Opcode::Undef,
    Opcode::SClass,
    Opcode::TClass,
    Opcode::Defined,
    Opcode::Stop,
];

impl Opcode {
    /// The instruction of a number, where there is one.
    #[inline(always)]
    #[tactic(auto, unfolding(crate::specs::Table::opcode_of, crate::specs::Table::opcodes))]
    pub fn from_number(number: u8) -> Option<Opcode>
        ensures { result ≡ table.opcode_of number }
    {
        let index = usize::from(number);
        if index < OPCODES.len() {
            Some(OPCODES[index])
        } else {
            None
        }
    }

    /// Its number, from 0 to 72.
    #[inline(always)]
    pub fn number(self) -> u8
        ensures { result ≡ table.number_of self }
    {
        self as u8
    }

    /// Its operands.
    #[inline(always)]
    pub fn shape(self) -> Shape
        ensures { result ≡ table.shape_of self }
    {
        match self {
            Opcode::Nop | Opcode::Stop => Shape::Z,
            Opcode::LoadNil
            | Opcode::LoadSelf
            | Opcode::LoadT
            | Opcode::LoadF
            | Opcode::Except
            | Opcode::RaiseIf
            | Opcode::BlkPush
            | Opcode::Return
            | Opcode::ReturnBlk
            | Opcode::Break
            | Opcode::Add
            | Opcode::Sub
            | Opcode::Mul
            | Opcode::Div
            | Opcode::Eq
            | Opcode::Lt
            | Opcode::Le
            | Opcode::Gt
            | Opcode::Ge
            | Opcode::AryCat
            | Opcode::Intern
            | Opcode::StrCat
            | Opcode::RangeInc
            | Opcode::RangeExc
            | Opcode::Undef
            | Opcode::SClass
            | Opcode::TClass => Shape::B,
            Opcode::Move
            | Opcode::LoadL
            | Opcode::LoadI
            | Opcode::LoadSym
            | Opcode::GetGv
            | Opcode::SetGv
            | Opcode::GetIv
            | Opcode::SetIv
            | Opcode::GetConst
            | Opcode::SetConst
            | Opcode::GetMCnst
            | Opcode::SetMCnst
            | Opcode::Rescue
            | Opcode::Call
            | Opcode::Super
            | Opcode::Array
            | Opcode::AryPush
            | Opcode::String
            | Opcode::Hash
            | Opcode::HashAdd
            | Opcode::Lambda
            | Opcode::Block
            | Opcode::OClass
            | Opcode::Class
            | Opcode::Module
            | Opcode::Exec
            | Opcode::Alias => Shape::BB,
            Opcode::GetUpVar
            | Opcode::SetUpVar
            | Opcode::SSend
            | Opcode::SSendB
            | Opcode::Send
            | Opcode::SendB
            | Opcode::Def
            | Opcode::Defined => Shape::BBB,
            Opcode::ARef | Opcode::APost => Shape::BBI,
            Opcode::Jmp | Opcode::JmpUw => Shape::S,
            Opcode::LoadI16 | Opcode::JmpIf | Opcode::JmpNot => Shape::BS,
            Opcode::LoadI32 => Shape::BSS,
            Opcode::Enter => Shape::W,
        }
    }

    /// Its name in a listing.
    pub fn name(self) -> &'static [u8]
        ensures { result.now ≡ table.name_of self }
    {
        match self {
            Opcode::Nop => b"NOP",
            Opcode::Move => b"MOVE",
            Opcode::LoadL => b"LOADL",
            Opcode::LoadI => b"LOADI",
            Opcode::LoadI16 => b"LOADI16",
            Opcode::LoadI32 => b"LOADI32",
            Opcode::LoadSym => b"LOADSYM",
            Opcode::LoadNil => b"LOADNIL",
            Opcode::LoadSelf => b"LOADSELF",
            Opcode::LoadT => b"LOADT",
            Opcode::LoadF => b"LOADF",
            Opcode::GetGv => b"GETGV",
            Opcode::SetGv => b"SETGV",
            Opcode::GetIv => b"GETIV",
            Opcode::SetIv => b"SETIV",
            Opcode::GetConst => b"GETCONST",
            Opcode::SetConst => b"SETCONST",
            Opcode::GetMCnst => b"GETMCNST",
            Opcode::SetMCnst => b"SETMCNST",
            Opcode::GetUpVar => b"GETUPVAR",
            Opcode::SetUpVar => b"SETUPVAR",
            Opcode::Jmp => b"JMP",
            Opcode::JmpIf => b"JMPIF",
            Opcode::JmpNot => b"JMPNOT",
            Opcode::JmpUw => b"JMPUW",
            Opcode::Except => b"EXCEPT",
            Opcode::Rescue => b"RESCUE",
            Opcode::RaiseIf => b"RAISEIF",
            Opcode::SSend => b"SSEND",
            Opcode::SSendB => b"SSENDB",
            Opcode::Send => b"SEND",
            Opcode::SendB => b"SENDB",
            Opcode::Call => b"CALL",
            Opcode::Super => b"SUPER",
            Opcode::Enter => b"ENTER",
            Opcode::BlkPush => b"BLKPUSH",
            Opcode::Return => b"RETURN",
            Opcode::ReturnBlk => b"RETURN_BLK",
            Opcode::Break => b"BREAK",
            Opcode::Add => b"ADD",
            Opcode::Sub => b"SUB",
            Opcode::Mul => b"MUL",
            Opcode::Div => b"DIV",
            Opcode::Eq => b"EQ",
            Opcode::Lt => b"LT",
            Opcode::Le => b"LE",
            Opcode::Gt => b"GT",
            Opcode::Ge => b"GE",
            Opcode::Array => b"ARRAY",
            Opcode::AryPush => b"ARYPUSH",
            Opcode::AryCat => b"ARYCAT",
            Opcode::ARef => b"AREF",
            Opcode::APost => b"APOST",
            Opcode::Intern => b"INTERN",
            Opcode::String => b"STRING",
            Opcode::StrCat => b"STRCAT",
            Opcode::Hash => b"HASH",
            Opcode::HashAdd => b"HASHADD",
            Opcode::Lambda => b"LAMBDA",
            Opcode::Block => b"BLOCK",
            Opcode::RangeInc => b"RANGE_INC",
            Opcode::RangeExc => b"RANGE_EXC",
            Opcode::OClass => b"OCLASS",
            Opcode::Class => b"CLASS",
            Opcode::Module => b"MODULE",
            Opcode::Exec => b"EXEC",
            Opcode::Def => b"DEF",
            Opcode::Alias => b"ALIAS",
            Opcode::Undef => b"UNDEF",
            Opcode::SClass => b"SCLASS",
            Opcode::TClass => b"TCLASS",
            Opcode::Defined => b"DEFINED",
            Opcode::Stop => b"STOP",
        }
    }
}
