//! Instructions with their operands.
ghost use Rattle.std.specs.Prelude.{◌≡◌};
ghost use Rattle.rite_code.specs.Operation as operations;
ghost use Rattle.rite_code.specs.Table as table;

use crate::opcode::{Opcode, Shape};

/// What ENTER says of the parameters: how many are required, optional and after the rest parameter, whether
/// there is a rest parameter and whether the block has a name. `spare` is the lowest bit, which has no meaning.
#[derive(Clone, Copy, Debug, PartialEq, Eq)]
pub struct Parameters {
    pub required: u8,
    pub optional: u8,
    pub rest: bool,
    pub post: u8,
    pub block: bool,
    pub spare: bool,
}

/// What an instruction does, with its operands. `a`, `b` and `c` are registers, or indices or counts where the
/// instruction says so (docs/formats.md); `by` is the signed distance of a jump from the next instruction.
#[derive(Clone, Copy, Debug, PartialEq, Eq)]
pub enum Operation {
    Nop,
    Move { a: u16, b: u16 },
    LoadL { a: u16, b: u16 },
    LoadI { a: u16, b: u16 },
    LoadI16 { a: u16, b: i32 },
    LoadI32 { a: u16, b: i32 },
    LoadSym { a: u16, b: u16 },
    LoadNil { a: u16 },
    LoadSelf { a: u16 },
    LoadT { a: u16 },
    LoadF { a: u16 },
    GetGv { a: u16, b: u16 },
    SetGv { a: u16, b: u16 },
    GetIv { a: u16, b: u16 },
    SetIv { a: u16, b: u16 },
    GetConst { a: u16, b: u16 },
    SetConst { a: u16, b: u16 },
    GetMCnst { a: u16, b: u16 },
    SetMCnst { a: u16, b: u16 },
    GetUpVar { a: u16, b: u16, c: u16 },
    SetUpVar { a: u16, b: u16, c: u16 },
    Jmp { by: i32 },
    JmpIf { a: u16, by: i32 },
    JmpNot { a: u16, by: i32 },
    JmpUw { by: i32 },
    Except { a: u16 },
    Rescue { a: u16, b: u16 },
    RaiseIf { a: u16 },
    SSend { a: u16, b: u16, c: u16 },
    SSendB { a: u16, b: u16, c: u16 },
    Send { a: u16, b: u16, c: u16 },
    SendB { a: u16, b: u16, c: u16 },
    Call { a: u16, b: u16 },
    Super { a: u16, b: u16 },
    Enter { parameters: Parameters },
    BlkPush { a: u16 },
    Return { a: u16 },
    ReturnBlk { a: u16 },
    Break { a: u16 },
    Add { a: u16 },
    Sub { a: u16 },
    Mul { a: u16 },
    Div { a: u16 },
    Eq { a: u16 },
    Lt { a: u16 },
    Le { a: u16 },
    Gt { a: u16 },
    Ge { a: u16 },
    Array { a: u16, b: u16 },
    AryPush { a: u16, b: u16 },
    AryCat { a: u16 },
    ARef { a: u16, b: u16, c: i32 },
    APost { a: u16, b: u16, c: i32 },
    Intern { a: u16 },
    String { a: u16, b: u16 },
    StrCat { a: u16 },
    Hash { a: u16, b: u16 },
    HashAdd { a: u16, b: u16 },
    Lambda { a: u16, b: u16 },
    Block { a: u16, b: u16 },
    RangeInc { a: u16 },
    RangeExc { a: u16 },
    OClass { a: u16, b: u16 },
    Class { a: u16, b: u16 },
    Module { a: u16, b: u16 },
    Exec { a: u16, b: u16 },
    Def { a: u16, b: u16, c: u16 },
    Alias { a: u16, b: u16 },
    Undef { a: u16 },
    SClass { a: u16 },
    TClass { a: u16 },
    Defined { a: u16, b: u16, c: u16 },
    Stop,
}

/// Operands as they are read and written. Those that a shape lacks are 0.
#[derive(Clone, Copy, Debug, PartialEq, Eq)]
pub struct Operands {
    pub a: u16,
    pub b: u16,
    pub c: u16,
    pub by: i32,
    pub parameters: Parameters,
}

const NO_PARAMETERS: Parameters = Parameters {
    required: 0,
    optional: 0,
    rest: false,
    post: 0,
    block: false,
    spare: false,
};

/// The operands of an instruction without any.
pub const NO_OPERANDS: Operands = Operands {
    a: 0,
    b: 0,
    c: 0,
    by: 0,
    parameters: NO_PARAMETERS,
};

impl Opcode {
    /// What it does with these operands.
    #[inline(always)]
    pub fn operation(self, operands: Operands) -> Operation
        ensures { result ≡ operations.operation_of self operands }
    {
        self.operation_of(self.shape(), operands)
    }

    /// What it does, which has this shape, with these operands.
    #[inline(always)]
    pub(crate) fn operation_of(self, shape: Shape, operands: Operands) -> Operation
        requires { table.shape_of self ≡ shape }
        ensures { result ≡ operations.operation_of self operands }
    {
        match shape {
            Shape::Z => self.bare(operands),
            Shape::B => self.of_index(operands),
            Shape::BB => self.of_two(operands),
            Shape::BBB => self.of_three(operands),
            Shape::BBI => self.of_element(operands),
            Shape::S => self.of_jump(operands),
            Shape::BS => self.of_distance(operands),
            Shape::BSS => self.of_long(operands),
            Shape::W => self.of_parameters(operands),
        }
    }

    /// What an instruction without operands does.
    #[inline(always)]
    fn bare(self, operands: Operands) -> Operation
        requires { table.shape_of self ≡ Shape.Z }
        ensures { result ≡ operations.operation_of self operands }
    {
        match self {
            Opcode::Nop => Operation::Nop,
            Opcode::Stop => Operation::Stop,
            _ => unreachable!(),
        }
    }

    /// What an instruction with one operand does.
    #[inline(always)]
    fn of_index(self, operands: Operands) -> Operation
        requires { table.shape_of self ≡ Shape.B }
        ensures { result ≡ operations.operation_of self operands }
    {
        let Operands { a, .. } = operands;
        match self {
            Opcode::LoadNil => Operation::LoadNil { a },
            Opcode::LoadSelf => Operation::LoadSelf { a },
            Opcode::LoadT => Operation::LoadT { a },
            Opcode::LoadF => Operation::LoadF { a },
            Opcode::Except => Operation::Except { a },
            Opcode::RaiseIf => Operation::RaiseIf { a },
            Opcode::BlkPush => Operation::BlkPush { a },
            Opcode::Return => Operation::Return { a },
            Opcode::ReturnBlk => Operation::ReturnBlk { a },
            Opcode::Break => Operation::Break { a },
            Opcode::Add => Operation::Add { a },
            Opcode::Sub => Operation::Sub { a },
            Opcode::Mul => Operation::Mul { a },
            Opcode::Div => Operation::Div { a },
            Opcode::Eq => Operation::Eq { a },
            Opcode::Lt => Operation::Lt { a },
            Opcode::Le => Operation::Le { a },
            Opcode::Gt => Operation::Gt { a },
            Opcode::Ge => Operation::Ge { a },
            Opcode::AryCat => Operation::AryCat { a },
            Opcode::Intern => Operation::Intern { a },
            Opcode::StrCat => Operation::StrCat { a },
            Opcode::RangeInc => Operation::RangeInc { a },
            Opcode::RangeExc => Operation::RangeExc { a },
            Opcode::Undef => Operation::Undef { a },
            Opcode::SClass => Operation::SClass { a },
            Opcode::TClass => Operation::TClass { a },
            _ => unreachable!(),
        }
    }

    /// What an instruction with two operands does.
    #[inline(always)]
    fn of_two(self, operands: Operands) -> Operation
        requires { table.shape_of self ≡ Shape.BB }
        ensures { result ≡ operations.operation_of self operands }
    {
        let Operands { a, b, .. } = operands;
        match self {
            Opcode::Move => Operation::Move { a, b },
            Opcode::LoadL => Operation::LoadL { a, b },
            Opcode::LoadI => Operation::LoadI { a, b },
            Opcode::LoadSym => Operation::LoadSym { a, b },
            Opcode::GetGv => Operation::GetGv { a, b },
            Opcode::SetGv => Operation::SetGv { a, b },
            Opcode::GetIv => Operation::GetIv { a, b },
            Opcode::SetIv => Operation::SetIv { a, b },
            Opcode::GetConst => Operation::GetConst { a, b },
            Opcode::SetConst => Operation::SetConst { a, b },
            Opcode::GetMCnst => Operation::GetMCnst { a, b },
            Opcode::SetMCnst => Operation::SetMCnst { a, b },
            Opcode::Rescue => Operation::Rescue { a, b },
            Opcode::Call => Operation::Call { a, b },
            Opcode::Super => Operation::Super { a, b },
            Opcode::Array => Operation::Array { a, b },
            Opcode::AryPush => Operation::AryPush { a, b },
            Opcode::String => Operation::String { a, b },
            Opcode::Hash => Operation::Hash { a, b },
            Opcode::HashAdd => Operation::HashAdd { a, b },
            Opcode::Lambda => Operation::Lambda { a, b },
            Opcode::Block => Operation::Block { a, b },
            Opcode::OClass => Operation::OClass { a, b },
            Opcode::Class => Operation::Class { a, b },
            Opcode::Module => Operation::Module { a, b },
            Opcode::Exec => Operation::Exec { a, b },
            Opcode::Alias => Operation::Alias { a, b },
            _ => unreachable!(),
        }
    }

    /// What an instruction with three operands does.
    #[inline(always)]
    fn of_three(self, operands: Operands) -> Operation
        requires { table.shape_of self ≡ Shape.BBB }
        ensures { result ≡ operations.operation_of self operands }
    {
        let Operands { a, b, c, .. } = operands;
        match self {
            Opcode::GetUpVar => Operation::GetUpVar { a, b, c },
            Opcode::SetUpVar => Operation::SetUpVar { a, b, c },
            Opcode::SSend => Operation::SSend { a, b, c },
            Opcode::SSendB => Operation::SSendB { a, b, c },
            Opcode::Send => Operation::Send { a, b, c },
            Opcode::SendB => Operation::SendB { a, b, c },
            Opcode::Def => Operation::Def { a, b, c },
            Opcode::Defined => Operation::Defined { a, b, c },
            _ => unreachable!(),
        }
    }

    /// What an instruction with two operands and a place in a list does.
    #[inline(always)]
    fn of_element(self, operands: Operands) -> Operation
        requires { table.shape_of self ≡ Shape.BBI }
        ensures { result ≡ operations.operation_of self operands }
    {
        let Operands { a, b, by, .. } = operands;
        match self {
            Opcode::ARef => Operation::ARef { a, b, c: by },
            Opcode::APost => Operation::APost { a, b, c: by },
            _ => unreachable!(),
        }
    }

    /// What an instruction with a distance does.
    #[inline(always)]
    fn of_jump(self, operands: Operands) -> Operation
        requires { table.shape_of self ≡ Shape.S }
        ensures { result ≡ operations.operation_of self operands }
    {
        let Operands { by, .. } = operands;
        match self {
            Opcode::Jmp => Operation::Jmp { by },
            Opcode::JmpUw => Operation::JmpUw { by },
            _ => unreachable!(),
        }
    }

    /// What an instruction with an operand and a signed number of two bytes does.
    #[inline(always)]
    fn of_distance(self, operands: Operands) -> Operation
        requires { table.shape_of self ≡ Shape.BS }
        ensures { result ≡ operations.operation_of self operands }
    {
        let Operands { a, by, .. } = operands;
        match self {
            Opcode::LoadI16 => Operation::LoadI16 { a, b: by },
            Opcode::JmpIf => Operation::JmpIf { a, by },
            Opcode::JmpNot => Operation::JmpNot { a, by },
            _ => unreachable!(),
        }
    }

    /// What an instruction with an operand and a signed number of four bytes does.
    #[inline(always)]
    fn of_long(self, operands: Operands) -> Operation
        requires { table.shape_of self ≡ Shape.BSS }
        ensures { result ≡ operations.operation_of self operands }
    {
        let Operands { a, by, .. } = operands;
        match self {
            Opcode::LoadI32 => Operation::LoadI32 { a, b: by },
            _ => unreachable!(),
        }
    }

    /// What ENTER does.
    #[inline(always)]
    fn of_parameters(self, operands: Operands) -> Operation
        requires { table.shape_of self ≡ Shape.W }
        ensures { result ≡ operations.operation_of self operands }
    {
        let Operands { parameters, .. } = operands;
        match self {
            Opcode::Enter => Operation::Enter { parameters },
            _ => unreachable!(),
        }
    }
}

impl Operation {
    /// The instruction without its operands.
    #[inline(always)]
    pub fn opcode(self) -> Opcode
        ensures { result ≡ operations.opcode_in self }
    {
        match self {
            Operation::Nop => Opcode::Nop,
            Operation::Move { .. } => Opcode::Move,
            Operation::LoadL { .. } => Opcode::LoadL,
            Operation::LoadI { .. } => Opcode::LoadI,
            Operation::LoadI16 { .. } => Opcode::LoadI16,
            Operation::LoadI32 { .. } => Opcode::LoadI32,
            Operation::LoadSym { .. } => Opcode::LoadSym,
            Operation::LoadNil { .. } => Opcode::LoadNil,
            Operation::LoadSelf { .. } => Opcode::LoadSelf,
            Operation::LoadT { .. } => Opcode::LoadT,
            Operation::LoadF { .. } => Opcode::LoadF,
            Operation::GetGv { .. } => Opcode::GetGv,
            Operation::SetGv { .. } => Opcode::SetGv,
            Operation::GetIv { .. } => Opcode::GetIv,
            Operation::SetIv { .. } => Opcode::SetIv,
            Operation::GetConst { .. } => Opcode::GetConst,
            Operation::SetConst { .. } => Opcode::SetConst,
            Operation::GetMCnst { .. } => Opcode::GetMCnst,
            Operation::SetMCnst { .. } => Opcode::SetMCnst,
            Operation::GetUpVar { .. } => Opcode::GetUpVar,
            Operation::SetUpVar { .. } => Opcode::SetUpVar,
            Operation::Jmp { .. } => Opcode::Jmp,
            Operation::JmpIf { .. } => Opcode::JmpIf,
            Operation::JmpNot { .. } => Opcode::JmpNot,
            Operation::JmpUw { .. } => Opcode::JmpUw,
            Operation::Except { .. } => Opcode::Except,
            Operation::Rescue { .. } => Opcode::Rescue,
            Operation::RaiseIf { .. } => Opcode::RaiseIf,
            Operation::SSend { .. } => Opcode::SSend,
            Operation::SSendB { .. } => Opcode::SSendB,
            Operation::Send { .. } => Opcode::Send,
            Operation::SendB { .. } => Opcode::SendB,
            Operation::Call { .. } => Opcode::Call,
            Operation::Super { .. } => Opcode::Super,
            Operation::Enter { .. } => Opcode::Enter,
            Operation::BlkPush { .. } => Opcode::BlkPush,
            Operation::Return { .. } => Opcode::Return,
            Operation::ReturnBlk { .. } => Opcode::ReturnBlk,
            Operation::Break { .. } => Opcode::Break,
            Operation::Add { .. } => Opcode::Add,
            Operation::Sub { .. } => Opcode::Sub,
            Operation::Mul { .. } => Opcode::Mul,
            Operation::Div { .. } => Opcode::Div,
            Operation::Eq { .. } => Opcode::Eq,
            Operation::Lt { .. } => Opcode::Lt,
            Operation::Le { .. } => Opcode::Le,
            Operation::Gt { .. } => Opcode::Gt,
            Operation::Ge { .. } => Opcode::Ge,
            Operation::Array { .. } => Opcode::Array,
            Operation::AryPush { .. } => Opcode::AryPush,
            Operation::AryCat { .. } => Opcode::AryCat,
            Operation::ARef { .. } => Opcode::ARef,
            Operation::APost { .. } => Opcode::APost,
            Operation::Intern { .. } => Opcode::Intern,
            Operation::String { .. } => Opcode::String,
            Operation::StrCat { .. } => Opcode::StrCat,
            Operation::Hash { .. } => Opcode::Hash,
            Operation::HashAdd { .. } => Opcode::HashAdd,
            Operation::Lambda { .. } => Opcode::Lambda,
            Operation::Block { .. } => Opcode::Block,
            Operation::RangeInc { .. } => Opcode::RangeInc,
            Operation::RangeExc { .. } => Opcode::RangeExc,
            Operation::OClass { .. } => Opcode::OClass,
            Operation::Class { .. } => Opcode::Class,
            Operation::Module { .. } => Opcode::Module,
            Operation::Exec { .. } => Opcode::Exec,
            Operation::Def { .. } => Opcode::Def,
            Operation::Alias { .. } => Opcode::Alias,
            Operation::Undef { .. } => Opcode::Undef,
            Operation::SClass { .. } => Opcode::SClass,
            Operation::TClass { .. } => Opcode::TClass,
            Operation::Defined { .. } => Opcode::Defined,
            Operation::Stop => Opcode::Stop,
        }
    }

    /// Its operands.
    pub fn operands(self) -> Operands
        ensures { result ≡ operations.operands_in self }
    {
        match self {
            Operation::Nop | Operation::Stop => NO_OPERANDS,
            Operation::LoadNil { a }
            | Operation::LoadSelf { a }
            | Operation::LoadT { a }
            | Operation::LoadF { a }
            | Operation::Except { a }
            | Operation::RaiseIf { a }
            | Operation::BlkPush { a }
            | Operation::Return { a }
            | Operation::ReturnBlk { a }
            | Operation::Break { a }
            | Operation::Add { a }
            | Operation::Sub { a }
            | Operation::Mul { a }
            | Operation::Div { a }
            | Operation::Eq { a }
            | Operation::Lt { a }
            | Operation::Le { a }
            | Operation::Gt { a }
            | Operation::Ge { a }
            | Operation::AryCat { a }
            | Operation::Intern { a }
            | Operation::StrCat { a }
            | Operation::RangeInc { a }
            | Operation::RangeExc { a }
            | Operation::Undef { a }
            | Operation::SClass { a }
            | Operation::TClass { a } => Operands { a, ..NO_OPERANDS },
            Operation::Move { a, b }
            | Operation::LoadL { a, b }
            | Operation::LoadI { a, b }
            | Operation::LoadSym { a, b }
            | Operation::GetGv { a, b }
            | Operation::SetGv { a, b }
            | Operation::GetIv { a, b }
            | Operation::SetIv { a, b }
            | Operation::GetConst { a, b }
            | Operation::SetConst { a, b }
            | Operation::GetMCnst { a, b }
            | Operation::SetMCnst { a, b }
            | Operation::Rescue { a, b }
            | Operation::Call { a, b }
            | Operation::Super { a, b }
            | Operation::Array { a, b }
            | Operation::AryPush { a, b }
            | Operation::String { a, b }
            | Operation::Hash { a, b }
            | Operation::HashAdd { a, b }
            | Operation::Lambda { a, b }
            | Operation::Block { a, b }
            | Operation::OClass { a, b }
            | Operation::Class { a, b }
            | Operation::Module { a, b }
            | Operation::Exec { a, b }
            | Operation::Alias { a, b } => Operands {
                a,
                b,
                ..NO_OPERANDS
            },
            Operation::GetUpVar { a, b, c }
            | Operation::SetUpVar { a, b, c }
            | Operation::SSend { a, b, c }
            | Operation::SSendB { a, b, c }
            | Operation::Send { a, b, c }
            | Operation::SendB { a, b, c }
            | Operation::Def { a, b, c }
            | Operation::Defined { a, b, c } => Operands {
                a,
                b,
                c,
                ..NO_OPERANDS
            },
            Operation::ARef { a, b, c } => Operands {
                a,
                b,
                by: c,
                ..NO_OPERANDS
            },
            Operation::APost { a, b, c } => Operands {
                a,
                b,
                by: c,
                ..NO_OPERANDS
            },
            Operation::Jmp { by } => Operands { by, ..NO_OPERANDS },
            Operation::JmpUw { by } => Operands { by, ..NO_OPERANDS },
            Operation::LoadI16 { a, b } => Operands {
                a,
                by: b,
                ..NO_OPERANDS
            },
            Operation::JmpIf { a, by } => Operands {
                a,
                by,
                ..NO_OPERANDS
            },
            Operation::JmpNot { a, by } => Operands {
                a,
                by,
                ..NO_OPERANDS
            },
            Operation::LoadI32 { a, b } => Operands {
                a,
                by: b,
                ..NO_OPERANDS
            },
            Operation::Enter { parameters } => Operands {
                parameters,
                ..NO_OPERANDS
            },
        }
    }
}
